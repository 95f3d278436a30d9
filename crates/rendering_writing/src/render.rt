//! The trait of what is printed as nodes of a style.

ghost use Rattle.std.specs.Prelude.{◌≡◌, IfOk, OnOk};
ghost use Rattle.rendering_nodes.specs.Views.{macros_of, survey_view};
ghost use Rattle.rendering_style.specs.Opening.{opened_nodes};
ghost use Rattle.rendering_writing.specs.Views.{writing_context_view};
ghost use Rattle.rendering_writing.specs.Writing.{nodes_asked, nodes_rendered};

use crate::context::Context;
use rendering_entries::EntryLike;
use rendering_nodes::Survey;
use rendering_style::{Layout, Node};
use std::alloc::AllocError;
use std::slice;

/// What is printed as nodes of a style: a node, a layout, or a type of the caller's that has nodes.
pub trait RenderCsl {
    ghost use Rattle.std.specs.Prelude.{List, map};
    ghost use Rattle.rendering_style.specs.Nodes as nodes;
    ghost use Rattle.rendering_style.specs.Views.{node_view};

    ghost stands_for: { Self → List nodes.Node };

    /// The nodes that it stands for.
    fn nodes(&self) -> &[Node]
        ensures { map node_view result.now ≡ stands_for self.now };

    /// Appends its nodes, each that is admitted.
    ///
    /// # Errors
    /// Out of memory.
    final fn render<'a, E: EntryLike>(
        &'a self,
        context: &mut Context<'_, '_, 'a, E>,
    ) -> Result<(), AllocError>
        ensures same_reference { context.new.writing.ghost_name ≡ context.old.writing.ghost_name }
        ensures around { (context.new.walk ≡ context.old.walk)
            × (context.new.entry ≡ context.old.entry) }
        ensures ok { OnOk result (context.new.writing.now
            ≡ nodes_rendered (writing_context_view (E.answers context.old.entry.now) context.old)
            (opened_nodes (macros_of context.old.walk) (stands_for self.now))
            context.old.writing.now) }
    {
        context
            .writing
            .push_nodes(&context.walk, context.entry, self.nodes())
    }

    /// What is asked of its nodes before they are appended.
    ///
    /// # Errors
    /// Out of memory.
    final fn will_have_info<'a, E: EntryLike>(
        &'a self,
        context: &Context<'_, '_, 'a, E>,
    ) -> Result<Survey, AllocError>
        ensures { IfOk result (λ v. survey_view v
            ≡ nodes_asked (writing_context_view (E.answers context.now.entry.now) context.now)
            (opened_nodes (macros_of context.now.walk) (stands_for self.now))
            context.now.writing.now) }
    {
        context
            .writing
            .survey(&context.walk, context.entry, self.nodes())
    }

    /// Whether one of its nodes is admitted.
    ///
    /// # Errors
    /// Out of memory.
    final fn will_render<'a, E: EntryLike>(
        &'a self,
        context: &Context<'_, '_, 'a, E>,
    ) -> Result<bool, AllocError>
        ensures { IfOk result (λ b. b
            ≡ (nodes_asked (writing_context_view (E.answers context.now.entry.now) context.now)
            (opened_nodes (macros_of context.now.walk) (stands_for self.now))
            context.now.writing.now).is_admitted) }
    {
        let asked = self.will_have_info(context)?;
        Ok(asked.is_admitted)
    }
}

impl RenderCsl for Node {
    ghost use Rattle.std.specs.Prelude.{[], ◌∷◌};
    ghost use Rattle.rendering_style.specs.Views.{node_view};

    ghost stands_for = { λ x. node_view x ∷ [] };

    fn nodes(&self) -> &[Node] {
        slice::from_ref(self)
    }
}

impl RenderCsl for Layout {
    ghost use Rattle.rendering_style.specs.Views.{layout_view};

    ghost stands_for = { λ l. (layout_view l).nodes };

    fn nodes(&self) -> &[Node] {
        self.nodes.as_slice()
    }
}
