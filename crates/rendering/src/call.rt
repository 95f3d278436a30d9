//! A call, and the layouts that it appends.

ghost use Rattle.std.specs.Prelude.{◌≡◌, true, map, IfOk, OnOk};
ghost use Rattle.laws.specs.Text.{spelled};
ghost use Rattle.rendering_context.specs.Answering.{is_english};
ghost use Rattle.rendering_leaves.specs.NodeSettings.{noted};
ghost use Rattle.rendering_leaves.specs.Views.{form_view};
ghost use Rattle.rendering_names.specs.Views.{resolved_options_view};
ghost use Rattle.rendering_nodes.specs.Content.{contents};
ghost use Rattle.rendering_page.specs.Views.{quotes_view};
ghost use Rattle.rendering_style.specs.Opening.{opened_nodes};
ghost use Rattle.rendering_style.specs.Options.{NameOptions, open_options, options_over};
ghost use Rattle.rendering_style.specs.StyleViews.{style_view};
ghost use Rattle.rendering_style.specs.Views.{bibliography_layout_view, layout_view, node_view};
ghost use Rattle.rendering.specs.Purposes.{append_bibliography, citation_options, append_citation, citation_survey, append_layout, layout_survey, append_made, append_own, setting_of};

use crate::author_node::AuthorNode;
use crate::layout::{layout_manner, layout_options, setting_of};
use rendering_entries::EntryLike;
use rendering_leaves::{SpecialForm, State};
use rendering_names::ResolvedNameOptions;
use rendering_nodes::Walk;
use rendering_style::{Bibliography, Layout, Node};
use std::alloc::AllocError;

/// A call: what it prints from, the node for authors, and the options for names in the citation. Its functions take the entry
/// beside it.
#[derive(Clone, Copy)]
pub(crate) struct Call<'s, 'a> {
    pub(crate) walk: Walk<'s, 'a>,
    pub(crate) authors: &'a AuthorNode,
    pub(crate) options: &'a ResolvedNameOptions<'a>,
    ghost resolved: { resolved_options_view options.now
        ≡ citation_options (style_view walk.style.now) },
}

impl<'s, 'a> Call<'s, 'a> {
    ghost use Rattle.rendering.specs.Views.{context_in, style_of};

    /// Appends the layout of the citation in a form, without its affixes.
    pub(crate) fn push_citation<E: EntryLike>(
        &self,
        entry: &'a E,
        form: SpecialForm,
        state: &mut State<'a>,
    ) -> Result<(), AllocError>
        ensures { OnOk result (state.new ≡ append_citation (style_of self.now)
            (context_in (E.answers entry.entry.now) self.now) (form_view form) state.old) }
    {
        let citation = &self.walk.style.parts().citation;
        self.push_layout(entry, &citation.layout, self.options, form, state)
    }

    /// Appends the layout of the bibliography in a form, without its affixes.
    pub(crate) fn push_bibliography<E: EntryLike>(
        &self,
        entry: &'a E,
        form: SpecialForm,
        bibliography: &'a Bibliography,
        state: &mut State<'a>,
    ) -> Result<(), AllocError>
        ensures { OnOk result (state.new ≡ append_bibliography (style_of self.now)
            (context_in (E.answers entry.entry.now) self.now) (form_view form)
            (bibliography_layout_view bibliography.now) state.old) }
    {
        let options = layout_options(self.walk.style.parts(), &bibliography.name_options);
        self.push_layout(entry, &bibliography.layout, &options, form, state)
    }

    /// Appends the node for the authors as the layout of the citation would have it.
    pub(crate) fn push_made<E: EntryLike>(
        &self,
        entry: &'a E,
        form: SpecialForm,
        state: &mut State<'a>,
    ) -> Result<(), AllocError>
        ensures { OnOk result (state.new ≡ append_made (style_of self.now)
            (context_in (E.answers entry.entry.now) self.now) (form_view form) state.old) }
    {
        let citation = &self.walk.style.parts().citation;
        let nodes = self.authors.nodes();
        self.push_nodes(entry, &citation.layout, self.options, nodes, form, state)
    }

    /// Appends a text of the citation's own, which looks as its layout does.
    pub(crate) fn push_own(&self, text: &'a str, state: &mut State<'a>) -> Result<(), AllocError>
        ensures { OnOk result (state.new ≡ append_own (style_of self.now)
            (quotes_view self.now.walk.context.quotes.now) (spelled text.entry) state.old) }
    {
        let manner = layout_manner(&self.walk.style.parts().citation.layout);
        state.page.push_text(self.walk.context.quotes, manner, text)
    }

    /// Whether anything of the layout of the citation is admitted in a form. Remembers whether the test `disambiguate` was evaluated
    /// on the way.
    pub(crate) fn admits_citation<E: EntryLike>(
        &self,
        entry: &'a E,
        form: SpecialForm,
        state: &mut State<'a>,
    ) -> Result<bool, AllocError>
        ensures admitted { IfOk result (λ b. b
            ≡ (citation_survey (style_of self.now) (context_in (E.answers entry.entry.now) self.now)
            (form_view form) state.old).is_admitted) }
        ensures state { OnOk result (state.new ≡ noted
            (citation_survey (style_of self.now) (context_in (E.answers entry.entry.now) self.now)
            (form_view form) state.old).met state.old) }
    {
        self.admits(entry, &self.walk.style.parts().citation.layout, form, state)
    }

    /// Whether anything of a layout is admitted in a form. Remembers whether the test `disambiguate` was evaluated on the way.
    pub(crate) fn admits<E: EntryLike>(
        &self,
        entry: &'a E,
        layout: &'a Layout,
        form: SpecialForm,
        state: &mut State<'a>,
    ) -> Result<bool, AllocError>
        ensures admitted { IfOk result (λ b. b
            ≡ (layout_survey (style_of self.now) (context_in (E.answers entry.entry.now) self.now)
            (layout_view layout.now) open_options (form_view form) state.old).is_admitted) }
        ensures state { OnOk result (state.new ≡ noted
            (layout_survey (style_of self.now) (context_in (E.answers entry.entry.now) self.now)
            (layout_view layout.now) open_options (form_view form) state.old).met state.old) }
    {
        let asked = self.walk.survey(entry, form, &layout.nodes, state)?;
        state.note(asked.met);
        Ok(asked.is_admitted)
    }

    /// Appends a layout in a form, with its options for names, without its affixes.
    fn push_layout<E: EntryLike>(
        &self,
        entry: &'a E,
        layout: &'a Layout,
        options: &ResolvedNameOptions<'a>,
        form: SpecialForm,
        state: &mut State<'a>,
    ) -> Result<(), AllocError>
        ensures { (own : NameOptions)
            → resolved_options_view options.now ≡ options_over own (style_of self.now).name_options
            → OnOk result (state.new
            ≡ append_layout (style_of self.now) (context_in (E.answers entry.entry.now) self.now)
            (layout_view layout.now) own (form_view form) state.old) }
    {
        self.push_nodes(entry, layout, options, &layout.nodes, form, state)
    }

    /// Appends nodes in a form as a layout would have them, with its options for names.
    fn push_nodes<E: EntryLike>(
        &self,
        entry: &'a E,
        layout: &'a Layout,
        options: &ResolvedNameOptions<'a>,
        nodes: &'a [Node],
        form: SpecialForm,
        state: &mut State<'a>,
    ) -> Result<(), AllocError>
        ensures { (own : NameOptions)
            → resolved_options_view options.now ≡ options_over own (style_of self.now).name_options
            → OnOk result (state.new ≡ contents (context_in (E.answers entry.entry.now) self.now)
            (setting_of (style_of self.now)
            (is_english (context_in (E.answers entry.entry.now) self.now))
            (layout_view layout.now) own (form_view form)) true
            (opened_nodes (style_of self.now).macros (map node_view nodes.now)) state.old) }
    {
        let is_english = self.walk.context.is_english(entry);
        let setting = setting_of(layout, options, form, is_english);
        self.walk.push_nodes(entry, &setting, nodes, state)
    }
}
