//! The branch of a choose that is taken.

ghost use Rattle.std.specs.Prelude.{◌≡◌, map, IfOk};
ghost use Rattle.rendering_nodes.specs.Taken.{taken};
ghost use Rattle.rendering_nodes.specs.Views.{taken_view, walk_context};
ghost use Rattle.rendering_style.specs.Views.{branch_view, branches_of, nodes_view};

use crate::style_walk::Walk;
use rendering_context::asks_disambiguate;
use rendering_entries::EntryLike;
use rendering_style::{ChooseBranch, Node};
use std::alloc::AllocError;

/// The nodes of the branch that is taken.
#[derive(Clone, Copy)]
pub(crate) struct Taken<'a> {
    pub(crate) nodes: &'a [Node],
    /// Whether the test `disambiguate` was evaluated on the way.
    pub(crate) met: bool,
}

impl<'a> Walk<'_, 'a> {
    /// The nodes of the first branch whose condition is met, or else the last ones.
    pub(crate) fn taken<E: EntryLike>(
        &self,
        entry: &'a E,
        branches: &'a [ChooseBranch],
        otherwise: &'a [Node],
    ) -> Result<Taken<'a>, AllocError>
        ensures { IfOk result (λ t. taken_view t
            ≡ taken (walk_context (E.answers entry.now) self.now)
            (branches_of (map branch_view branches.now) (nodes_view otherwise.now))) }
    {
        let mut met = false;
        for branch in branches {
            met = met || asks_disambiguate(&branch.condition);
            if self.context.is_met(entry, &branch.condition)? {
                let nodes = branch.children.as_slice();
                return Ok(Taken { nodes, met });
            }
        }
        Ok(Taken {
            nodes: otherwise,
            met,
        })
    }
}
