//! Nodes of a style on a page.

ghost use Rattle.std.specs.Prelude.{◌≡◌, map, true, IfOk, OnOk};
ghost use Rattle.rendering_leaves.specs.Views.{form_view, setting_view};
ghost use Rattle.rendering_nodes.specs.Admission.{surveys};
ghost use Rattle.rendering_nodes.specs.Content.{contents};
ghost use Rattle.rendering_nodes.specs.Views.{macros_of, stage_view, survey_view, walk_context};
ghost use Rattle.rendering_style.specs.Opening.{opened_nodes};
ghost use Rattle.rendering_style.specs.Views.{node_view};
ghost use Rattle.rendering_entries.specs.Answers.{Answers};

use crate::leaf_surveys::Stage;
use crate::survey::Survey;
use rendering_context::Context;
use rendering_entries::EntryLike;
use rendering_leaves::{NodeSetting, SpecialForm, State};
use rendering_style::{Node, Style};
use std::alloc::AllocError;

/// The most levels that nodes may have, macros opened. Nothing is printed of what lies deeper.
pub(crate) const LIMIT: usize = 200;

/// What nodes are printed from beside an entry, and the style whose macros they call. Calls take the entry beside it; nothing of
/// the entry but its answers is looked at.
#[derive(Clone, Copy)]
pub struct Walk<'s, 'a> {
    pub context: Context<'s, 'a>,
    pub style: &'a Style,
}

impl<'s, 'a> Walk<'s, 'a> {
    /// What is asked of nodes before they are printed.
    ///
    /// # Errors
    /// Out of memory.
    pub fn survey<E: EntryLike>(
        &self,
        entry: &'a E,
        form: SpecialForm,
        nodes: &'a [Node],
        state: &State<'a>,
    ) -> Result<Survey, AllocError>
        ensures { IfOk result (λ v. survey_view v ≡ surveys (record {
          context = walk_context (E.answers entry.now) self.now;
          form = form_view form;
          has_date = state.now.has_date;
          suppressed = state.now.suppressed;
        })
            (opened_nodes (macros_of self.now) (map node_view nodes.now))) }
    {
        let stage = self.stage(form, state);
        let mut findings = Vec::new(self.context.alloc);
        stage.survey_all(entry, LIMIT, nodes, &mut findings)
    }

    /// Prints nodes one after the other, each that is admitted, with the delimiter of the group around between them. After an
    /// error nothing is promised of the state.
    ///
    /// # Errors
    /// Out of memory.
    pub fn push_nodes<E: EntryLike>(
        &self,
        entry: &'a E,
        setting: &NodeSetting<'a>,
        nodes: &'a [Node],
        state: &mut State<'a>,
    ) -> Result<(), AllocError>
        ensures { OnOk result (state.new
            ≡ contents (walk_context (E.answers entry.now) self.now) (setting_view setting.now) true
            (opened_nodes (macros_of self.now) (map node_view nodes.now)) state.old) }
    {
        self.push_unsurveyed(entry, setting, LIMIT, nodes, state)
    }

    /// How far the call has come.
    pub(crate) fn stage<'t>(&'t self, form: SpecialForm, state: &'t State<'a>) -> Stage<'t, 's, 'a>
        ensures index { (a : Answers) → stage_view a result ≡ record {
          context = walk_context a self.now;
          form = form_view form;
          has_date = state.now.has_date;
          suppressed = state.now.suppressed;
        } }
        ensures macros { macros_of result.walk.now ≡ macros_of self.now }
    {
        Stage {
            walk: self,
            form,
            has_date: state.has_date,
            suppressed: state.suppressed.as_slice(),
        }
    }
}
