//! Names with people.

ghost use Rattle.std.specs.Prelude.{◌≡◌, Some, IfOk, OnOk};
ghost use Rattle.std.specs.Option.{unwrap_or};
ghost use Rattle.rendering_context.specs.Cites.{names_of};
ghost use Rattle.rendering_entries.specs.Answers.{Answers};
ghost use Rattle.rendering_leaves.specs.NodeSettings.{append};
ghost use Rattle.rendering_leaves.specs.Views.{setting_view};
ghost use Rattle.rendering_names.specs.Names.{names_pieces, node_options};
ghost use Rattle.rendering_people.specs.Properties.{raised_to};
ghost use Rattle.rendering_people.specs.Views.{all_lent_answered_view};
ghost use Rattle.rendering_names.specs.Views.{names_parts_view, resolved_options_view};
ghost use Rattle.rendering_nodes.specs.Content.{append_names, append_people, disambiguated, with_people_printed};
ghost use Rattle.rendering_nodes.specs.Views.{walk_context};

use crate::style_walk::Walk;
use rendering_context::DisambiguateState;
use rendering_leaves::{NodeSetting, State};
use rendering_names::{NameSetting, NamesParts, ResolvedNameOptions, properties_by, push_names};
use rendering_people::{Answered, NameDisambiguationProperties};
use rendering_taxonomy::Variable;
use std::alloc::AllocError;

impl<'s, 'a> Walk<'s, 'a> {
    /// Prints names with people, by the options of the node and those around it.
    pub(crate) fn push_people(
        &self,
        setting: &NodeSetting<'a>,
        names: &NamesParts<'a>,
        people: &[Answered<'_>],
        state: &mut State<'a>,
    ) -> Result<(), AllocError>
        ensures { (a : Answers) → OnOk result (state.new
            ≡ append_people (walk_context a self.now) (setting_view setting.now)
            (names_parts_view names.now) (all_lent_answered_view people.now) state.old) }
    {
        let options = names.options(&setting.options);
        let is_first = self.context.properties.is_first;
        let own = properties_by(self.context.alloc, &options, is_first, people)?;
        self.push_own(setting, names, &options, own, people, state)
    }

    /// Prints names with people, of which so much is printed by the options. It is remembered of the first names, and in a substitute the
    /// people are not printed again.
    fn push_own(
        &self,
        setting: &NodeSetting<'a>,
        names: &NamesParts<'a>,
        options: &ResolvedNameOptions<'a>,
        own: NameDisambiguationProperties,
        people: &[Answered<'_>],
        state: &mut State<'a>,
    ) -> Result<(), AllocError>
        requires { resolved_options_view options.now
            ≡ node_options (names_parts_view names.now) (setting_view setting.now).options }
        ensures { (a : Answers) → OnOk result (state.new
            ≡ append_names (walk_context a self.now) (setting_view setting.now)
            (names_parts_view names.now) own (all_lent_answered_view people.now) state.old) }
    {
        self.push_disambiguated(setting, names, options, &own, people, state)?;
        remember(own, state);
        if setting.in_substitute {
            return suppress_people(people, state);
        }
        Ok(())
    }

    /// Prints names with people. Of the first names that are printed more may be printed than the options say, to disambiguate
    /// cites.
    fn push_disambiguated(
        &self,
        setting: &NodeSetting<'a>,
        names: &NamesParts<'a>,
        options: &ResolvedNameOptions<'a>,
        own: &NameDisambiguationProperties,
        people: &[Answered<'_>],
        state: &mut State<'a>,
    ) -> Result<(), AllocError>
        requires { resolved_options_view options.now
            ≡ node_options (names_parts_view names.now) (setting_view setting.now).options }
        ensures { (a : Answers) → OnOk result (state.new ≡ append (walk_context a self.now)
            (names_pieces (walk_context a self.now).locales (setting_view setting.now).manner
            (names_parts_view names.now) (setting_view setting.now).options
            (disambiguated (walk_context a self.now) state.old.names own.now)
            (all_lent_answered_view people.now)) state.old) }
    {
        let raised = self.raised(own, state)?;
        let shown = raised_or_own(&raised, own);
        self.push_shown(setting, names, options, shown, people, state)
    }

    /// How much is printed of names, where that may be more than their options say, as it may be of the first names; else `None`.
    fn raised(
        &self,
        own: &NameDisambiguationProperties,
        state: &State<'a>,
    ) -> Result<Option<NameDisambiguationProperties>, AllocError>
        ensures { (a : Answers) → IfOk result (λ r. unwrap_or r own.now
            ≡ disambiguated (walk_context a self.now) state.now.names own.now) }
    {
        if state.names.is_some() {
            return Ok(None);
        }
        match self.context.properties.first_names {
            Some(first) => self.first_raised(own, first),
            None => self.raised_in_state(own),
        }
    }

    /// How much is printed of the first names, where more of them is printed before cites are compared.
    fn first_raised(
        &self,
        own: &NameDisambiguationProperties,
        first: &NameDisambiguationProperties,
    ) -> Result<Option<NameDisambiguationProperties>, AllocError>
        ensures { (a : Answers) → IfOk result (λ r. unwrap_or r own.now
            ≡ raised_to (names_of (walk_context a self.now).properties.disambiguation)
            (raised_to first.now own.now)) }
    {
        let named = own.raised_to(self.context.alloc, first)?;
        let raised = self.raised_in_state(&named)?;
        Ok(Some(raised.unwrap_or(named)))
    }

    /// How much is printed of the first names, where more of them is printed to disambiguate cites; else `None`.
    fn raised_in_state(
        &self,
        own: &NameDisambiguationProperties,
    ) -> Result<Option<NameDisambiguationProperties>, AllocError>
        ensures { (a : Answers) → IfOk result (λ r. unwrap_or r own.now
            ≡ raised_to (names_of (walk_context a self.now).properties.disambiguation) own.now) }
    {
        match &self.context.properties.disambiguation {
            DisambiguateState::NameDisambiguation(others) => {
                let raised = own.raised_to(self.context.alloc, others)?;
                Ok(Some(raised))
            }
            _ => Ok(None),
        }
    }

    /// Prints names with people, of which so much is printed.
    fn push_shown(
        &self,
        setting: &NodeSetting<'a>,
        names: &NamesParts<'a>,
        options: &ResolvedNameOptions<'a>,
        shown: &NameDisambiguationProperties,
        people: &[Answered<'_>],
        state: &mut State<'a>,
    ) -> Result<(), AllocError>
        requires { resolved_options_view options.now
            ≡ node_options (names_parts_view names.now) (setting_view setting.now).options }
        ensures { (a : Answers) → OnOk result (state.new ≡ append (walk_context a self.now)
            (names_pieces (walk_context a self.now).locales (setting_view setting.now).manner
            (names_parts_view names.now) (setting_view setting.now).options shown.now
            (all_lent_answered_view people.now)) state.old) }
    {
        let index = NameSetting {
            alloc: self.context.alloc,
            quotes: self.context.quotes,
            locales: self.context.locales,
            manner: setting.manner,
        };
        push_names(&mut state.page, &index, names, options, shown, people)
    }
}

/// How much is printed of names, where that may be more than their options say, or else what these say.
fn raised_or_own<'p>(
    raised: &'p Option<NameDisambiguationProperties>,
    own: &'p NameDisambiguationProperties,
) -> &'p NameDisambiguationProperties
    ensures { result.now ≡ unwrap_or raised.now own.now }
{
    match raised {
        Some(raised) => raised,
        None => own,
    }
}

/// Remembers what is printed of these names by their options, unless it is remembered of earlier names.
fn remember(own: NameDisambiguationProperties, state: &mut State<'_>)
    ensures { state.new ≡ record state.old { names = Some (unwrap_or state.old.names own) } }
{
    if state.names.is_none() {
        state.names = Some(own);
    }
}

/// Remembers that a substitute printed people, who are not printed again.
fn suppress_people(people: &[Answered<'_>], state: &mut State<'_>) -> Result<(), AllocError>
    ensures { OnOk result (state.new
        ≡ with_people_printed (all_lent_answered_view people.now) state.old) }
{
    for answered in people {
        state.suppress(Variable::Name(answered.variable))?;
    }
    Ok(())
}
