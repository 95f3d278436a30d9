//! Final states of entries.

ghost use Rattle.std.specs.Prelude.{◌≡◌, map};
ghost use Rattle.std.specs.Option.{option_map};
ghost use Rattle.rendering_context.specs.Views.{state_view};
ghost use Rattle.driver_disambiguation.specs.SuffixesFound.{suffixes_by};
ghost use Rattle.driver_names.specs.Views.{given_states_view};
ghost use Rattle.driver_requests.specs.SuffixViews.{suffix_view};

use driver_disambiguation::GivenState;
use driver_requests::Suffix;
use rendering_context::DisambiguateState;

/// The final states of cited entries, all that rounds have given, and the year suffix of these entries.
#[derive(Clone, Copy)]
pub(crate) struct FinalStates<'m> {
    pub(crate) states: &'m [DisambiguateState],
    pub(crate) given: &'m [GivenState],
    pub(crate) year_suffixes: &'m [Option<Suffix>],
    ghost suffixed: { map (option_map suffix_view) year_suffixes.now
        ≡ suffixes_by (map state_view states.now) (given_states_view given.now) },
}
