//! Year suffixes of entries, and what gave them.

ghost use Rattle.std.specs.Prelude.{◌≡◌, length, map, replicate, None, IfOk};
ghost use Rattle.std.specs.Option.{option_map, option_or};
ghost use Rattle.driver_disambiguation.specs.SuffixesFound as suffixes_found;
ghost use Rattle.driver_disambiguation.specs.SuffixesFound.{found_with, suffixes_by};
ghost use Rattle.driver_disambiguation.specs.States as states;
ghost use Rattle.driver_names.specs.Views.{given_view, given_states_view};
ghost use Rattle.driver_requests.specs.SuffixViews.{suffix_view};
ghost use Rattle.rendering_context.specs.Views.{state_view};

use driver_names::GivenState;
use driver_requests::Suffix;
use rendering_context::DisambiguateState;
use std::alloc::{AllocError, Global};

/// The year suffixes of entries with these states, and what gave them, among all that rounds have given.
///
/// # Errors
/// Out of memory.
pub fn suffixes(
    alloc: Global,
    states: &[DisambiguateState],
    given: &[GivenState],
) -> Result<Vec<Option<Suffix>>, AllocError>
    ensures { IfOk result (λ s. map (option_map suffix_view) s.items
        ≡ suffixes_by (map state_view states.now) (given_states_view given.now)) }
{
    let mut suffixes = no_suffixes(alloc, states.len())?;
    for one in given {
        find(states, &mut suffixes, one);
    }
    Ok(suffixes)
}

/// No year suffixes, for so many entries.
fn no_suffixes(alloc: Global, entries: usize) -> Result<Vec<Option<Suffix>>, AllocError>
    ensures { IfOk result (λ s. s.items ≡ replicate entries None) }
{
    vec![in alloc; None; entries]
}

/// Takes a year suffix that was given, where it is that of the entry and the first.
fn find(states: &[DisambiguateState], suffixes: &mut Vec<Option<Suffix>>, one: &GivenState)
    requires { length suffixes.now.items ≡ length states.now }
    ensures found { map (option_map suffix_view) suffixes.new.items
        ≡ found_with (map state_view states.now)
        (map (option_map suffix_view) suffixes.old.items) (given_view one.now) }
    ensures len { length suffixes.new.items ≡ length suffixes.old.items }
{
    let entry = one.entry;
    if entry < states.len() {
        suffixes[entry] = first_of(suffixes[entry], suffix_if(&states[entry], one));
    }
}

/// The first year suffix, else another one.
fn first_of(first: Option<Suffix>, other: Option<Suffix>) -> Option<Suffix>
    ensures { option_map suffix_view result
        ≡ option_or (option_map suffix_view first) (option_map suffix_view other) }
{
    first.or(other)
}

/// The year suffix that a state is, if it was given.
fn suffix_if(state: &DisambiguateState, one: &GivenState) -> Option<Suffix>
    ensures { option_map suffix_view result
        ≡ suffixes_found.suffix_if (state_view state.now) (given_view one.now) }
{
    match suffix_index(state) {
        Some(index) => suffix_if_given(index, one),
        None => None,
    }
}

/// The year suffix at an index, if it was given.
fn suffix_if_given(index: u8, one: &GivenState) -> Option<Suffix>
    ensures { option_map suffix_view result
        ≡ suffixes_found.suffix_if_given (given_view one.now) index }
{
    match suffix_index(&one.state) {
        Some(other) if other == index => Some(Suffix {
            index,
            origin: one.origin,
        }),
        _ => None,
    }
}

/// The index of the year suffix that a state is.
fn suffix_index(state: &DisambiguateState) -> Option<u8>
    ensures { result ≡ states.suffix_index (state_view state.now) }
{
    match state {
        DisambiguateState::YearSuffix(index) => Some(*index),
        _ => None,
    }
}
