//! States of entries after a round.

ghost use Rattle.std.specs.Prelude.{◌≡◌, length, map, IfOk, OnOk};
ghost use Rattle.std.specs.List.{list_any, range_with_len};
ghost use Rattle.driver_disambiguation.specs.Joining as joining;
ghost use Rattle.driver_disambiguation.specs.Joining.{before_giving, joined_at};
ghost use Rattle.driver_disambiguation.specs.States.{is_given_to, states_after};
ghost use Rattle.driver_names.specs.Views.{given_states_view};
ghost use Rattle.rendering_context.specs.Views.{state_view};

use driver_names::GivenState;
use rendering_context::DisambiguateState;
use std::alloc::{AllocError, Global};
use std::mem;

/// Gives entries the states of a round: what it gave to an entry, joined, instead of the state that the entry had. Returns of each entry
/// whether the round gave it a state.
///
/// # Errors
/// Out of memory.
pub fn update_states(
    alloc: Global,
    states: &mut [DisambiguateState],
    given: &[GivenState],
) -> Result<Vec<bool>, AllocError>
    ensures states { OnOk result (map state_view states.new
        ≡ states_after (given_states_view given.now) (map state_view states.old)) }
    ensures given { IfOk result (λ v. v.items
        ≡ map (λ e. list_any (is_given_to e) (given_states_view given.now))
        (range_with_len 0 (length states.old))) }
{
    let mut is_given = nothing_given(alloc, states)?;
    for one in given {
        let state = one.state.clone()?;
        join(states, &mut is_given, one.entry, state);
    }
    Ok(is_given)
}

/// That nothing was given, for each of the entries with these states.
fn nothing_given(alloc: Global, states: &[DisambiguateState]) -> Result<Vec<bool>, AllocError>
    ensures { IfOk result (λ g. g.items ≡ (before_giving (map state_view states.now)).is_given) }
{
    vec![in alloc; false; states.len()]
}

/// Joins a state with what the round gave to the entry before.
fn join(
    states: &mut [DisambiguateState],
    is_given: &mut Vec<bool>,
    entry: usize,
    state: DisambiguateState,
)
    requires { length is_given.now.items ≡ length states.now }
    ensures states { map state_view states.new
        ≡ (joined_at (record { states = map state_view states.old; is_given = is_given.old.items })
        entry (state_view state)).states }
    ensures is_given { is_given.new.items
        ≡ (joined_at (record { states = map state_view states.old; is_given = is_given.old.items })
        entry (state_view state)).is_given }
{
    if entry >= states.len() {
        return;
    }
    let earlier = mem::replace(&mut states[entry], DisambiguateState::None);
    states[entry] = joined_with(is_given[entry], earlier, state);
    is_given[entry] = true;
}

/// A state instead of the one from before the round, or joined with one that the round gave.
fn joined_with(is_given: bool, old: DisambiguateState, new: DisambiguateState) -> DisambiguateState
    ensures { state_view result ≡ joining.joined_with is_given (state_view old) (state_view new) }
{
    if is_given { old.max(new) } else { new }
}
