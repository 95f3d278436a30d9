//! Rounds in which cites that print alike are disambiguated.

ghost use Rattle.std.specs.Prelude.{◌≡◌, ◌+◌, ◌*◌, ◌++◌, ◌<◌, ◌≤◌, All, drop, length, map, false, slice_index_or, slice_set, take, IfOk, OnOk};
ghost use Rattle.laws.specs.Results.{Gives, Leaves};
ghost use Rattle.rendering_context.specs.Views.{state_view};
ghost use Rattle.driver_names.specs.Prints as prints;
ghost use Rattle.driver_disambiguation.specs.CitesViews.{printed_cites_view};
ghost use Rattle.driver_disambiguation.specs.States as states;
ghost use Rattle.driver_disambiguation.specs.States.{suffixes_overflow};
ghost use Rattle.driver_disambiguation.specs.Rounds as rounds;
ghost use Rattle.driver_names.specs.Views.{given_states_view, printed_view};
ghost use Rattle.driver_requests.specs.Errors.{overflow_of};
ghost use Rattle.driver_requests.specs.Views.{request_view};
ghost use Rattle.driver_rounds.specs.CitesInStep.{AreInStep, IsInStep, all_candidates, all_cites, cites_count, request_cites, requests_by, styled_view};
ghost use Rattle.driver_rounds.specs.Rounding.{again_by, again_if, are_again, AreWithin, round_states_view, unless_overflow};
ghost use Rattle.driver_rounds.specs.FirstPrints as first;
ghost use Rattle.driver_rounds.specs.FirstPrints.{printed_undisambiguated};
ghost use Rattle.driver_rounds.specs.Views.{printed_by_states};

use crate::cite::{StyledCite, printed_by};
use crate::document_cites::{DocumentCites, RequestCites};
use driver_disambiguation::{GivenState, Printed, PrintedCites, append_given, update_states};
use driver_requests::{CitationRequest, DriverError};
use rendering::Effort;
use rendering_context::DisambiguateState;
use rendering_entries::EntryLike;
use std::alloc::{AllocError, Global};

/// How many rounds there are.
const ROUNDS: u8 = 3;

/// The states of cited entries, all that rounds have given, and what cites print by their states.
#[derive(Drop)]
pub struct RoundStates {
    pub states: Vec<DisambiguateState>,
    pub given: Vec<GivenState>,
    pub printed: PrintedCites,
}

/// Disambiguates cites, from what they print undisambiguated.
///
/// # Errors
/// `Overflow` where more than 256 entries that print alike need year suffixes; `Memory` where a request for memory was refused.
pub fn disambiguated<T: EntryLike, P>(
    alloc: Global,
    cites: DocumentCites<'_, '_, T, P>,
    printed: Vec<Printed>,
    entries: usize,
    effort: &mut Effort,
) -> Result<RoundStates, DriverError>
    requires in_step { AreInStep cites }
    requires within { AreWithin entries cites.runs.now }
    requires printed { map printed_view printed.items
        ≡ map printed_undisambiguated (all_cites T.answers cites) }
    ensures entry_states { Gives overflow_of round_states_view result
        (unless_overflow (all_cites T.answers cites.entry)
        (rounds.disambiguated (first.adds_names (requests_by (λ e. 0) T.answers cites.entry))
        entries (all_candidates T.answers cites.entry))) }
    ensures effort { OnOk result (effort.new ≤ effort.old + 3 * cites_count T.answers cites.entry) }
{
    let adds_names = adds_names(cites.requests);
    let printed = PrintedCites::new(alloc, printed)?;
    let mut entry_states = RoundStates {
        states: undisambiguated_states(alloc, entries)?,
        given: Vec::new(alloc),
        printed,
    };
    for round in 0..ROUNDS {
        give_round(alloc, adds_names, round, cites, &mut entry_states, effort)?;
    }
    Ok(entry_states)
}

/// Whether the style of the first request adds names; without requests none does.
fn adds_names<T: EntryLike, P>(requests: &[CitationRequest<'_, T, P>]) -> bool
    ensures { result ≡ first.adds_names (map (request_view (λ e. 0) T.answers) requests.now) }
{
    match requests.first() {
        Some(request) => request.style().parts().citation.add_names,
        None => false,
    }
}

/// The states of so many entries that are not disambiguated.
pub(crate) fn undisambiguated_states(
    alloc: Global,
    entries: usize,
) -> Result<Vec<DisambiguateState>, AllocError>
    ensures { IfOk result (λ v. map state_view v.items ≡ states.undisambiguated_states entries) }
{
    let mut states = Vec::with_capacity(alloc, entries)?;
    for _entry in 0..entries {
        states.push(DisambiguateState::None)?;
    }
    Ok(states)
}

/// A round: what it gives, the states after it, and the cites of entries that it gave something to, printed again.
fn give_round<T: EntryLike, P>(
    alloc: Global,
    adds_names: bool,
    round: u8,
    cites: DocumentCites<'_, '_, T, P>,
    entry_states: &mut RoundStates,
    effort: &mut Effort,
) -> Result<(), DriverError>
    requires in_step { AreInStep cites }
    requires within { AreWithin (length entry_states.old.states.items) cites.runs.now }
    requires given { suffixes_overflow (given_states_view entry_states.old.given.items) ≡ false }
    requires printed { printed_cites_view entry_states.old.printed
        ≡ map (printed_by_states (map state_view entry_states.old.states.items))
        (all_cites T.answers cites) }
    ensures entry_states { Leaves overflow_of result (round_states_view entry_states.new)
        (unless_overflow (all_cites T.answers cites.entry)
        (rounds.after_round adds_names (all_candidates T.answers cites.entry)
        (round_states_view entry_states.old).0 round)) }
    ensures effort { OnOk result (effort.new ≤ effort.old + cites_count T.answers cites.entry) }
{
    let given = entry_states.printed.round_given(alloc, adds_names, round)?;
    let is_given = update_states(alloc, &mut entry_states.states, &given)?;
    print_again(
        alloc,
        cites,
        &entry_states.states,
        &is_given,
        &mut entry_states.printed,
        effort,
    )?;
    append_given(given, &mut entry_states.given)?;
    Ok(())
}

/// Prints cites again whose entries were given something.
fn print_again<T: EntryLike, P>(
    alloc: Global,
    cites: DocumentCites<'_, '_, T, P>,
    states: &[DisambiguateState],
    is_given: &[bool],
    printed: &mut PrintedCites,
    effort: &mut Effort,
) -> Result<(), AllocError>
    requires in_step { AreInStep cites }
    requires within { AreWithin (length states.now) cites.runs.now }
    requires given { length is_given.now ≡ length states.now }
    requires printed { length (printed_cites_view printed.old)
        ≡ length (all_cites T.answers cites) }
    ensures printed { OnOk result (printed_cites_view printed.new
        ≡ are_again (map state_view states.now) is_given.now (all_cites T.answers cites.entry)
        (printed_cites_view printed.old)) }
    ensures effort { OnOk result (effort.new ≤ effort.old + cites_count T.answers cites.entry) }
{
    let mut start = 0;
    for index in 0..cites.requests.len() {
        let own = cites.request(index);
        print_request_again(alloc, own, start, states, is_given, printed, effort)?;
        start += own.run.len();
    }
    Ok(())
}

/// Prints the cites of a request again whose entries were given something. `start` is the index of its first cite among all cites.
fn print_request_again<T: EntryLike, P>(
    alloc: Global,
    cites: RequestCites<'_, '_, T, P>,
    start: usize,
    states: &[DisambiguateState],
    is_given: &[bool],
    printed: &mut PrintedCites,
    effort: &mut Effort,
) -> Result<(), AllocError>
    requires in_step { IsInStep cites }
    requires within { All (λ n. n.entry < length states.now) cites.run.now }
    requires given { length is_given.now ≡ length states.now }
    requires printed { start + length cites.run.now ≤ length (printed_cites_view printed.old) }
    ensures printed { OnOk result (printed_cites_view printed.new
        ≡ take start (printed_cites_view printed.old)
        ++ are_again (map state_view states.now) is_given.now
        (request_cites T.answers cites.entry) (drop start (printed_cites_view printed.old))) }
    ensures effort { OnOk result (effort.new
        ≤ effort.old + length (request_cites T.answers cites.entry)) }
{
    for (index, item) in cites.request.items.iter().enumerate() {
        let cite = StyledCite {
            item,
            context: cites.context,
            numbered: cites.run[index],
        };
        let at = start + index;
        print_cite_again(alloc, cite, at, states, is_given, printed, effort)?;
    }
    Ok(())
}

/// Prints the cite at an index again if its entry was given something.
fn print_cite_again<T: EntryLike, P>(
    alloc: Global,
    cite: StyledCite<'_, '_, T, P>,
    at: usize,
    states: &[DisambiguateState],
    is_given: &[bool],
    printed: &mut PrintedCites,
    effort: &mut Effort,
) -> Result<(), AllocError>
    requires within { cite.numbered.entry < length states.now }
    requires given { length is_given.now ≡ length states.now }
    requires at { at < length (printed_cites_view printed.old) }
    ensures printed { OnOk result ((d : prints.Printed) → printed_cites_view printed.new
        ≡ slice_set (printed_cites_view printed.old) at
        (again_if (map state_view states.now) is_given.now (styled_view T.answers cite.entry)
        (slice_index_or (printed_cites_view printed.old) at d))) }
    ensures effort { effort.new ≤ effort.old + 1 }
{
    let entry = cite.numbered.entry;
    if is_given[entry] {
        print_by(alloc, cite, at, &states[entry], printed, effort)
    } else {
        Ok(())
    }
}

/// Prints the cite at an index by another state.
fn print_by<T: EntryLike, P>(
    alloc: Global,
    cite: StyledCite<'_, '_, T, P>,
    at: usize,
    state: &DisambiguateState,
    printed: &mut PrintedCites,
    effort: &mut Effort,
) -> Result<(), AllocError>
    requires { at < length (printed_cites_view printed.old) }
    ensures printed { OnOk result ((d : prints.Printed) → printed_cites_view printed.new
        ≡ slice_set (printed_cites_view printed.old) at
        (again_by (state_view state.now) (styled_view T.answers cite.entry)
        (slice_index_or (printed_cites_view printed.old) at d))) }
    ensures effort { effort.new ≤ effort.old + 1 }
{
    let rendering = printed_by(cite, state.clone()?, effort)?;
    printed.print_by(alloc, at, state.clone()?, rendering.tree)
}
