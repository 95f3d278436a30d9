//! Other branches of a style for the cites of a class.

ghost use Rattle.std.specs.Prelude.{◌≡◌, ◌++◌, filter, map, IfOk, OnOk};
ghost use Rattle.std.specs.List.{flat_map, list_any};
ghost use Rattle.rendering_context.specs.Cites.{may_change};
ghost use Rattle.driver_disambiguation.specs.Rounds as rounds;
ghost use Rattle.driver_disambiguation.specs.Rounds.{chosen, states_by_choose, choose_beside};
ghost use Rattle.driver_disambiguation.specs.Gathered.{branches_for};
ghost use Rattle.driver_requests.specs.SuffixViews.{origin_view};
ghost use Rattle.driver_names.specs.Views.{class_view, given_states_view, given_view, printed_view};

use driver_names::{GivenState, Printed, push_where};
use driver_requests::Origin;
use rendering_context::DisambiguateState;
use std::alloc::{AllocError, Global};

/// What branches give to the cites of a class, where they may still change one for which the test `disambiguate` was evaluated.
///
/// # Errors
/// Out of memory.
pub(crate) fn states_by_branches(
    alloc: Global,
    origin: Origin,
    class: &[&Printed],
) -> Result<Vec<GivenState>, AllocError>
    ensures { IfOk result (λ g. given_states_view g.items
        ≡ rounds.states_by_branches (origin_view origin) (class_view class.now)) }
{
    let asked = asked(alloc, class)?;
    branches_for(alloc, origin, asked.as_slice())
}

/// Other branches for cites for which the test was evaluated, where some of these may still be changed.
fn branches_for(
    alloc: Global,
    origin: Origin,
    asked: &[&Printed],
) -> Result<Vec<GivenState>, AllocError>
    ensures { IfOk result (λ g. given_states_view g.items
        ≡ branches_for (origin_view origin) (class_view asked.now)) }
{
    if some_may_change(asked) {
        states_by_choose(alloc, origin, asked)
    } else {
        Ok(Vec::new(alloc))
    }
}

/// Whether some cite may still be changed by names and branches.
fn some_may_change(cites: &[&Printed]) -> bool
    ensures { result ≡ list_any (λ s. may_change s.state) (class_view cites.now) }
{
    cites.iter().any(|cite| cite.may_change())
}

/// The cites for which the test `disambiguate` was evaluated.
fn asked<'a>(alloc: Global, class: &[&'a Printed]) -> Result<Vec<&'a Printed>, AllocError>
    ensures { IfOk result (λ v. class_view v.items
        ≡ filter (λ s. s.met_disambiguate) (class_view class.now)) }
{
    let mut asked = Vec::new(alloc);
    for cite in class {
        push_where(&mut asked, *cite, cite.cite.met_disambiguate)?;
    }
    Ok(asked)
}

/// Other branches for cites, but for those of the first one's entry where its style leaves these out.
fn states_by_choose(
    alloc: Global,
    origin: Origin,
    asked: &[&Printed],
) -> Result<Vec<GivenState>, AllocError>
    ensures { IfOk result (λ g. given_states_view g.items
        ≡ states_by_choose (origin_view origin) (class_view asked.now)) }
{
    match asked.split_first() {
        Some((first, others)) => {
            if first.cite.first_chooses_too {
                choose_all(alloc, origin, asked)
            } else {
                choose_beside(alloc, origin, first.cite.entry, others)
            }
        }
        None => Ok(Vec::new(alloc)),
    }
}

/// Other branches for all of some cites.
fn choose_all(
    alloc: Global,
    origin: Origin,
    cites: &[&Printed],
) -> Result<Vec<GivenState>, AllocError>
    ensures { IfOk result (λ g. given_states_view g.items
        ≡ map (chosen (origin_view origin)) (class_view cites.now)) }
{
    let mut given = Vec::with_capacity(alloc, cites.len())?;
    for cite in cites {
        given.push(chosen(origin, cite))?;
    }
    Ok(given)
}

/// Other branches for a cite.
fn chosen(origin: Origin, cite: &Printed) -> GivenState
    ensures { given_view result ≡ chosen (origin_view origin) (printed_view cite.now) }
{
    GivenState {
        entry: cite.cite.entry,
        state: DisambiguateState::Choose,
        origin,
    }
}

/// Other branches for the cites of other entries.
fn choose_beside(
    alloc: Global,
    origin: Origin,
    first: usize,
    others: &[&Printed],
) -> Result<Vec<GivenState>, AllocError>
    ensures { IfOk result (λ g. given_states_view g.items
        ≡ flat_map (choose_beside (origin_view origin) first) (class_view others.now)) }
{
    let mut given = Vec::new(alloc);
    for other in others {
        push_chosen(&mut given, origin, first, other)?;
    }
    Ok(given)
}

/// Appends other branches for a cite of another entry.
fn push_chosen(
    given: &mut Vec<GivenState>,
    origin: Origin,
    first: usize,
    other: &Printed,
) -> Result<(), AllocError>
    ensures { OnOk result (given_states_view given.new.items ≡ given_states_view given.old.items
        ++ choose_beside (origin_view origin) first (printed_view other.now)) }
{
    if other.cite.entry != first {
        given.push(chosen(origin, other))?;
    }
    Ok(())
}
