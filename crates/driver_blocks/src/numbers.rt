//! Numbers that are collapsed.

ghost use Rattle.std.specs.Prelude.{◌≡◌, ◌++◌, ◌∷◌, List, ℕ, IfOk, OnOk, false, map, true};
ghost use Rattle.rendering_style.specs.Styles.{Citation};
ghost use Rattle.driver_blocks.specs.Collapsing.{after_run, is_next, is_next_number, number_in_run, runs_collapsed, shown_number};
ghost use Rattle.driver_blocks.specs.Runs.{collapsed_run, is_long};
ghost use Rattle.driver_blocks.specs.Runs as runs;
ghost use Rattle.driver_blocks.specs.Views.{arranged_view, undelimited};

use crate::cite::{Arranged, Before};
use crate::runs::push_run;
use std::alloc::{AllocError, Global};

/// Cites whose numbers are collapsed: where three or more one after the other rise by one, those inside are hidden. A cite with a locator
/// stands in no such run where locators end runs.
pub(crate) fn collapse_numbers<'a>(
    alloc: Global,
    locators_end_runs: bool,
    cites: &[Arranged<'a>],
) -> Result<Vec<Arranged<'a>>, AllocError>
    ensures { IfOk result (λ v. (c : Citation) → map (arranged_view c) v.items
        ≡ runs_collapsed c (is_next_number locators_end_runs) (map (arranged_view c) cites.now)) }
{
    if locators_end_runs {
        collapse_without_locators(alloc, cites)
    } else {
        collapse_with_locators(alloc, cites)
    }
}

/// The same, where locators end runs.
fn collapse_without_locators<'a>(
    alloc: Global,
    cites: &[Arranged<'a>],
) -> Result<Vec<Arranged<'a>>, AllocError>
    ensures { IfOk result (λ v. (c : Citation) → map (arranged_view c) v.items
        ≡ runs_collapsed c (is_next_number true) (map (arranged_view c) cites.now)) }
{
    let mut all = Vec::with_capacity(alloc, cites.len())?;
    let mut is_after = false;
    for run in cites.chunk_by(|last, cite| is_next_number(true, last, cite)) {
        push_numbers(is_after, run, &mut all)?;
        is_after = is_long(run);
    }
    Ok(all)
}

/// The same, where they end none.
fn collapse_with_locators<'a>(
    alloc: Global,
    cites: &[Arranged<'a>],
) -> Result<Vec<Arranged<'a>>, AllocError>
    ensures { IfOk result (λ v. (c : Citation) → map (arranged_view c) v.items
        ≡ runs_collapsed c (is_next_number false) (map (arranged_view c) cites.now)) }
{
    let mut all = Vec::with_capacity(alloc, cites.len())?;
    let mut is_after = false;
    for run in cites.chunk_by(|last, cite| is_next_number(false, last, cite)) {
        push_numbers(is_after, run, &mut all)?;
        is_after = is_long(run);
    }
    Ok(all)
}

/// Whether a run is long enough to be collapsed.
fn is_long(run: &[Arranged]) -> bool
    ensures { result ≡ is_long run.now }
{
    run.len() >= 3
}

/// Appends a run of numbers, after one that was collapsed or not.
fn push_numbers<'a>(
    is_after: bool,
    run: &[Arranged<'a>],
    all: &mut Vec<Arranged<'a>>,
) -> Result<(), AllocError>
    ensures { OnOk result ((c : Citation)
        → map (arranged_view c) all.new.items ≡ map (arranged_view c) all.old.items
        ++ collapsed_run (after_run c (is_after, map (arranged_view c) run.now))) }
{
    match run.split_first() {
        Some((first, others)) => push_run(first_of_run(is_after, *first), others, all),
        None => Ok(()),
    }
}

/// The first cite of a run, after a run that was collapsed or not.
fn first_of_run<'a>(is_after: bool, cite: Arranged<'a>) -> Arranged<'a>
    ensures { (c : Citation) → (others : List (runs.Arranged ℕ)) → arranged_view c result ∷ others
        ≡ after_run c (is_after, arranged_view c cite.entry ∷ others) }
{
    if is_after && shown_number(&cite).is_some() {
        Arranged {
            before: Before::AfterCollapse,
            ..cite
        }
    } else {
        cite
    }
}

/// Whether the number of a cite in a run is one more than that of the cite before it.
fn is_next_number(locators_end_runs: bool, last: &Arranged, cite: &Arranged) -> bool
    ensures { result
        ≡ is_next_number locators_end_runs (undelimited last.now) (undelimited cite.now) }
{
    is_next(
        number_in_run(locators_end_runs, last),
        number_in_run(locators_end_runs, cite),
    )
}

/// The number by which a cite stands in a run: it is shown, and, where locators end runs, has no locator.
fn number_in_run(locators_end_runs: bool, cite: &Arranged) -> Option<usize>
    ensures { result ≡ number_in_run locators_end_runs (undelimited cite.now) }
{
    if cite.is_shown && !(locators_end_runs && cite.cite.has_locator) {
        cite.cite.number
    } else {
        None
    }
}

fn shown_number(cite: &Arranged) -> Option<usize>
    ensures { result ≡ shown_number (undelimited cite.now) }
{
    if cite.is_shown {
        cite.cite.number
    } else {
        None
    }
}

/// Whether two numbers rise by one.
fn is_next(last: Option<usize>, number: Option<usize>) -> bool
    ensures { result ≡ is_next last number }
{
    match (last, number) {
        (Some(last), Some(number)) => last < number && number - last == 1,
        _ => false,
    }
}
