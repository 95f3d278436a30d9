//! Rounds in which states are given, class by class.

ghost use Rattle.std.specs.Prelude.{◌≡◌, ◌∷◌, ◌++◌, [], List, map, IfOk, OnOk};
ghost use Rattle.laws.specs.Results.{Gives, Leaves};
ghost use Rattle.driver_requests.specs.Errors.{overflow_of};
ghost use Rattle.driver_disambiguation.specs.Gathered.{AllInRange, AreEntriesOf, given_to_classes};
ghost use Rattle.driver_names.specs.Prints as prints;
ghost use Rattle.driver_names.specs.Names as names;
ghost use Rattle.driver_disambiguation.specs.Rounds as rounds;
ghost use Rattle.driver_disambiguation.specs.Rounds.{is_given_to_class, names_given_to, unless_given};
ghost use Rattle.driver_names.specs.FirstNames.{first_origin};
ghost use Rattle.driver_names.specs.Prints.{prints_date};
ghost use Rattle.std.specs.List.{list_any};
ghost use Rattle.driver_requests.specs.SuffixViews.{origin_view};
ghost use Rattle.driver_names.specs.Views.{class_view, given_states_view, printed_view};
ghost use Rattle.driver_disambiguation.specs.Views.{unless_beyond};

use crate::branches::states_by_branches;
use crate::entry_sets::insert_entry;
use crate::year_suffixes::states_by_suffixes;
use driver_names::{GivenState, Printed, states_by_names};
use driver_requests::{DriverError, Origin};
use std::alloc::{AllocError, Global};
use std::collections::BTreeSet;

/// Whether some cite prints a date, or a label that has one.
pub(crate) fn some_prints_date(cites: &[Printed]) -> bool
    ensures { result ≡ list_any prints_date (map printed_view cites.now) }
{
    cites.iter().any(|cite| cite.prints_date())
}

/// What is given to classes, one after the other: names to each, and while none of its entries has a state of the round branches,
/// then year suffixes.
pub(crate) fn given_to_classes(
    alloc: Global,
    adds_names: bool,
    has_dates: bool,
    round: u8,
    classes: &[Vec<&Printed>],
) -> Result<Vec<GivenState>, DriverError>
    ensures { Gives overflow_of (λ g. given_states_view g.items) result (unless_beyond
        (given_to_classes adds_names has_dates round (map (λ c. class_view c.items) classes.now))) }
{
    let mut given = Vec::new(alloc);
    let mut entries = BTreeSet::new(alloc);
    for (class, members) in classes.iter().enumerate() {
        let origin = Origin { round, class };
        let cites = members.as_slice();
        let named = states_by_names(alloc, adds_names, origin, cites)?;
        append(&mut given, &mut entries, named)?;
        give_branches(alloc, origin, cites, &mut given, &mut entries)?;
        give_suffixes(alloc, has_dates, origin, cites, &mut given, &mut entries)?;
    }
    Ok(given)
}

/// Gives other branches to a class, while none of its entries has a state of the round.
fn give_branches(
    alloc: Global,
    origin: Origin,
    class: &[&Printed],
    given: &mut Vec<GivenState>,
    entries: &mut BTreeSet<usize>,
) -> Result<(), AllocError>
    requires entries { AreEntriesOf entries.now (given_states_view given.now.items) }
    ensures given { OnOk result (given_states_view given.new.items
        ≡ unless_given (class_view class.now)
        (rounds.states_by_branches (origin_view origin) (class_view class.now))
        (given_states_view given.old.items)) }
    ensures entries { OnOk result (AreEntriesOf entries.new (given_states_view given.new.items)) }
{
    if is_given_to_class(entries, class) {
        return Ok(());
    }
    append(given, entries, states_by_branches(alloc, origin, class)?)
}

/// Gives year suffixes to a class, while none of its entries has a state of the round.
fn give_suffixes(
    alloc: Global,
    has_dates: bool,
    origin: Origin,
    class: &[&Printed],
    given: &mut Vec<GivenState>,
    entries: &mut BTreeSet<usize>,
) -> Result<(), DriverError>
    requires indices { AllInRange (given_states_view given.now.items) }
    requires entries { AreEntriesOf entries.now (given_states_view given.now.items) }
    ensures given { Leaves overflow_of result (given_states_view given.new.items)
        (unless_beyond (unless_given (class_view class.now)
        (rounds.states_by_suffixes has_dates (origin_view origin) (class_view class.now))
        (given_states_view given.old.items))) }
    ensures entries { OnOk result (AreEntriesOf entries.new (given_states_view given.new.items)) }
{
    if is_given_to_class(entries, class) {
        return Ok(());
    }
    append(
        given,
        entries,
        states_by_suffixes(alloc, has_dates, origin, class)?,
    )?;
    Ok(())
}

/// What names alone give to classes, one after the other.
pub(crate) fn names_given(
    alloc: Global,
    adds_names: bool,
    classes: &[Vec<&Printed>],
) -> Result<Vec<GivenState>, AllocError>
    ensures { IfOk result (λ g. given_states_view g.items
        ≡ names_given_to adds_names (map (λ c. class_view c.items) classes.now)) }
{
    let mut given = Vec::new(alloc);
    for class in classes {
        give_names(alloc, adds_names, class.as_slice(), &mut given)?;
    }
    Ok(given)
}

/// Appends what names alone give to a class.
fn give_names(
    alloc: Global,
    adds_names: bool,
    class: &[&Printed],
    given: &mut Vec<GivenState>,
) -> Result<(), AllocError>
    ensures { OnOk result (given_states_view given.new.items ≡ given_states_view given.old.items
        ++ names.states_by_names adds_names first_origin (class_view class.now)) }
{
    let origin = Origin { round: 0, class: 0 };
    let more = states_by_names(alloc, adds_names, origin, class)?;
    append_given(more, given)?;
    Ok(())
}

/// Appends states that are given.
///
/// # Errors
/// Out of memory.
pub fn append_given(more: Vec<GivenState>, given: &mut Vec<GivenState>) -> Result<(), AllocError>
    ensures { OnOk result (given_states_view given.new.items
        ≡ given_states_view given.old.items ++ given_states_view more.items) }
{
    for one in more {
        push_given(given, one)?;
    }
    Ok(())
}

/// Appends a state that is given.
fn push_given(given: &mut Vec<GivenState>, one: GivenState) -> Result<(), AllocError>
    ensures { OnOk result (given_states_view given.new.items
        ≡ given_states_view given.old.items ++ given_states_view (one ∷ [])) }
{
    given.push(one)?;
    Ok(())
}

/// Appends states, and the entries that they are given to.
fn append(
    given: &mut Vec<GivenState>,
    entries: &mut BTreeSet<usize>,
    more: Vec<GivenState>,
) -> Result<(), AllocError>
    requires { AreEntriesOf entries.now (given_states_view given.now.items) }
    ensures given { OnOk result (given_states_view given.new.items
        ≡ given_states_view given.old.items ++ given_states_view more.items) }
    ensures entries { OnOk result (AreEntriesOf entries.new (given_states_view given.new.items)) }
{
    for one in more {
        push(given, entries, one)?;
    }
    Ok(())
}

/// Appends a state, and the entry that it is given to.
fn push(
    given: &mut Vec<GivenState>,
    entries: &mut BTreeSet<usize>,
    one: GivenState,
) -> Result<(), AllocError>
    requires { AreEntriesOf entries.now (given_states_view given.now.items) }
    ensures given { OnOk result (given_states_view given.new.items
        ≡ given_states_view given.old.items ++ given_states_view (one ∷ [])) }
    ensures entries { OnOk result (AreEntriesOf entries.new (given_states_view given.new.items)) }
{
    insert_entry(entries, one.entry)?;
    given.push(one)?;
    Ok(())
}

/// Whether something was given to an entry of a class.
fn is_given_to_class(entries: &BTreeSet<usize>, class: &[&Printed]) -> bool
    ensures { (gs : List prints.GivenState) → AreEntriesOf entries.now gs
        → result ≡ is_given_to_class gs (class_view class.now) }
{
    class.iter().any(|cite| entries.contains(&cite.cite.entry))
}
