//! Year suffixes for the entries of a class.

ghost use Rattle.std.specs.Prelude.{◌≡◌, ℕ, true, ◌==◌, [], ◌∷◌, ◌++◌, map, if◌then◌else◌, IfOk, OnOk};
ghost use Rattle.std.specs.BTreeSet.{contains};
ghost use Rattle.std.specs.List.{list_any};
ghost use Rattle.std.specs.Ordering.{nat_cmp};
ghost use Rattle.laws.specs.Results.{Gives};
ghost use Rattle.driver_requests.specs.Errors.{overflow_of};
ghost use Rattle.driver_disambiguation.specs.Classes.{entries_of};
ghost use Rattle.driver_disambiguation.specs.Gathered.{keyed, suffixes_where};
ghost use Rattle.driver_disambiguation.specs.Rounds as rounds;
ghost use Rattle.driver_disambiguation.specs.Rounds.{in_suffix_order};
ghost use Rattle.sorting.specs.Sorted.{sorted};
ghost use Rattle.driver_requests.specs.SuffixViews.{origin_view};
ghost use Rattle.driver_names.specs.Views.{class_view, given_states_view};
ghost use Rattle.driver_disambiguation.specs.Views.{unless_beyond};

use crate::entry_sets::insert_entry;
use driver_names::{GivenState, Printed};
use driver_requests::{DriverError, Origin};
use rendering_context::DisambiguateState;
use sorting::{Keyed, sorted_by_keys};
use std::alloc::{AllocError, Global};
use std::collections::BTreeSet;

/// What year suffixes give to the entries of a class, where some cite of the document prints a date and a style of the class adds year
/// suffixes.
pub(crate) fn states_by_suffixes(
    alloc: Global,
    has_dates: bool,
    origin: Origin,
    class: &[&Printed],
) -> Result<Vec<GivenState>, DriverError>
    ensures { Gives overflow_of (λ g. given_states_view g.items) result (unless_beyond
        (rounds.states_by_suffixes has_dates (origin_view origin) (class_view class.now))) }
{
    suffixes_where(alloc, has_dates && some_adds_suffix(class), origin, class)
}

/// Year suffixes for the entries of cites, where they are wanted.
fn suffixes_where(
    alloc: Global,
    is_wanted: bool,
    origin: Origin,
    class: &[&Printed],
) -> Result<Vec<GivenState>, DriverError>
    ensures { Gives overflow_of (λ g. given_states_view g.items) result
        (unless_beyond (suffixes_where is_wanted (origin_view origin) (class_view class.now))) }
{
    if !is_wanted {
        return Ok(Vec::new(alloc));
    }
    let entries = ordered_entries(alloc, class)?;
    suffixes_for(alloc, origin, entries.as_slice())
}

/// The entries of cites, each once, in the order in which year suffixes are given.
fn ordered_entries(alloc: Global, class: &[&Printed]) -> Result<Vec<usize>, AllocError>
    ensures { IfOk result (λ v. v.items ≡ entries_of (in_suffix_order (class_view class.now))) }
{
    if some_goes_by_number(class) {
        entries_by_number(alloc, class)
    } else {
        entries(alloc, class)
    }
}

/// The entries of cites, each once, in the order of their numbers.
fn entries_by_number(alloc: Global, class: &[&Printed]) -> Result<Vec<usize>, AllocError>
    ensures { IfOk result (λ v. v.items
        ≡ entries_of (sorted rounds.by_number (class_view class.now))) }
{
    let ordered = by_number(alloc, class)?;
    entries(alloc, ordered.as_slice())
}

/// Whether the style of some cite gives year suffixes by the numbers of entries.
fn some_goes_by_number(cites: &[&Printed]) -> bool
    ensures { result ≡ list_any (λ s. s.suffixes_by_number) (class_view cites.now) }
{
    cites.iter().any(|cite| cite.cite.suffixes_by_number)
}

/// Cites in the order of the numbers of their entries.
fn by_number<'a>(alloc: Global, cites: &[&'a Printed]) -> Result<Vec<&'a Printed>, AllocError>
    ensures { IfOk result (λ v. class_view v.items
        ≡ sorted rounds.by_number (class_view cites.now)) }
{
    let keyed = keyed(alloc, cites)?;
    sorted_by_keys(alloc, keyed)
}

/// Cites under the numbers of their entries.
fn keyed<'a>(
    alloc: Global,
    cites: &[&'a Printed],
) -> Result<Vec<Keyed<usize, &'a Printed>>, AllocError>
    ensures { IfOk result (λ v. v.items ≡ map keyed cites.now) }
{
    let mut keyed = Vec::with_capacity(alloc, cites.len())?;
    for cite in cites {
        keyed.push(Keyed {
            key: cite.cite.number,
            value: *cite,
        })?;
    }
    Ok(keyed)
}

/// Whether the style of some cite adds year suffixes.
fn some_adds_suffix(cites: &[&Printed]) -> bool
    ensures { result ≡ list_any (λ s. s.adds_suffix) (class_view cites.now) }
{
    cites.iter().any(|cite| cite.cite.adds_suffix)
}

/// Year suffixes for entries, one after the other.
fn suffixes_for(
    alloc: Global,
    origin: Origin,
    entries: &[usize],
) -> Result<Vec<GivenState>, DriverError>
    ensures { Gives overflow_of (λ g. given_states_view g.items) result
        (unless_beyond (rounds.suffixes_for (origin_view origin) entries.now)) }
{
    if entries.len() > 256 {
        return Err(DriverError::Overflow);
    }
    let mut given = Vec::with_capacity(alloc, entries.len())?;
    for (index, entry) in entries.iter().enumerate() {
        given.push(GivenState {
            entry: *entry,
            state: DisambiguateState::YearSuffix(index as u8),
            origin,
        })?;
    }
    Ok(given)
}

/// The entries of cites, each once.
fn entries(alloc: Global, class: &[&Printed]) -> Result<Vec<usize>, AllocError>
    ensures { IfOk result (λ v. v.items ≡ entries_of (class_view class.now)) }
{
    let mut earlier = BTreeSet::new(alloc);
    let mut entries = Vec::new(alloc);
    for cite in class {
        push_new(&mut earlier, &mut entries, cite.cite.entry)?;
    }
    Ok(entries)
}

/// Appends an entry that is not among those that came earlier.
fn push_new(
    earlier: &mut BTreeSet<usize>,
    entries: &mut Vec<usize>,
    entry: usize,
) -> Result<(), AllocError>
    ensures earlier { OnOk result ((e : ℕ) → contains nat_cmp earlier.new e
        ≡ (if entry == e then true else contains nat_cmp earlier.old e)) }
    ensures entries { OnOk result (entries.new.items
        ≡ entries.old.items ++ (if contains nat_cmp earlier.old entry then [] else entry ∷ [])) }
{
    if insert_entry(earlier, entry)? {
        entries.push(entry)?;
    }
    Ok(())
}
