//! The names of entries, put in order once for all of them.

ghost use Rattle.std.specs.Prelude.{◌≡◌, ℕ, ◌++◌, List, None, map, slice_get, string_bytes, IfOk, OnOk};
ghost use Rattle.std.specs.Bool.{OnTrue};
ghost use Rattle.std.specs.Cmp.Lexicographic.{slice_cmp};
ghost use Rattle.std.specs.Ordering.{nat_cmp};
ghost use Rattle.biblatex_entries.specs.Entries.{names_of, source_view, sources_view};
ghost use Rattle.biblatex.specs.Indices.{meaning_in, names_in, name_of, AreSorted, AreInOrder};
ghost use Rattle.biblatex.specs.Naming as specs;
ghost use Rattle.biblatex.specs.Naming.{numbered, names_from, equal_names, bound_each, is_below, is_key_of, is_apart, are_apart};

use crate::indices::{NamedIndex, bind, first_index_in, index_in};
use biblatex_entries::Entry;
use biblatex_writing::has_key;
use std::alloc::{AllocError, Global};
use std::cmp::Ordering;
use texts::owned;

/// Appends names of the entry at an index.
fn append_names(
    names: &mut Vec<NamedIndex>,
    more: Vec<String>,
    index: usize,
) -> Result<(), AllocError>
    ensures { OnOk result (names_in names.new.items
        ≡ names_in names.old.items ++ numbered (map string_bytes more.items) index) }
{
    for name in more {
        names.push(NamedIndex::new(name, index))?;
    }
    Ok(())
}

/// Appends the names of an entry at an index.
fn append_names_of(
    alloc: Global,
    names: &mut Vec<NamedIndex>,
    entry: &Entry,
    index: usize,
) -> Result<(), AllocError>
    ensures { OnOk result (names_in names.new.items
        ≡ names_in names.old.items ++ numbered (names_of (source_view entry.now)) index) }
{
    let key = owned(alloc, entry.key.as_str())?;
    names.push(NamedIndex::new(key, index))?;
    let more = entry.aliases(alloc)?;
    append_names(names, more, index)
}

/// The names of entries, in the order of the entries.
fn names_listed(alloc: Global, entries: &[Entry]) -> Result<Vec<NamedIndex>, AllocError>
    ensures { IfOk result (λ v. names_in v.items ≡ names_from 0 (sources_view entries.now)) }
{
    let mut names = Vec::with_capacity(alloc, entries.len())?;
    for index in 0..entries.len() {
        append_names_of(alloc, &mut names, &entries[index], index)?;
    }
    Ok(names)
}

/// The names of entries, sorted by their bytes; equal names stand in the order of their entries.
pub(crate) fn sorted_names(alloc: Global, entries: &[Entry]) -> Result<Vec<NamedIndex>, AllocError>
    ensures sorted { IfOk result (λ v. AreSorted v.items) }
    ensures equal { IfOk result (λ v. (name : List ℕ) → equal_names name (names_in v.items)
        ≡ equal_names name (names_from 0 (sources_view entries.now))) }
{
    let mut names = names_listed(alloc, entries)?;
    names.sort_by(
        |a: &NamedIndex, b: &NamedIndex| -> Ordering
            ensures { result ≡ slice_cmp nat_cmp (name_of a.now) (name_of b.now) }
        { a.name.order(&b.name.as_sought()) },
    )?;
    Ok(names)
}

/// Whether each name is less than the next one.
fn is_in_order(names: &[NamedIndex]) -> bool
    ensures { OnTrue result (AreInOrder names.now) }
{
    for place in 1..names.len() {
        let before = &names[place - 1];
        let named = &names[place];
        if before.name.order(&named.name.as_sought()).is_ge() {
            return false;
        }
    }
    true
}

/// Whether the first of the sorted names that is equal to the key has an index below the number.
fn is_named_before(names: &[NamedIndex], key: &str, number: usize) -> bool
    requires { AreSorted names.now }
    ensures { result ≡ is_below number (meaning_in (names_in names.now) key.now) }
{
    match first_index_in(names, key) {
        Some(index) => index < number,
        None => false,
    }
}

/// The number of the first entry whose key is a name of one before it, by the sorted names of all.
pub(crate) fn first_repeated(entries: &[Entry], names: &[NamedIndex]) -> Option<usize>
    requires sorted { AreSorted names.now }
    requires equal { (name : List ℕ) → equal_names name (names_in names.now)
        ≡ equal_names name (names_from 0 (sources_view entries.now)) }
    ensures { result ≡ specs.first_repeated (names_from 0 (sources_view entries.now)) 0
        (sources_view entries.now) }
{
    if is_in_order(names) {
        return None;
    }
    for number in 0..entries.len() {
        if is_named_before(names, entries[number].key.as_str(), number) {
            return Some(number);
        }
    }
    None
}

/// Whether the entry at the index has that key.
fn has_key_at(entries: &[Entry], index: usize, key: &str) -> bool
    ensures { result ≡ is_key_of key.now (slice_get (sources_view entries.now) index) }
{
    match entries.get(index) {
        Some(entry) => key == entry.key.as_str(),
        None => false,
    }
}

/// Whether the key of the entry of a number is that of no entry after it, and of no other entry that it means. Nothing is
/// compared where it means its own entry: another entry of this key means that one too, and is not apart.
fn is_apart(
    entries: &[Entry],
    number: usize,
    key: &str,
    meant: Option<usize>,
    later: &[Entry],
) -> bool
    ensures { result ≡ is_apart (sources_view entries.now) number key.now
        (sources_view later.now) meant }
{
    match meant {
        Some(index) => {
            index == number || (!has_key_at(entries, index, key) && !has_key(later, key))
        }
        None => !has_key(later, key),
    }
}

/// Whether the key of each entry is apart, so that no two are equal. Each key is looked up; one that means no entry, or an
/// entry of another key, is compared with those of all entries after it.
pub(crate) fn are_apart(entries: &[Entry], names: &[NamedIndex]) -> bool
    requires { AreInOrder names.now }
    ensures { result ≡ are_apart (meaning_in (names_in names.now)) (sources_view entries.now) 0
        (sources_view entries.now) }
{
    for number in 0..entries.len() {
        let key = entries[number].key.as_str();
        let meant = index_in(names, key);
        if !is_apart(entries, number, key, meant, &entries[number + 1..]) {
            return false;
        }
    }
    true
}

/// Of equal names the last one: what each name means once all are bound, one after the other.
pub(crate) fn last_of_each(
    alloc: Global,
    names: Vec<NamedIndex>,
) -> Result<Vec<NamedIndex>, AllocError>
    ensures order { IfOk result (λ v. AreInOrder v.items) }
    ensures meaning { IfOk result (λ v. meaning_in (names_in v.items)
        ≡ bound_each (names_in names.items) (λ name. None)) }
{
    if is_in_order(names.as_slice()) {
        return Ok(names);
    }
    let mut last = Vec::with_capacity(alloc, names.len())?;
    for named in names {
        bind(&mut last, named.name.into_text(), named.index)?;
    }
    Ok(last)
}
