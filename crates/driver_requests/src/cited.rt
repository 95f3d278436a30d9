//! The entries that are cited, and their indices among them.

ghost use Rattle.std.specs.Prelude.{◌≡◌, ◌<◌, ◌≤◌, ◌++◌, All, List, Some, length, map, filter_map, if◌then◌else◌, option_to_list, position, OnOk, IfOk};
ghost use Rattle.std.specs.BTreeMap.{get};
ghost use Rattle.std.specs.List.{position_or_len};
ghost use Rattle.std.specs.Option.{unwrap_or};
ghost use Rattle.std.specs.Ordering.{is_eq};
ghost use Rattle.laws.specs.Borrowed.{borrowed};
ghost use Rattle.driver_requests.specs.CitedEntries.{once, index_among};
ghost use Rattle.driver_requests.specs.EntryKeys.{IsIndex, has_key, order};
ghost use Rattle.driver_requests.specs.Indices.{grown, indices_in, pushed, runs};
ghost use Rattle.driver_requests.specs.Views.{entries_in, entries_of, entry_of_item};
ghost use Rattle.driver_requests.specs.declared.hashed_key.HashedKey.{HashedKey};

use crate::hashed_key::HashedKey;
use crate::item::CitationItem;
use crate::request::CitationRequest;
use rendering_entries::EntryLike;
use std::alloc::{AllocError, Global};
use std::collections::BTreeMap;
use std::hash::Hash;

/// The entries that are cited, each once in the order of first cites, and for each request the indices of its items' entries among them.
pub struct Cited<'a, T: EntryLike + Hash> {
    /// The index of the first entry of each hash and key.
    table: BTreeMap<HashedKey<'a>, usize>,
    entries: Vec<&'a T>,
    runs: Vec<Vec<usize>>,
}

impl<'a, T: EntryLike + Hash> Drop for Cited<'a, T> {
    fn drop(self) {
        let Cited {
            table: _,
            entries: _,
            runs: _,
        } = self;
    }
}

impl<'a, T: EntryLike + Hash> Cited<'a, T> {
    /// The entries that are cited, and their indices. Equal entries are one. The cost is a look-up an item: entries are looked up by their
    /// hashes and keys, and compared one by one where both are equal.
    ///
    /// # Errors
    /// Out of memory.
    pub fn new<P>(
        alloc: Global,
        requests: &[CitationRequest<'a, T, P>],
    ) -> Result<Cited<'a, T>, AllocError>
        ensures entries { IfOk result (λ c. borrowed c.entries.items
            ≡ once T.eq (entries_in requests.now)) }
        ensures runs { IfOk result (λ c. runs c.runs.items ≡ map
            (λ r. map (index_among T.eq (entries_in requests.now)) (entries_of r)) requests.now) }
        ensures within { IfOk result (λ c.
            All (All (λ p. p < length c.entries.items)) (runs c.runs.items)) }
        ensures table { IfOk result (λ c. IsIndex (has_key T.hash_input T.answers) c.table
            (borrowed c.entries.items)) }
    {
        let mut table = BTreeMap::new(alloc);
        let mut entries = Vec::new(alloc);
        let mut runs = Vec::with_capacity(alloc, requests.len())?;
        for request in requests {
            let run = request_indices(alloc, &mut table, &mut entries, request.items.as_slice())?;
            runs.push(run)?;
        }
        Ok(Cited {
            table,
            entries,
            runs,
        })
    }

    /// The entries, each once in the order of first cites.
    pub fn entries(&self) -> &[&'a T]
        ensures { borrowed result.now ≡ borrowed self.now.entries.items }
    {
        self.entries.as_slice()
    }

    /// For each request the indices of its items' entries.
    pub fn runs(&self) -> &[Vec<usize>]
        ensures { runs result.now ≡ runs self.now.runs.items }
    {
        self.runs.as_slice()
    }

    /// The index of an entry, where it is cited.
    pub fn index(&self, entry: &'a T) -> Option<usize>
        requires { IsIndex (has_key T.hash_input T.answers) self.now.table
            (borrowed self.now.entries.items) }
        ensures { result ≡ position (T.eq entry.now) (borrowed self.now.entries.items) }
    {
        let entries = self.entries.as_slice();
        let first = self.table.get(&HashedKey::new(entry)).copied();
        let index = index_from(entries, first.unwrap_or(entries.len()), entry);
        (index < entries.len()).then_some(index)
    }

    /// The indices of entries one after the other. Those that are not cited have none.
    ///
    /// # Errors
    /// Out of memory.
    pub fn indices(&self, alloc: Global, entries: &[&'a T]) -> Result<Vec<usize>, AllocError>
        requires { IsIndex (has_key T.hash_input T.answers) self.now.table
            (borrowed self.now.entries.items) }
        ensures { IfOk result (λ v. v.items ≡ filter_map
            (λ e. position (T.eq e) (borrowed self.now.entries.items)) (borrowed entries.now)) }
    {
        let mut indices = Vec::new(alloc);
        for entry in entries {
            push_known(&mut indices, self.index(entry))?;
        }
        Ok(indices)
    }
}

/// The indices of items' entries. New entries are appended.
fn request_indices<'a, T: EntryLike + Hash, P>(
    alloc: Global,
    table: &mut BTreeMap<HashedKey<'a>, usize>,
    entries: &mut Vec<&'a T>,
    items: &[CitationItem<'a, T, P>],
) -> Result<Vec<usize>, AllocError>
    requires { IsIndex (has_key T.hash_input T.answers) table.old (borrowed entries.old.items) }
    ensures table { OnOk result (IsIndex (has_key T.hash_input T.answers) table.new
        (borrowed entries.new.items)) }
    ensures entries { OnOk result (borrowed entries.new.items
        ≡ grown T.eq (borrowed entries.old.items) (map entry_of_item items.now)) }
    ensures run { IfOk result (λ run. (more : List T) → run.items ≡ indices_in T.eq
        (grown T.eq (borrowed entries.new.items) more) (map entry_of_item items.now)) }
{
    let mut run = Vec::with_capacity(alloc, items.len())?;
    for item in items {
        run.push(index_of(table, entries, item.entry)?)?;
    }
    Ok(run)
}

/// The index of an entry, which is appended where it is new.
fn index_of<'a, T: EntryLike + Hash>(
    table: &mut BTreeMap<HashedKey<'a>, usize>,
    entries: &mut Vec<&'a T>,
    entry: &'a T,
) -> Result<usize, AllocError>
    requires { IsIndex (has_key T.hash_input T.answers) table.old (borrowed entries.old.items) }
    ensures table { OnOk result (IsIndex (has_key T.hash_input T.answers) table.new
        (borrowed entries.new.items)) }
    ensures entries { OnOk result (borrowed entries.new.items
        ≡ pushed T.eq (borrowed entries.old.items) entry.now) }
    ensures index { IfOk result (λ p. p
        ≡ position_or_len (T.eq entry.now) (borrowed entries.new.items)) }
{
    let first = first_under(table, HashedKey::new(entry), entries.len())?;
    let index = index_from(entries, first, entry);
    if index < entries.len() {
        return Ok(index);
    }
    entries.push(entry)?;
    Ok(index)
}

/// The index under a hash and key, which is the given one where there was none.
fn first_under<'a>(
    table: &mut BTreeMap<HashedKey<'a>, usize>,
    key: HashedKey<'a>,
    next: usize,
) -> Result<usize, AllocError>
    ensures value { IfOk result (λ p. p ≡ unwrap_or (get order table.old key.entry) next) }
    ensures table { IfOk result (λ p. (q : HashedKey) → get order table.new q
        ≡ (if is_eq (order key.entry q) then Some p else get order table.old q)) }
{
    Ok(*table.entry(key)?.or_insert(next))
}

/// The index of the equal entry, where it does not stand before `first`; without one, how many entries there are.
fn index_from<T: EntryLike>(entries: &[&T], first: usize, entry: &T) -> usize
    requires { first ≤ position_or_len (T.eq entry.now) (borrowed entries.now) }
    ensures { result ≡ position_or_len (T.eq entry.now) (borrowed entries.now) }
{
    for index in first..entries.len() {
        if *entry == *entries[index] {
            return index;
        }
    }
    entries.len()
}

/// Appends an index, if there is one.
fn push_known(indices: &mut Vec<usize>, index: Option<usize>) -> Result<(), AllocError>
    ensures { OnOk result (indices.new.items ≡ indices.old.items ++ option_to_list index) }
{
    if let Some(index) = index {
        indices.push(index)?;
    }
    Ok(())
}
