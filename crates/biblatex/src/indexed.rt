//! Entries, and their names, changed together.

ghost use Rattle.std.specs.Prelude.{◌≡◌, ◌<◌, ◌∷◌, [], Some, map, length, slice_get, slice_set, string_bytes, IfOk, OnOk, OnErr};
ghost use Rattle.biblatex_entries.specs.Entries.{source_view, sources_view};
ghost use Rattle.biblatex_meaning.specs.Listed as meaning;
ghost use Rattle.biblatex.specs.Indices.{AreInOrder};
ghost use Rattle.biblatex.specs.Bibliographies as specs;

use crate::indices::{NamedIndex, bind_all, take_out};
use biblatex_entries::Entry;
use std::alloc::{AllocError, Global};
use std::mem;

/// The key of an entry, as its only name.
pub(crate) fn key_alone(alloc: Global, entry: &Entry) -> Result<Vec<String>, AllocError>
    ensures { IfOk result (λ v. map string_bytes v.items ≡ string_bytes entry.now.key ∷ []) }
{
    let mut names = Vec::new(alloc);
    names.push(entry.key.clone()?)?;
    Ok(names)
}

/// Appends an entry, which these names mean from now on. Unchanged where there is no memory for it.
pub(crate) fn put_last(
    entries: &mut Vec<Entry>,
    names: &mut Vec<NamedIndex>,
    more: Vec<String>,
    entry: Entry,
) -> Result<(), AllocError>
    requires { AreInOrder names.old.items }
    ensures ok { OnOk result (specs.listed_view (specs.indexed entries.new.items names.new.items)
        ≡ meaning.put_last (map string_bytes more.items) (source_view entry)
        (specs.listed_view (specs.indexed entries.old.items names.old.items))) }
    ensures within { specs.IsWithin (specs.indexed entries.old.items names.old.items)
        → specs.IsWithin (specs.indexed entries.new.items names.new.items) }
    ensures order { AreInOrder names.new.items }
    ensures err { OnErr result (specs.indexed entries.new.items names.new.items
        ≡ specs.indexed entries.old.items names.old.items) }
{
    let index = entries.len();
    entries.reserve(1)?;
    bind_all(names, more, index)?;
    entries.push(entry).unwrap();
    Ok(())
}

/// Replaces the entry at an index, and returns it.
pub(crate) fn replace(entries: &mut Vec<Entry>, index: usize, entry: Entry) -> Entry
    requires { index < length (sources_view entries.old.items) }
    ensures items { sources_view entries.new.items
        ≡ slice_set (sources_view entries.old.items) index (source_view entry) }
    ensures value { slice_get (sources_view entries.old.items) index ≡ Some (source_view result) }
{
    mem::replace(&mut entries[index], entry)
}

/// Removes the entry at an index, with all its names, and returns it. The indices of the entries after it are one less.
pub(crate) fn take(entries: &mut Vec<Entry>, names: &mut Vec<NamedIndex>, index: usize) -> Entry
    requires index { index < length (sources_view entries.old.items) }
    requires order { AreInOrder names.old.items }
    ensures rest { specs.listed_view (specs.indexed entries.new.items names.new.items)
        ≡ specs.removed_at (Some index)
        (specs.listed_view (specs.indexed entries.old.items names.old.items)) }
    ensures within { specs.IsWithin (specs.indexed entries.old.items names.old.items)
        → specs.IsWithin (specs.indexed entries.new.items names.new.items) }
    ensures order { AreInOrder names.new.items }
    ensures value { slice_get (sources_view entries.old.items) index ≡ Some (source_view result) }
{
    take_out(names, index);
    entries.remove(index)
}
