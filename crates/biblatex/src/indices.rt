//! The indices of entries by their names.

ghost use Rattle.std.specs.Prelude.{◌≡◌, ◌<◌, ◌≤◌, ◌+◌, ◌-◌, ◌∷◌, ◌++◌, [], map, length, filter_map, option_to_list, slice_get, string_bytes, vec_len, vec_capacity, nat_lt, if◌then◌else◌, IfOk, IsOk, OnOk, OnErr};
ghost use Rattle.biblatex_meaning.specs.Listed.{bound};
ghost use Rattle.biblatex.specs.Indices.{meaning_in, names_in, named_down, named_index, without_index, has_name, is_less, AreSorted, AreInOrder, IsPlace};

use crate::name::{Name, Sought};
use std::alloc::{AllocError, Global};

/// A name, and the index of the entry that it means.
#[derive(Drop)]
pub(crate) struct NamedIndex {
    pub(crate) name: Name,
    pub(crate) index: usize,
}

impl NamedIndex {
    /// A name of the entry at an index.
    pub(crate) fn new(name: String, index: usize) -> NamedIndex
        ensures { named_index result ≡ (string_bytes name, index) }
    {
        let name = Name::new(name);
        NamedIndex { name, index }
    }
}

/// How many names are less than one that is looked up, by their bytes.
fn place_of_sought(names: &[NamedIndex], sought: &Sought<'_>) -> usize
    requires { AreSorted names.now }
    ensures bound { result ≤ length names.now }
    ensures place { IsPlace names.now sought.now.text.now result }
{
    names.partition_point(
        |named: &NamedIndex| -> bool
            ensures { result ≡ is_less sought.entry.now.text.now named.now }
        { named.name.order(sought).is_lt() },
    )
}

/// How many names are less than this one, by their bytes.
fn place_of(names: &[NamedIndex], name: &str) -> usize
    requires { AreSorted names.now }
    ensures bound { result ≤ length names.now }
    ensures place { IsPlace names.now name.now result }
{
    place_of_sought(names, &Sought::new(name))
}

/// Whether the name stands at the place.
fn stands_at(names: &[NamedIndex], place: usize, name: &str) -> bool
    ensures { result ≡ has_name name.now (slice_get names.now place) }
{
    match names.get(place) {
        Some(named) => named.name.as_str() == name,
        None => false,
    }
}

/// The index at the first of the names that is equal to this one.
pub(crate) fn first_index_in(names: &[NamedIndex], name: &str) -> Option<usize>
    requires { AreSorted names.now }
    ensures { result ≡ meaning_in (names_in names.now) name.now }
{
    let place = place_of(names, name);
    if stands_at(names, place, name) {
        Some(names[place].index)
    } else {
        None
    }
}

/// The index that the name means.
pub(crate) fn index_in(names: &[NamedIndex], name: &str) -> Option<usize>
    requires { AreInOrder names.now }
    ensures { result ≡ meaning_in (names_in names.now) name.now }
{
    first_index_in(names, name)
}

/// Lets a name mean an index. Unchanged where there is no memory for it.
pub(crate) fn bind(
    names: &mut Vec<NamedIndex>,
    name: String,
    index: usize,
) -> Result<(), AllocError>
    requires { AreInOrder names.old.items }
    ensures ok { OnOk result (meaning_in (names_in names.new.items)
        ≡ bound (string_bytes name ∷ []) index (meaning_in (names_in names.old.items))) }
    ensures order { AreInOrder names.new.items }
    ensures len { vec_len names.new ≤ vec_len names.old + 1 }
    ensures capacity { vec_capacity names.old ≤ vec_capacity names.new }
    ensures succeeds { vec_len names.old < vec_capacity names.old → IsOk result }
    ensures err { OnErr result (names.new.items ≡ names.old.items) }
{
    let place = place_of(names.as_slice(), name.as_str());
    if stands_at(names.as_slice(), place, name.as_str()) {
        names[place].index = index;
        return Ok(());
    }
    names.insert(place, NamedIndex::new(name, index))?;
    Ok(())
}

/// Lets names mean an index. Unchanged where there is no memory for them.
pub(crate) fn bind_all(
    names: &mut Vec<NamedIndex>,
    more: Vec<String>,
    index: usize,
) -> Result<(), AllocError>
    requires { AreInOrder names.old.items }
    ensures ok { OnOk result (meaning_in (names_in names.new.items)
        ≡ bound (map string_bytes more.items) index (meaning_in (names_in names.old.items))) }
    ensures order { AreInOrder names.new.items }
    ensures err { OnErr result (names.new.items ≡ names.old.items) }
{
    let mut rest = more;
    names.reserve(rest.len())?;
    while let Some(name) = rest.pop() {
        let bound: Result<_, _> = bind(names, name, index);
        bound.unwrap();
    }
    Ok(())
}

/// An index once another one is taken out: those after it are one less.
fn index_down(out: usize, index: usize) -> usize
    ensures { result ≡ (if nat_lt out index then index - 1 else index) }
{
    if out < index { index - 1 } else { index }
}

/// Lets each name mean its index once another one is taken out.
fn move_down(names: &mut Vec<NamedIndex>, out: usize)
    ensures { names.new.items ≡ map (named_down out) names.old.items }
{
    for place in 0..names.len() {
        let named = &mut names[place];
        named.index = index_down(out, named.index);
    }
}

/// Removes the names that mean an index; the indices after it are one less.
pub(crate) fn take_out(names: &mut Vec<NamedIndex>, out: usize)
    requires { AreInOrder names.old.items }
    ensures meaning { meaning_in (names_in names.new.items)
        ≡ without_index out (meaning_in (names_in names.old.items)) }
    ensures order { AreInOrder names.new.items }
{
    names.retain(|named| named.index != out);
    move_down(names, out);
}

/// The indices that the names mean, in their order; names that mean none are passed over.
pub(crate) fn indices_meant(
    alloc: Global,
    indices: &[NamedIndex],
    names: Vec<String>,
) -> Result<Vec<usize>, AllocError>
    requires { AreInOrder indices.now }
    ensures { IfOk result (λ v. v.items
        ≡ filter_map (meaning_in (names_in indices.now)) (map string_bytes names.items)) }
{
    let mut meant = Vec::new(alloc);
    for name in names {
        push_known(&mut meant, index_in(indices, name.as_str()))?;
    }
    Ok(meant)
}

/// Appends an index, if there is one.
fn push_known(indices: &mut Vec<usize>, index: Option<usize>) -> Result<(), AllocError>
    ensures { OnOk result (indices.new.items ≡ indices.old.items ++ option_to_list index) }
{
    if let Some(index) = index {
        indices.push(index)?;
    }
    Ok(())
}
