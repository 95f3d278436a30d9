//! Names with the entries that they are bound to.

ghost use Rattle.std.specs.Prelude.{◌≡◌, ◌++◌, ◌∷◌, [], None, IfOk, OnOk, length, map, IsTrue, ◌↔◌};
ghost use Rattle.std.specs.Option.{option_copied};
ghost use Rattle.std.specs.Slice.Iter.{iter_rest};
ghost use Rattle.hashes.specs.TextIndices.{number_of};
ghost use Rattle.literature.specs.Bindings.{set, settled};
ghost use Rattle.literature.specs.BoundNames.{AreIndexed, binding_view, index_of};

use crate::binding::Named;
use crate::bound_names::BoundNames;
use hashes::TextIndex;
use literature_entries::Entry;
use std::alloc::{AllocError, Global};
use std::slice::Iter;

/// The names of a selector that holds, each with the entry that it is bound to, in the order in which they were first bound.
#[derive(Drop)]
pub struct Bindings<'e> {
    entries: Vec<(String, &'e Entry)>,
    indices: TextIndex,
    ghost indexed: { AreIndexed (number_of indices) entries.items },
}

impl<'e> Bindings<'e> {
    ghost use Rattle.literature.specs.Found.{all_named};
    ghost use Rattle.literature.specs.Pairs.{bindings_view, named_in, names_left};

    /// Each name with the last entry that was found for it.
    pub(crate) fn settled(
        alloc: Global,
        found: &[Named<'_, 'e>],
    ) -> Result<Bindings<'e>, AllocError>
        ensures { IfOk result (λ b. bindings_view b ≡ settled (all_named found.now)) }
    {
        let mut entries = Vec::new(alloc);
        let mut indices = TextIndex::new(alloc);
        for named in found {
            bind(alloc, &mut entries, &mut indices, named.name, named.entry)?;
        }
        Ok(Bindings { entries, indices })
    }

    /// The entry that is bound to the name.
    pub fn get(&self, name: &str) -> Option<&'e Entry>
        ensures { option_copied result ≡ named_in self.now name.now }
    {
        match self.indices.get(name) {
            Some(index) => Some(self.entries[index].1),
            None => None,
        }
    }

    /// How many names there are.
    pub fn len(&self) -> usize
        ensures { result ≡ length (bindings_view self.now) }
    {
        self.entries.len()
    }

    /// Whether there are no names.
    pub fn is_empty(&self) -> bool
        ensures { IsTrue result ↔ (bindings_view self.now ≡ []) }
    {
        self.entries.is_empty()
    }

    /// The names in order.
    pub fn keys(&self) -> BoundNames<'_, 'e>
        ensures { names_left result ≡ map (λ p. p.0) (bindings_view self.now) }
    {
        BoundNames::new(self.entries.as_slice())
    }

    /// The names in order, each with the entry that it is bound to.
    pub fn iter(&self) -> Iter<'_, (String, &'e Entry)>
        ensures { map binding_view (iter_rest result) ≡ bindings_view self.now }
    {
        self.entries.iter()
    }
}

/// Binds a name to an entry, instead of the one that it is bound to.
fn bind<'e>(
    alloc: Global,
    entries: &mut Vec<(String, &'e Entry)>,
    indices: &mut TextIndex,
    name: &str,
    entry: &'e Entry,
) -> Result<(), AllocError>
    requires { AreIndexed (number_of indices.old) entries.old.items }
    ensures entries { OnOk result (map binding_view entries.new.items
        ≡ set (name.now, entry.now) (map binding_view entries.old.items)) }
    ensures indices { OnOk result (AreIndexed (number_of indices.new) entries.new.items) }
{
    match indices.get(name) {
        Some(index) => entries[index].1 = entry,
        None => put_last(alloc, entries, indices, name, entry)?,
    }
    Ok(())
}

/// Binds a name that is not bound yet.
fn put_last<'e>(
    alloc: Global,
    entries: &mut Vec<(String, &'e Entry)>,
    indices: &mut TextIndex,
    name: &str,
    entry: &'e Entry,
) -> Result<(), AllocError>
    requires indices { AreIndexed (number_of indices.old) entries.old.items }
    requires new { index_of name.now entries.old.items ≡ None }
    ensures entries { OnOk result (map binding_view entries.new.items
        ≡ map binding_view entries.old.items ++ (name.now, entry.now) ∷ []) }
    ensures indices { OnOk result (AreIndexed (number_of indices.new) entries.new.items) }
{
    indices.insert(String::from_str(alloc, name)?, entries.len())?;
    entries.push((String::from_str(alloc, name)?, entry))?;
    Ok(())
}
