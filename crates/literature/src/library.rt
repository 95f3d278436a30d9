//! Libraries.

ghost use Rattle.std.specs.Prelude.{◌≡◌, Some, [], length, map, slice_get, IsTrue, ◌↔◌, IfOk, OnOk, OnErr};
ghost use Rattle.std.specs.Option.{option_copied};
ghost use Rattle.std.specs.Map.{values_of};
ghost use Rattle.hashes.specs.TextIndices.{number_of};
ghost use Rattle.literature.specs.Keys.{with_key, put, without_key, AreDistinct};
ghost use Rattle.literature.specs.KeysLeft.{keys_left};
ghost use Rattle.literature.specs.Numbered.{AreNumbered};
ghost use Rattle.literature_entries.specs.Views as views;

use crate::keys::Keys;
use hashes::TextIndex;
use indexmap::IndexMap;
use indexmap::map::{IntoValues, Values};
use literature_entries::Entry;
use std::alloc::{AllocError, Global};

/// Entries in order, of which no two have the same key. They are found by the numbers of their keys, so that whoever chooses the keys does not
/// decide where entries lie in the table.
pub struct Library {
    entries: IndexMap<usize, Entry>,
    numbers: TextIndex,
    next: usize,
    ghost numbered: { AreNumbered (number_of numbers) next entries.entries },
    ghost distinct: { AreDistinct views.key_view (values_of entries.entries) },
}

impl Drop for Library {
    fn drop(self) {
        let Library {
            entries: _,
            numbers: _,
            next: _,
        } = self;
    }
}

impl Library {
    ghost use Rattle.literature.specs.Entries.{entries};

    /// A library without entries.
    pub fn new(alloc: Global) -> Library
        ensures { entries result ≡ [] }
    {
        Library {
            entries: IndexMap::new(alloc),
            numbers: TextIndex::new(alloc),
            next: 0,
        }
    }

    /// A library without entries, with room for `capacity` of them.
    ///
    /// # Errors
    /// Out of memory.
    pub fn with_capacity(alloc: Global, capacity: usize) -> Result<Library, AllocError>
        ensures { IfOk result (λ l. entries l ≡ []) }
    {
        Ok(Library {
            entries: IndexMap::with_capacity(alloc, capacity)?,
            numbers: TextIndex::new(alloc),
            next: 0,
        })
    }

    /// How many entries there are.
    pub fn len(&self) -> usize
        ensures { result ≡ length (entries self.now) }
    {
        self.entries.len()
    }

    /// Whether there are no entries.
    pub fn is_empty(&self) -> bool
        ensures { IsTrue result ↔ (entries self.now ≡ []) }
    {
        self.entries.is_empty()
    }

    /// The entry of that key.
    pub fn get(&self, key: &str) -> Option<&Entry>
        ensures { option_copied result ≡ with_key views.key_view key.now (entries self.now) }
    {
        match self.numbers.get(key) {
            Some(number) => self.entries.get(&number),
            None => None,
        }
    }

    /// The entry at an index, from zero.
    pub fn nth(&self, n: usize) -> Option<&Entry>
        ensures { option_copied result ≡ slice_get (entries self.now) n }
    {
        match self.entries.get_index(n) {
            Some((_, entry)) => Some(entry),
            None => None,
        }
    }

    /// Replaces the entry that has the key of the new one, or appends the new one.
    ///
    /// # Errors
    /// Out of memory, or of numbers, of which there are 2^64 - 1; the library is as it was, and the entry is dropped.
    pub fn push(&mut self, entry: Entry) -> Result<(), AllocError>
        ensures ok { OnOk result (entries self.new ≡ put views.key_view (entries self.old) entry) }
        ensures err { OnErr result (entries self.new ≡ entries self.old) }
        ensures distinct { AreDistinct views.key_view (entries self.new) }
    {
        let number = self.number_for(entry.key())?;
        self.entries.insert(number, entry)?;
        Ok(())
    }

    /// The number of a key. A key that has none takes the next one.
    fn number_for(&mut self, key: &str) -> Result<usize, AllocError>
        ensures number { IfOk result (λ n. number_of self.new.numbers key.now ≡ Some n) }
        ensures entries { self.new.entries ≡ self.old.entries }
    {
        if let Some(number) = self.numbers.get(key) {
            return Ok(number);
        }
        let number = self.next;
        let Some(next) = number.checked_add(1) else {
            return Err(AllocError);
        };
        let text = String::from_str(*self.entries.allocator(), key)?;
        self.numbers.insert(text, number)?;
        self.next = next;
        Ok(number)
    }

    /// Removes the entry of that key, and returns it. The indices of the entries after it are one less.
    pub fn remove(&mut self, key: &str) -> Option<Entry>
        ensures removed { result ≡ with_key views.key_view key.now (entries self.old) }
        ensures entries { entries self.new ≡ without_key views.key_view key.now (entries self.old) }
        ensures distinct { AreDistinct views.key_view (entries self.new) }
    {
        let number = self.numbers.get(key)?;
        self.numbers.remove(key);
        self.entries.shift_remove(&number)
    }

    /// The entries in order.
    pub fn iter(&self) -> Values<'_, usize, Entry>
        ensures order { result ≡ entries self.now }
        ensures distinct { AreDistinct views.key_view (entries self.now) }
    {
        self.entries.values()
    }

    /// The keys in order.
    pub fn keys(&self) -> Keys<'_>
        ensures order { keys_left result ≡ map views.key_view (entries self.now) }
        ensures distinct { AreDistinct views.key_view (entries self.now) }
    {
        Keys::new(self.iter().as_slice())
    }
}

impl IntoIterator for Library {
    ghost use Rattle.literature.specs.Entries.{entries};

    type Item = Entry;

    type IntoIter = IntoValues<usize, Entry, Global>;

    // The entries in order, of which no two have the same key.
    ghost into_iter_gives = { λ l r. (r ≡ entries l) × AreDistinct views.key_view r };

    fn into_iter(self) -> IntoValues<usize, Entry, Global> {
        let Library {
            entries,
            numbers: _,
            next: _,
        } = self;
        entries.into_values()
    }
}

impl<'a> IntoIterator for &'a Library {
    ghost use Rattle.literature.specs.Entries.{entries};

    type Item = &'a Entry;

    type IntoIter = Values<'a, usize, Entry>;

    // The entries in order, of which no two have the same key.
    ghost into_iter_gives = { λ l r. (r ≡ entries l.now) × AreDistinct views.key_view r };

    fn into_iter(self) -> Values<'a, usize, Entry> {
        self.iter()
    }
}
