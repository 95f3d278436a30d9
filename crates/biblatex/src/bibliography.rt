//! Bibliographies.

ghost use Rattle.std.specs.Prelude.{◌≡◌, ◌==◌, ◌<◌, true, length, map, string_bytes, IfOk, IfErr, IfSome, OnOk, OnErr, Some, slice_get};
ghost use Rattle.std.specs.Option.{option_map};
ghost use Rattle.std.specs.Borrow.{sem};
ghost use Rattle.std.specs.Io.KnownBytes.{Appends};
ghost use Rattle.std.specs.Slice.Iter.{iter_rest, iter_mut_rest, iter_mut_name};
ghost use Rattle.std.specs.Iterator.Adapters.{IterMutYieldsInOrder};
ghost use Rattle.laws.specs.Counts.{next_count};
ghost use Rattle.sinks.specs.Sinks.{AppendsPrefix, HasFailed};
ghost use Rattle.biblatex_writing.specs.Settled.{have_distinct_keys, is_settled};
ghost use Rattle.biblatex_writing.specs.Written.{written_file};
ghost use Rattle.biblatex_inheritance.specs.Solution.{IsRefusedAs};
ghost use Rattle.biblatex_reading_back.specs.ReadingBack.{ReadsBack};
ghost use Rattle.biblatex.specs.Indices.{AreInOrder};
ghost use Rattle.biblatex.specs.Keys.{keys_left};
ghost use Rattle.biblatex.specs.Loading.{whole, AreApart};
ghost use Rattle.biblatex_meaning.specs.Resolved.{IsResolved};
ghost use Rattle.biblatex.specs.Lending.{LendsEntry, LendsEntries};
ghost use Rattle.biblatex_entries.specs.declared.entry.Entry.{Entry};
ghost use Rattle.biblatex_entries.specs.Entries.{source_view, sources_view, HaveJoinedFields};
ghost use Rattle.biblatex_meaning.specs.Listed.{IsAsRead, nothing, pushed, references, entry_named};
ghost use Rattle.biblatex.specs.Bibliographies.{indexed, listed_view, IsWithin, inserted, removed, aliased, flattened};

use crate::catalog::Catalog;
use crate::indexed::{key_alone, put_last, replace, take};
use crate::indices::{NamedIndex, bind, index_in, indices_meant};
use crate::keys::Keys;
use crate::naming::are_apart;
use biblatex_entries::Entry;
use biblatex_inheritance::{Resolution, ResolveError, resolve};
use biblatex_suppliers::{Shared, Written, all_supplies};
use biblatex_writing::{are_each_settled, entries_text, flatten_entries, write_entries};
use sinks::{Sink, SinkFault};
use std::alloc::{AllocError, Global};
use std::marker::Model;
use std::slice::{Iter, IterMut};

/// Entries in file order, found by their names, which are kept in the order of their bytes. A name means the entry that it was last
/// given to.
pub struct Bibliography {
    entries: Vec<Entry>,
    names: Vec<NamedIndex>,
}

impl Drop for Bibliography {
    fn drop(self) {
        let Bibliography {
            entries: _,
            names: _,
        } = self;
    }
}

impl Model for Bibliography {
    ghost use Rattle.biblatex.specs.Indices.{AreInOrder};
    ghost use Rattle.biblatex.specs.Bibliographies.{Indexed, indexed, IsWithin};

    ghost Value = { Indexed };

    ghost view = { λ b. indexed b.entries.items b.names.items };

    ghost invariant = { λ b. IsWithin (indexed b.entries.items b.names.items)
        × AreInOrder b.names.items };
}

impl Bibliography {
    /// A bibliography without entries.
    pub fn new(alloc: Global) -> Bibliography
        ensures empty { listed_view result ≡ nothing }
        ensures read { IsAsRead (listed_view result) }
    {
        Bibliography {
            entries: Vec::new(alloc),
            names: Vec::new(alloc),
        }
    }

    /// Entries under names in their order, of which each means one of the entries.
    pub(crate) fn of(entries: Vec<Entry>, names: Vec<NamedIndex>) -> Bibliography
        requires within { IsWithin (indexed entries.items names.items) }
        requires order { AreInOrder names.items }
        ensures { result ≡ indexed entries.items names.items }
    {
        Bibliography { entries, names }
    }

    /// How many entries there are.
    pub fn len(&self) -> usize
        ensures { result ≡ length self.now.entries }
    {
        self.entries.len()
    }

    /// Whether there are no entries.
    pub fn is_empty(&self) -> bool
        ensures { result ≡ (length self.now.entries == 0) }
    {
        self.entries.len() == 0
    }

    /// The entries in their order.
    pub fn entries(&self) -> &[Entry]
        ensures { sources_view result.now ≡ self.now.entries }
    {
        self.entries.as_slice()
    }

    /// The entries in their order.
    pub fn iter(&self) -> Iter<'_, Entry>
        ensures { sources_view (iter_rest result) ≡ self.now.entries }
    {
        self.entries.as_slice().iter()
    }

    /// The entries in their order, each to be changed. Names mean what they meant, whatever is changed.
    pub fn iter_mut(&mut self) -> IterMut<'_, Entry>
        ensures* writes_back { sem 𝓛 (LendsEntries self.entry (iter_mut_name result)) }
        ensures value { sources_view (iter_mut_rest result) ≡ self.old.entries }
        ensures runs { IterMutYieldsInOrder Entry }
    {
        self.entries.as_mut_slice().iter_mut()
    }

    /// The keys of the entries in their order.
    pub fn keys(&self) -> Keys<'_>
        ensures { keys_left result ≡ map (λ e. e.key) self.now.entries }
    {
        Keys::new(self.entries.as_slice())
    }

    /// The index of the entry that the name means.
    pub fn index(&self, name: &str) -> Option<usize>
        ensures value { result ≡ (listed_view self.now).index name.now }
        ensures within { IfSome result (λ i. i < length self.now.entries) }
    {
        index_in(self.names.as_slice(), name)
    }

    /// The entry that the name means.
    pub fn get(&self, name: &str) -> Option<&Entry>
        ensures { option_map (λ e. source_view e.now) result
            ≡ entry_named name.now (listed_view self.now) }
    {
        let index = index_in(self.names.as_slice(), name)?;
        self.entries.get(index)
    }

    /// The entry that the name means, to be changed. Names mean what they meant, whatever is changed.
    pub fn get_mut(&mut self, name: &str) -> Option<&mut Entry>
        ensures* writes_back { sem 𝓛
            (LendsEntry self.entry ((listed_view self.old).index name.now) result) }
        ensures value { option_map (λ e. source_view e.now) result
            ≡ entry_named name.now (listed_view self.old) }
    {
        let meant = index_in(self.names.as_slice(), name)?;
        self.entries.get_mut(meant)
    }

    /// The entry at the index, to be changed. Names mean what they meant, whatever is changed.
    pub fn entry_mut(&mut self, index: usize) -> Option<&mut Entry>
        ensures* writes_back { sem 𝓛 (LendsEntry self.entry (Some index) result) }
        ensures value { option_map (λ e. source_view e.now) result
            ≡ slice_get self.old.entries index }
    {
        self.entries.get_mut(index)
    }

    /// Appends an entry, as when a file is read: its key and the names in its `ids` mean it from now on. Unchanged where
    /// there is no memory for it.
    pub fn push(&mut self, entry: Entry) -> Result<(), AllocError>
        ensures ok { OnOk result (listed_view self.new
            ≡ pushed (source_view entry) (listed_view self.old)) }
        ensures read { IsAsRead (listed_view self.old)
            → OnOk result (IsAsRead (listed_view self.new)) }
        ensures err { OnErr result (self.new ≡ self.old) }
    {
        let names = entry.names(*self.entries.allocator())?;
        put_last(&mut self.entries, &mut self.names, names, entry)
    }

    /// Replaces the entry that the key of the new one means, and returns it; the new one has all of its names. Where
    /// the key means no entry, the new one is appended under its key alone: its `ids` are not read. Unchanged where
    /// there is no memory for it.
    pub fn insert(&mut self, entry: Entry) -> Result<Option<Entry>, AllocError>
        ensures ok { OnOk result (listed_view self.new
            ≡ inserted (source_view entry) (listed_view self.old)) }
        ensures old { IfOk result (λ old. option_map source_view old
            ≡ entry_named (string_bytes entry.key) (listed_view self.old)) }
        ensures err { OnErr result (self.new ≡ self.old) }
    {
        if let Some(index) = index_in(self.names.as_slice(), entry.key.as_str()) {
            return Ok(Some(replace(&mut self.entries, index, entry)));
        }
        let names = key_alone(*self.entries.allocator(), &entry)?;
        put_last(&mut self.entries, &mut self.names, names, entry)?;
        Ok(None)
    }

    /// Removes the entry that the name means, with all its names, and returns it. The indices of the entries after it
    /// are one less.
    pub fn remove(&mut self, name: &str) -> Option<Entry>
        ensures rest { listed_view self.new ≡ removed name.now (listed_view self.old) }
        ensures value { option_map source_view result
            ≡ entry_named name.now (listed_view self.old) }
    {
        let index = index_in(self.names.as_slice(), name)?;
        Some(take(&mut self.entries, &mut self.names, index))
    }

    /// Lets the alias mean the entry that the name means, also where it meant another one; does nothing where the name
    /// means no entry. Unchanged where there is no memory for it.
    pub fn alias(&mut self, name: &str, alias: &str) -> Result<(), AllocError>
        ensures ok { OnOk result (listed_view self.new
            ≡ aliased name.now alias.now (listed_view self.old)) }
        ensures err { OnErr result (self.new ≡ self.old) }
    {
        let Some(index) = index_in(self.names.as_slice(), name) else {
            return Ok(());
        };
        let alias = String::from_str(*self.entries.allocator(), alias)?;
        bind(&mut self.names, alias, index)
    }

    /// Of each entry, in order, the indices of the entries that its `crossref` and then its `xdata` name; names that mean
    /// none are passed over.
    pub fn references(&self, alloc: Global) -> Result<Vec<Vec<usize>>, AllocError>
        ensures { IfOk result (λ v. map (λ r. r.items) v.items
            ≡ references (listed_view self.now)) }
    {
        let mut references = Vec::with_capacity(alloc, self.entries.len())?;
        let mut rest = self.entries.as_slice();
        while let Some((entry, others)) = rest.split_first() {
            let parents = entry.parents(alloc)?;
            references.push(indices_meant(alloc, self.names.as_slice(), parents)?)?;
            rest = others;
        }
        Ok(references)
    }

    /// The entries with their references resolved, under the same names, and how many entries were made.
    pub(crate) fn resolved(self, alloc: Global) -> Result<(Bibliography, usize), ResolveError>
        ensures ok { IfOk result (λ r. IsResolved (listed_view self) (listed_view r.0)) }
        ensures joined { IfOk result (λ r. HaveJoinedFields self.entries
            → HaveJoinedFields r.0.entries) }
        ensures count { IfOk result (λ r. r.1 ≡ length self.entries) }
        ensures err { IfErr result (IsRefusedAs self.entries (references (listed_view self))) }
    {
        let references = self.references(alloc)?;
        let Bibliography { entries, names } = self;
        let Resolution { entries, count } = resolve(alloc, entries, &references)?;
        Ok((Bibliography { entries, names }, count))
    }

    /// The entries as a catalog, with the fields beside them and under the same names: with their references resolved, each to be made where
    /// it is asked for.
    pub(crate) fn cataloged(
        self,
        alloc: Global,
        shared: Vec<Vec<Shared>>,
    ) -> Result<Catalog, ResolveError>
        requires { AreApart self.entries shared.items }
        ensures ok { IfOk result (λ c.
            IsResolved (listed_view (whole self shared.items)) (listed_view c)) }
        ensures err { IfErr result (IsRefusedAs (whole self shared.items).entries
            (references (listed_view (whole self shared.items)))) }
    {
        let references = self.references(alloc)?;
        let Bibliography { entries, names } = self;
        let written = Written { entries, shared };
        let supplies = all_supplies(alloc, &written, &references)?;
        Ok(Catalog::of(written, names, supplies))
    }

    /// Writes the entries as a BibLaTeX file. Takes no memory. After an error the sink has taken a prefix of the file. The file of a
    /// settled bibliography reads back as its entries: `parse` refuses it for no fault, and returns the same keys in order, the written
    /// types, and unless two fields of an entry are written under one name, under each written name the text that was written.
    pub fn write_biblatex<W: Sink>(&self, sink: &mut W) -> Result<(), SinkFault>
        ensures ok { OnOk result (Appends (W.contents sink.old) (W.contents sink.new)
            (written_file self.now.entries)) }
        ensures err { OnErr result (AppendsPrefix (W.contents sink.old) (W.contents sink.new)
            (written_file self.now.entries)) }
        ensures cause { OnErr result (HasFailed (W.failures sink.old) (W.failures sink.new)) }
        // No call failed; or the last one did, and none was tried after it.
        ensures quiet { OnOk result (W.failures sink.new ≡ W.failures sink.old) }
        ensures once { OnErr result (W.failures sink.new ≡ next_count (W.failures sink.old)) }
        ensures fault { IfErr result (λ e. W.last_fault sink.new ≡ Some e) }
        // What is written of a settled bibliography reads back.
        ensures reads_back { OnOk result (is_settled self.now.entries ≡ true
            → ReadsBack (written_file self.now.entries) self.now.entries) }
    {
        write_entries(self.entries.as_slice(), sink)
    }

    /// The entries as a BibLaTeX file. That of a settled bibliography reads back as its entries, as `write_biblatex` says.
    pub fn to_biblatex_string(&self, alloc: Global) -> Result<String, AllocError>
        ensures file { IfOk result (λ s. string_bytes s ≡ written_file self.now.entries) }
        // What is written of a settled bibliography reads back.
        ensures reads_back { IfOk result (λ s. is_settled self.now.entries ≡ true
            → ReadsBack (string_bytes s) self.now.entries) }
    {
        entries_text(alloc, self.entries.as_slice())
    }

    /// Whether the entries are settled: no two keys are equal, and each entry alone is settled, so that what is written of it reads
    /// back. Of two fields of an entry that are written under one name the second counts when it is read. Takes no memory.
    pub fn is_settled(&self) -> bool
        ensures { result ≡ is_settled self.now.entries }
    {
        are_each_settled(self.entries.as_slice()) && self.has_distinct_keys()
    }

    /// Whether no two entries have one key.
    fn has_distinct_keys(&self) -> bool
        ensures { result ≡ have_distinct_keys self.now.entries }
    {
        are_apart(self.entries.as_slice(), self.names.as_slice())
    }

    /// Takes `crossref` out of every entry. Takes no memory.
    pub fn flatten(&mut self)
        ensures { self.new ≡ flattened self.old }
    {
        flatten_entries(self.entries.as_mut_slice());
    }

    /// The entries in their order.
    pub fn into_vec(self) -> Vec<Entry>
        ensures { sources_view result.items ≡ self.entries }
    {
        let Bibliography { entries, names: _ } = self;
        entries
    }
}
