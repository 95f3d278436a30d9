//! Catalogs: entries found by their names, each made where it is asked for.

ghost use Rattle.std.specs.Prelude.{◌≡◌, ◌<◌, true, map, length, slice_get, IfOk, IfSome};
ghost use Rattle.std.specs.Option.{option_map};
ghost use Rattle.std.specs.Str.{chars};
ghost use Rattle.laws.specs.Results.{Answers};
ghost use Rattle.biblatex_text.specs.Views.{raw_view};
ghost use Rattle.biblatex_entries.specs.Entries.{source_view};
ghost use Rattle.biblatex_inherited_fields.specs.Table.{is_among};
ghost use Rattle.biblatex_suppliers.specs.FieldNames.{field_name};
ghost use Rattle.biblatex_meaning.specs.Resolved.{head, IsMeaningOf, TextMeans};
ghost use Rattle.biblatex.specs.Bibliographies.{listed_view};
ghost use Rattle.biblatex.specs.Catalogs.{resolved_of, written_under, IsCatalog, IsEntryAs};
ghost use Rattle.biblatex.specs.Errors.{refusal_of};
ghost use Rattle.biblatex.specs.Indices.{AreInOrder};

use crate::apart::load_apart;
use crate::indices::{NamedIndex, index_in};
use crate::parsing::{kind_of, unresolved};
use biblatex_entries::Entry;
use biblatex_fields::{Abbreviations, ParseError};
use biblatex_suppliers::{
    FieldName, Supplies, Written, entry_at, made_entry, named_entry, whole_entry,
};
use biblatex_text::{RawBibliography, RawError};
use std::alloc::{AllocError, Global};
use std::marker::Model;

/// The entries of a text, found by their names, with their references resolved. An entry that inherits something is made where it is asked
/// for: until then it is known where the values stand that it inherits, and none is copied. So a catalog takes memory in proportion to what
/// is written, whatever entries inherit from each other. Of an xdata entry, which only lends its fields, nothing but its key and its type is
/// to be had. A long value that is written as one abbreviation alone is held once for all fields that have it, and an entry with such a field
/// is made where it is asked for as well.
pub struct Catalog {
    written: Written,
    names: Vec<NamedIndex>,
    supplies: Vec<Supplies>,
}

impl Drop for Catalog {
    fn drop(self) {
        let Catalog {
            written: _,
            names: _,
            supplies: _,
        } = self;
    }
}

impl Model for Catalog {
    ghost use Rattle.biblatex.specs.Bibliographies.{Indexed};

    ghost Value = { Indexed };

    ghost use Rattle.biblatex.specs.Catalogs.{resolved_of, written_under, IsCatalog};
    ghost use Rattle.biblatex.specs.Indices.{AreInOrder};

    ghost view = { λ c. resolved_of (written_under c.written c.names.items) };

    ghost invariant = { λ c. IsCatalog (written_under c.written c.names.items) c.supplies.items
        × AreInOrder c.names.items };
}

impl Catalog {
    /// Entries as they are written, under names in their order, and what each inherits.
    pub(crate) fn of(written: Written, names: Vec<NamedIndex>, supplies: Vec<Supplies>) -> Catalog
        requires catalog { IsCatalog (written_under written names.items) supplies.items }
        requires order { AreInOrder names.items }
        ensures { result ≡ resolved_of (written_under written names.items) }
    {
        Catalog {
            written,
            names,
            supplies,
        }
    }

    /// Reads the entries of a text as `Bibliography::parse` does, and refuses what it refuses.
    ///
    /// # Errors
    /// Those of `Bibliography::parse`.
    pub fn parse(alloc: Global, source: &str) -> Result<Catalog, ParseError>
        // What the text means.
        ensures { Answers refusal_of listed_view result (TextMeans (chars source.now)) }
    {
        match RawBibliography::parse(alloc, source) {
            Ok(raw) => Catalog::from_raw(alloc, raw),
            Err(RawError::Memory) => Err(ParseError::Memory),
            Err(RawError::Refused { fault, at }) => Err(ParseError::Refused {
                kind: kind_of(fault),
                span: at..at,
            }),
        }
    }

    /// The same of a raw text.
    fn from_raw(alloc: Global, raw: RawBibliography) -> Result<Catalog, ParseError>
        ensures { Answers refusal_of listed_view result (IsMeaningOf (raw_view raw.entry)) }
    {
        let RawBibliography {
            entries,
            abbreviations,
        } = raw;
        let abbreviations = Abbreviations::new(alloc, abbreviations.as_slice())?;
        let loaded = load_apart(alloc, &abbreviations, entries)?;
        match loaded.bibliography.cataloged(alloc, loaded.shared) {
            Ok(catalog) => Ok(catalog),
            Err(error) => Err(unresolved(alloc, loaded.keys.as_slice(), error)?),
        }
    }

    /// How many entries there are.
    pub fn len(&self) -> usize
        ensures { result ≡ length self.now.entries }
    {
        self.written.len()
    }

    /// The index of the entry that the name means.
    pub fn index(&self, name: &str) -> Option<usize>
        ensures value { result ≡ (listed_view self.now).index name.now }
        ensures within { IfSome result (λ i. i < length self.now.entries) }
    {
        index_in(self.names.as_slice(), name)
    }

    /// The entry at an index as it is written, with the key and the type that it keeps.
    pub fn written(&self, index: usize) -> Option<&Entry>
        ensures { option_map (λ e. head (source_view e.now)) result
            ≡ option_map head (slice_get self.now.entries index) }
    {
        entry_at(&self.written, index)
    }

    /// The entry at an index, unless it inherits something, has `xdata` or a long value that is held for many, and has to be made.
    pub fn whole(&self, index: usize) -> Option<&Entry>
        ensures { IfSome result (λ d.
            IsEntryAs (λ name. true) (slice_get self.now.entries index) (source_view d.now)) }
    {
        whole_entry(&self.written, self.supplies.as_slice(), index)
    }

    /// The entry at an index with its references resolved.
    ///
    /// # Errors
    /// Out of memory.
    pub fn made(&self, alloc: Global, index: usize) -> Result<Entry, AllocError>
        requires { index < length self.now.entries }
        ensures { IfOk result (λ d.
            IsEntryAs (λ name. true) (slice_get self.now.entries index) (source_view d)) }
    {
        made_entry(alloc, &self.written, self.supplies.as_slice(), index)
    }

    /// The entry at an index with its references resolved, but with fields of these names alone.
    ///
    /// # Errors
    /// Out of memory.
    pub fn named(
        &self,
        alloc: Global,
        index: usize,
        names: &[FieldName],
    ) -> Result<Entry, AllocError>
        requires { index < length self.now.entries }
        ensures { IfOk result (λ d. IsEntryAs (is_among (map field_name names.now))
            (slice_get self.now.entries index) (source_view d)) }
    {
        named_entry(alloc, &self.written, self.supplies.as_slice(), index, names)
    }
}
