//! The fields of an entry.

ghost use Rattle.std.specs.Prelude.{◌≡◌, ◌==◌, ℕ, [], List, if◌then◌else◌, Some, None, length, OnOk, OnErr, string_bytes};
ghost use Rattle.std.specs.Option.{option_map};
ghost use Rattle.std.specs.Str.{bytes_eq};
ghost use Rattle.biblatex_text.specs.Views.{fields_view};
ghost use Rattle.biblatex_fields.specs.Fields.{Named, named_fields_view, value_named, with_field, without_field, AreInOrder, fields_of};
ghost use Rattle.biblatex_fields.specs.Slots.{AreMarked};
ghost use Rattle.biblatex_fields.specs.Value.{field_value_view};
ghost use Rattle.biblatex_fields.specs.Errors.{refusal_of};
ghost use Rattle.laws.specs.Results.{Gives};

use crate::abbreviations::Abbreviations;
use crate::error::ParseError;
use crate::glossary::lowered;
use crate::slots::Slots;
use biblatex_content::Chunks;
use biblatex_text::RawEntry;
use std::alloc::{AllocError, Global};
use std::collections::BTreeMap;
use std::collections::btree_map::Iter;
use std::marker::Model;

/// The fields of an entry by their names, in the order of the names' bytes.
#[derive(Drop)]
pub struct Fields {
    values: BTreeMap<String, Chunks>,
    /// The slot of each name is marked.
    slots: Slots,
}

impl Model for Fields {
    ghost Value = { List Named };

    ghost view = { λ f. named_fields_view f.values.entries };

    ghost invariant = { λ f. AreInOrder (named_fields_view f.values.entries)
        × AreMarked f.slots.marks (named_fields_view f.values.entries) };
}

impl Fields {
    /// The fields of an entry that has none.
    pub fn new(alloc: Global) -> Fields
        ensures { result ≡ [] }
    {
        Fields {
            values: BTreeMap::new(alloc),
            slots: Slots::new(),
        }
    }

    /// How many fields there are.
    pub fn len(&self) -> usize
        ensures { result ≡ length self.now }
    {
        self.values.len()
    }

    /// Whether there are no fields.
    pub fn is_empty(&self) -> bool
        ensures { result ≡ (length self.now == 0) }
    {
        self.values.len() == 0
    }

    /// The value of the field of that name.
    pub fn get(&self, name: &str) -> Option<&Chunks>
        ensures { option_map (λ v. field_value_view v.now.items) result
            ≡ value_named name.now self.now }
    {
        if !self.slots.is_marked(name) {
            return None;
        }
        self.values.get(name)
    }

    /// Inserts a field, or replaces the one of equal name. The name is taken as it is given; fields that are written in
    /// a text have names in lower ASCII case.
    pub fn insert(&mut self, name: String, value: Chunks) -> Result<(), AllocError>
        ensures ok { OnOk result (self.new
            ≡ with_field self.old (string_bytes name) (field_value_view value.items)) }
        ensures found { OnOk result ((q : List ℕ)
            → value_named q self.new ≡ (if bytes_eq q (string_bytes name)
            then Some (field_value_view value.items) else value_named q self.old)) }
        ensures err { OnErr result (self.new ≡ self.old) }
    {
        self.slots.mark(name.as_str());
        self.values.insert(name, value)?;
        Ok(())
    }

    /// Removes the field of that name, and returns its value.
    pub fn remove(&mut self, name: &str) -> Option<Chunks>
        ensures value { option_map (λ v. field_value_view v.items) result
            ≡ value_named name.now self.old }
        ensures rest { self.new ≡ without_field name.now self.old }
        ensures found { (q : List ℕ) → value_named q self.new
            ≡ (if bytes_eq q name.now then None else value_named q self.old) }
    {
        if !self.slots.is_marked(name) {
            return None;
        }
        self.values.remove(name)
    }

    /// The fields in the order of their names.
    pub fn iter(&self) -> Iter<'_, String, Chunks>
        ensures rest { named_fields_view result ≡ self.now }
        ensures ordered { AreInOrder self.now }
    {
        self.values.iter()
    }
}

/// The fields of an entry: all that are written are read in order, and the last of equal names stays. Names are compared,
/// and stored, in lower ASCII case.
///
/// # Errors
///
/// The first fault in the order of fields and their pieces.
pub fn read_fields<'s>(
    alloc: Global,
    abbreviations: &Abbreviations<'_, 's>,
    entry: &RawEntry<'s>,
) -> Result<Fields, ParseError>
    ensures { Gives refusal_of (λ fs. fs) result
        (fields_of abbreviations.now (fields_view entry.now.fields)) }
{
    let mut read = Fields::new(alloc);
    for pair in entry.fields.iter() {
        let name = lowered(alloc, pair.key.v)?;
        let value = abbreviations.value_named(alloc, name.as_str(), pair.value.v.as_slice())?;
        read.insert(name, value)?;
    }
    Ok(read)
}
