//! Entries.

ghost use Rattle.std.specs.Prelude.{◌≡◌, ◌++◌, [], map, IfOk, OnOk, OnErr, string_bytes, codes, true};
ghost use Rattle.std.specs.Option.{option_map};
ghost use Rattle.std.specs.Str.{chars};
ghost use Rattle.laws.specs.Text.{text as text_of, lowered};
ghost use Rattle.biblatex_content.specs.Views.{styled};
ghost use Rattle.biblatex_fields.specs.Fields.{value_named, without_field};
ghost use Rattle.biblatex_fields.specs.Value.{field_value_view};
ghost use Rattle.biblatex_entries.specs.TypeNames.{type_name};
ghost use Rattle.biblatex_entries.specs.Names.{trimmed, listed};
ghost use Rattle.biblatex_entries.specs.Entries.{source_view, with_value, field_text, parents_of, names_of};
ghost use Rattle.biblatex_content.specs.Styled.{plain};

use crate::entry_type::EntryType;
use crate::names::{name_alone, names_listed};
use biblatex_content::{Chunk, Chunks, ChunksExt, Spanned};
use biblatex_fields::Fields;
use std::alloc::{AllocError, Global};

/// An entry: its key, its type, and its fields by their names in lower case.
#[derive(Drop)]
pub struct Entry {
    pub key: String,
    pub entry_type: EntryType,
    pub fields: Fields,
}

impl Entry {
    /// An entry without fields.
    pub fn new(alloc: Global, key: String, entry_type: EntryType) -> Entry
        ensures { source_view result
            ≡ record { key = string_bytes key; entry_type = type_name entry_type; fields = [] } }
    {
        Entry {
            key,
            entry_type,
            fields: Fields::new(alloc),
        }
    }

    /// The value of the field of that name in lower case.
    pub fn get(&self, name: &str) -> Option<&Chunks>
        ensures { option_map (λ v. field_value_view v.now.items) result
            ≡ value_named name.now self.now.fields }
    {
        self.fields.get(name)
    }

    /// Sets the field of that name, in lower ASCII case, to the value.
    pub fn set(&mut self, name: &str, value: Chunks) -> Result<(), AllocError>
        ensures ok { OnOk result (source_view self.new ≡ with_value (source_view self.old)
            (lowered (chars name.now)) (field_value_view value.items)) }
        ensures err { OnErr result (source_view self.new ≡ source_view self.old) }
    {
        let name = lower_name(*self.key.allocator(), name)?;
        self.fields.insert(name, value)
    }

    /// Removes the field of that name, which is in lower case, and returns its value.
    pub fn remove(&mut self, name: &str) -> Option<Chunks>
        ensures value { option_map (λ v. field_value_view v.items) result
            ≡ value_named name.now self.old.fields }
        ensures rest { source_view self.new ≡ record { key = string_bytes self.old.key; entry_type = type_name self.old.entry_type; fields = without_field name.now self.old.fields } }
    {
        self.fields.remove(name)
    }

    /// The names of the entries that it refers to: the one in `crossref`, then those in `xdata`, parted by commas; without
    /// white space at their ends, and without empty ones.
    pub fn parents(&self, alloc: Global) -> Result<Vec<String>, AllocError>
        ensures { IfOk result (λ v. map string_bytes v.items ≡ parents_of self.now.fields) }
    {
        let mut names = name_under(alloc, &self.fields, "crossref")?;
        let more = names_under(alloc, &self.fields, "xdata")?;
        append(&mut names, more)?;
        Ok(names)
    }

    /// Its names: the key, then those in `ids`, parted by commas; without white space at their ends, and without empty ones.
    pub fn names(&self, alloc: Global) -> Result<Vec<String>, AllocError>
        ensures { IfOk result (λ v. map string_bytes v.items ≡ names_of (source_view self.now)) }
    {
        let mut names = Vec::new(alloc);
        names.push(self.key.clone()?)?;
        let more = self.aliases(alloc)?;
        append(&mut names, more)?;
        Ok(names)
    }

    /// Its names beside the key: those in `ids`, as `names` has them.
    pub fn aliases(&self, alloc: Global) -> Result<Vec<String>, AllocError>
        ensures { IfOk result (λ v. map string_bytes v.items
            ≡ listed (field_text (codes "ids") self.now.fields)) }
    {
        names_under(alloc, &self.fields, "ids")
    }
}

/// Whether there is no field of that name; then its text is empty.
fn lacks(fields: &Fields, name: &str) -> bool
    ensures { result ≡ true → field_text name.now fields.now ≡ [] }
{
    match fields.get(name) {
        Some(_) => false,
        None => true,
    }
}

/// The one name in the field of that name, if there is one.
fn name_under(alloc: Global, fields: &Fields, name: &str) -> Result<Vec<String>, AllocError>
    ensures { IfOk result (λ v. map string_bytes v.items
        ≡ trimmed (field_text name.now fields.now)) }
{
    if lacks(fields, name) {
        return Ok(Vec::new(alloc));
    }
    name_alone(alloc, field_text(alloc, fields, name)?.as_str())
}

/// The names in the field of that name, parted by commas, if there is one.
fn names_under(alloc: Global, fields: &Fields, name: &str) -> Result<Vec<String>, AllocError>
    ensures { IfOk result (λ v. map string_bytes v.items
        ≡ listed (field_text name.now fields.now)) }
{
    if lacks(fields, name) {
        return Ok(Vec::new(alloc));
    }
    names_listed(alloc, field_text(alloc, fields, name)?.as_str())
}

/// The name in lower ASCII case.
fn lower_name(alloc: Global, name: &str) -> Result<String, AllocError>
    ensures { IfOk result (λ s. string_bytes s ≡ lowered (chars name.now)) }
{
    name.to_ascii_lowercase(alloc)
}

/// The text of a value.
pub fn value_text(alloc: Global, value: &[Spanned<Chunk>]) -> Result<String, AllocError>
    ensures { IfOk result (λ s. string_bytes s ≡ text_of (plain (styled value.now))) }
{
    value.format_verbatim(alloc)
}

/// The text of the field of that name; empty where there is none.
pub fn field_text(alloc: Global, fields: &Fields, name: &str) -> Result<String, AllocError>
    ensures { IfOk result (λ s. string_bytes s ≡ field_text name.now fields.now) }
{
    match fields.get(name) {
        Some(value) => value_text(alloc, value.as_slice()),
        None => Ok(String::new(alloc)),
    }
}

/// Appends the names of a list after those of another.
fn append(names: &mut Vec<String>, more: Vec<String>) -> Result<(), AllocError>
    ensures { OnOk result (map string_bytes names.new.items
        ≡ map string_bytes names.old.items ++ map string_bytes more.items) }
{
    names.reserve_exact(more.len())?;
    for name in more {
        names.push(name)?;
    }
    Ok(())
}
