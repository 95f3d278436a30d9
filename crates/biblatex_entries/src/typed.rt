//! The fields of an entry as values of types.

ghost use Rattle.std.specs.Prelude.{◌≡◌, [], map, Some, IfOk, OnOk, OnErr, codes};
ghost use Rattle.std.specs.Option.{option_map};
ghost use Rattle.std.specs.Str.{chars};
ghost use Rattle.laws.specs.Text.{lowered, characters};
ghost use Rattle.biblatex_content.specs.Views.{styled};
ghost use Rattle.biblatex_fields.specs.Fields.{text_named};
ghost use Rattle.biblatex_fields.specs.Value.{field_value_view};
ghost use Rattle.biblatex_lists.specs.Views.{named_view};
ghost use Rattle.biblatex_values.specs.Dates.{reads_date};
ghost use Rattle.biblatex_values.specs.EditorType.{editor_name};
ghost use Rattle.biblatex_values.specs.Permissive.{reads_permissive};
ghost use Rattle.biblatex_field_types.specs.Views.{permitted_view, reads_people};
ghost use Rattle.biblatex_entries.specs.Entries.{source_view, HasSet};
ghost use Rattle.biblatex_entries.specs.Typed.{Retrieves, IsAt, IsLent, read_as, sure, field_characters, date_of_parts, date_in_fields, type_or_editor, editors_in, editors_view, refusal_of};
ghost use Rattle.laws.specs.Results.{GivesBack};

use crate::entry::Entry;
use crate::error::RetrievalError;
use biblatex_content::{Chunk, Chunks, Spanned};
use biblatex_dates::Date;
use biblatex_field_types::{ChunksParse, FieldType, PermissiveType};
use biblatex_fields::Fields;
use biblatex_lists::{Person, read_people};
use biblatex_values::{EditorType, plain_text};
use std::alloc::{AllocError, Global};
use texts::{empty_text, split_first};

impl Entry {
    /// The field of that name in lower case, as a value of the type.
    ///
    /// # Errors
    /// `Missing` where there is no such field; `TypeError` with the span of its chunks where they are no value of the type;
    /// `Memory` where a request for memory was refused.
    pub fn get_as<T: FieldType>(&self, alloc: Global, name: &str) -> Result<T, RetrievalError>
        // What the field reads as, or its fault, or that it is missing.
        ensures reading { Retrieves T.view result (read_as T.reads name.now self.now.fields) }
        // Where the field is what a value of the type's class is written as, it is read as that value.
        ensures back { (v : T.View) → T.InClass v
            → text_named name.now self.now.fields ≡ Some (T.writes v)
            → GivesBack refusal_of T.view result v }
    {
        match self.fields.get(name) {
            Some(value) => read_value(alloc, value.as_slice()),
            None => Err(RetrievalError::Missing),
        }
    }

    /// Sets the field of that name, in lower ASCII case, to what the value is written as.
    #[tactic(auto, using(crate::proofs::TypedStored::has_set))]
    pub fn set_as<T: FieldType>(&mut self, name: &str, value: &T) -> Result<(), AllocError>
        ensures ok { OnOk result (HasSet (source_view self.old) (lowered (chars name.now))
            (T.writes (T.view value.now)) (source_view self.new)) }
        // The field of that name has what the value is written as.
        ensures written { OnOk result (text_named (lowered (chars name.now)) self.new.fields
            ≡ Some (T.writes (T.view value.now))) }
        ensures err { OnErr result (source_view self.new ≡ source_view self.old) }
    {
        let chunks = value.to_chunks(*self.key.allocator())?;
        self.set(name, chunks)
    }

    /// The chunks of the title.
    ///
    /// # Errors
    /// `Missing` where there is no field `title`. Takes no memory.
    pub fn title(&self) -> Result<&[Spanned<Chunk>], RetrievalError>
        ensures { IsLent result (text_named (codes "title") self.now.fields) }
    {
        match self.fields.get("title") {
            Some(value) => Ok(value.as_slice()),
            None => Err(RetrievalError::Missing),
        }
    }

    /// The people in `author`. No text is refused.
    ///
    /// # Errors
    /// `Missing` where there is no such field; `Memory` where a request for memory was refused.
    pub fn author(&self, alloc: Global) -> Result<Vec<Person>, RetrievalError>
        ensures { Retrieves (λ v. map named_view v.items) result
            (read_as reads_people (codes "author") self.now.fields) }
    {
        self.get_as(alloc, "author")
    }

    /// The people in `translator`. No text is refused.
    ///
    /// # Errors
    /// `Missing` where there is no such field; `Memory` where a request for memory was refused.
    pub fn translator(&self, alloc: Global) -> Result<Vec<Person>, RetrievalError>
        ensures { Retrieves (λ v. map named_view v.items) result
            (read_as reads_people (codes "translator") self.now.fields) }
    {
        self.get_as(alloc, "translator")
    }

    /// The people in `editor` with what they did, as `editortype` says; they are editors where there is none. No list where
    /// there is no `editor`. No text is refused.
    pub fn editors(&self, alloc: Global) -> Result<Vec<(Vec<Person>, EditorType)>, AllocError>
        ensures { IfOk result (λ v. map editors_view v.items ≡ editors_in self.now.fields) }
    {
        let mut editors = Vec::new(alloc);
        if let Some(value) = self.fields.get("editor") {
            let people = read_people(alloc, value.as_slice())?;
            editors.push((people, editor_type(alloc, self.fields.get("editortype"))?))?;
        }
        Ok(editors)
    }

    /// The date in `date`, or its chunks where they are no date. Where `date` is missing or empty, the date of `year`, `month`
    /// and `day`: a year of one to four digits, negative after a hyphen; a month by number, English name or its first three
    /// letters; parts that cannot be read, and all finer ones, are passed over.
    ///
    /// # Errors
    /// `Missing` where `date` is missing or empty and `year` is no year; `Memory` where a request for memory was refused.
    pub fn date(&self, alloc: Global) -> Result<PermissiveType<Date>, RetrievalError>
        ensures { Retrieves (permitted_view (λ d. d)) result (date_in_fields self.now.fields) }
    {
        let date = text_of(alloc, &self.fields, "date")?;
        if split_first(date.as_str()).is_some() {
            return self.get_as(alloc, "date");
        }
        or_missing(date_of_parts(alloc, &self.fields)?)
    }

    /// The date in `eventdate`, or its chunks where they are no date.
    ///
    /// # Errors
    /// `Missing` where there is no such field; `Memory` where a request for memory was refused.
    pub fn event_date(&self, alloc: Global) -> Result<PermissiveType<Date>, RetrievalError>
        ensures { Retrieves (permitted_view (λ d. d)) result
            (read_as (reads_permissive reads_date) (codes "eventdate") self.now.fields) }
    {
        self.get_as(alloc, "eventdate")
    }

    /// The date in `origdate`, or its chunks where they are no date.
    ///
    /// # Errors
    /// `Missing` where there is no such field; `Memory` where a request for memory was refused.
    pub fn orig_date(&self, alloc: Global) -> Result<PermissiveType<Date>, RetrievalError>
        ensures { Retrieves (permitted_view (λ d. d)) result
            (read_as (reads_permissive reads_date) (codes "origdate") self.now.fields) }
    {
        self.get_as(alloc, "origdate")
    }

    /// The date in `urldate`, or its chunks where they are no date.
    ///
    /// # Errors
    /// `Missing` where there is no such field; `Memory` where a request for memory was refused.
    pub fn url_date(&self, alloc: Global) -> Result<PermissiveType<Date>, RetrievalError>
        ensures { Retrieves (permitted_view (λ d. d)) result
            (read_as (reads_permissive reads_date) (codes "urldate") self.now.fields) }
    {
        self.get_as(alloc, "urldate")
    }
}

/// The value that the chunks of a field are read as.
fn read_value<T: FieldType>(alloc: Global, value: &[Spanned<Chunk>]) -> Result<T, RetrievalError>
    ensures reading { Retrieves T.view result (Some (T.reads (styled value.now))) }
    ensures index { IsAt result value.now }
{
    match value.parse(alloc) {
        Ok(read) => Ok(read),
        Err(error) => Err(RetrievalError::from(error)),
    }
}

/// What the people in an `editor` field did: what the field names, or editors where there is none.
fn editor_type(alloc: Global, value: Option<&Chunks>) -> Result<EditorType, AllocError>
    ensures { IfOk result (λ t. editor_name t ≡ type_or_editor
        (option_map (λ v. v.text) (option_map (λ v. field_value_view v.now.items) value.entry))) }
{
    match value {
        Some(value) => EditorType::new(alloc, plain_text(alloc, value.as_slice())?.as_str()),
        None => Ok(EditorType::Editor),
    }
}

/// The text of the field of that name; empty where there is none.
fn text_of(alloc: Global, fields: &Fields, name: &str) -> Result<String, AllocError>
    ensures { IfOk result (λ s. characters s ≡ field_characters name.now fields.now) }
{
    match fields.get(name) {
        Some(value) => plain_text(alloc, value.as_slice()),
        None => Ok(empty_text(alloc)),
    }
}

/// The date of year, month and day, as far as they can be read.
fn date_of_parts(alloc: Global, fields: &Fields) -> Result<Option<Date>, AllocError>
    ensures { IfOk result (λ d. d ≡ date_of_parts fields.now) }
{
    let year = text_of(alloc, fields, "year")?;
    let month = text_of(alloc, fields, "month")?;
    let day = text_of(alloc, fields, "day")?;
    Ok(Date::from_parts(year.as_str(), Some(month.as_str()), Some(day.as_str())))
}

/// The date, if there is one.
fn or_missing(date: Option<Date>) -> Result<PermissiveType<Date>, RetrievalError>
    ensures { Retrieves (permitted_view (λ d. d)) result (option_map sure date) }
{
    match date {
        Some(date) => Ok(PermissiveType::Typed(date)),
        None => Err(RetrievalError::Missing),
    }
}
