//! Settled entries. A file of them reads back as it is, unless an entry has two fields that are written under one name.

ghost use Rattle.std.specs.Prelude.{◌≡◌, ℕ, false, List, map};
ghost use Rattle.std.specs.List.{list_all, list_any};
ghost use Rattle.std.specs.Str.{bytes_eq, chars};
ghost use Rattle.biblatex_text.specs.Character.{is_id_continue, is_key};
ghost use Rattle.biblatex_content.specs.Verbatim.{is_verbatim_name};
ghost use Rattle.biblatex_fields.specs.Value.{field_value_view};
ghost use Rattle.biblatex_entries.specs.Entries.{source_view, sources_view};
ghost use Rattle.biblatex_entries.specs.TypeNames.{type_name, type_of, known_names};
ghost use Rattle.biblatex_writing.specs.Settled.{has_touching_hyphens, is_identifier, is_lowered_identifier, is_no_capital, is_same_type, is_settled_entry, is_settled_field, is_settled_key, is_settled_type, naming_fields, no_entries};
ghost use Rattle.biblatex_writing.specs.SettledNames.{passes, renamed_types};

use crate::settled_content::{has_single_hyphens, is_settled_content};
use biblatex_content::is_verbatim_field;
use biblatex_entries::{Entry, EntryType};
use biblatex_fields::{Chunks, Fields};
use biblatex_text::{is_id_continue, is_id_start, is_key};
use texts::{CharacterClass, has_text, split_first, split_run};

/// Characters that names and keys are made of.
#[derive(Clone, Copy)]
enum Part {
    Key,
    Identifier,
    NoCapital,
}

impl CharacterClass for Part {
    ghost passes = { passes };

    fn contains(self, c: char) -> bool {
        match self {
            Part::Key => is_key(c),
            Part::Identifier => is_id_continue(c),
            Part::NoCapital => !c.is_ascii_uppercase(),
        }
    }
}

/// Whether all characters of the text are of the class.
fn is_all(text: &str, part: Part) -> bool
    ensures { result ≡ list_all (passes part) (chars text.now) }
{
    let (_, rest) = split_run(text, part);
    !has_text(rest)
}

/// Whether the key is one that an entry in braces can have; it may be empty.
pub fn is_settled_key(key: &str) -> bool
    ensures { result ≡ is_settled_key (chars key.now) }
{
    is_all(key, Part::Key)
}

/// Whether the name is an identifier.
fn is_identifier(name: &str) -> bool
    ensures { result ≡ is_identifier (chars name.now) }
{
    match split_first(name) {
        Some((c, rest)) => is_id_start(c) && is_all(rest, Part::Identifier),
        None => false,
    }
}

/// Whether the name is an identifier without capitals of ASCII.
fn is_lowered_identifier(name: &str) -> bool
    ensures { result ≡ is_lowered_identifier (chars name.now) }
{
    is_identifier(name) && is_all(name, Part::NoCapital)
}

/// Whether the texts are equal.
fn is_same(one: &str, other: &str) -> bool
    ensures { result ≡ bytes_eq one.now other.now }
{
    one == other
}

/// Whether the name is one of these.
fn is_one_of(name: &str, names: &[&str]) -> bool
    ensures { result ≡ list_any (bytes_eq name.now) (map (λ other. other.now) names.now) }
{
    for other in names {
        if is_same(name, other) {
            return true;
        }
    }
    false
}

/// Whether items of the kind are no entries.
fn is_no_entry(kind: &str) -> bool
    ensures { result ≡ list_any (bytes_eq kind.now) no_entries }
{
    matches!(kind, "comment" | "preamble" | "string")
}

/// Whether the field of that name names entries.
pub fn names_entries(name: &str) -> bool
    ensures { result ≡ list_any (bytes_eq name.now) naming_fields }
{
    matches!(name, "ids" | "crossref" | "xdata")
}

/// Whether a type of that name is read as one of another name.
fn is_renamed(name: &str) -> bool
    ensures { result ≡ list_any (bytes_eq name.now) renamed_types }
{
    matches!(name, "conference" | "electronic" | "www")
}

/// The names of the types that have a variant of their own.
fn known_names() -> &'static [&'static str]
    ensures { map (λ name. name.now) result.now ≡ known_names }
{
    &[
        "article",
        "book",
        "booklet",
        "bookinbook",
        "collection",
        "dataset",
        "inbook",
        "incollection",
        "inproceedings",
        "inreference",
        "manual",
        "mastersthesis",
        "misc",
        "mvbook",
        "mvcollection",
        "mvproceedings",
        "mvreference",
        "online",
        "patent",
        "periodical",
        "phdthesis",
        "proceedings",
        "reference",
        "report",
        "set",
        "software",
        "suppbook",
        "suppcollection",
        "suppperiodical",
        "techreport",
        "thesis",
        "unpublished",
        "xdata",
    ]
}

/// Whether the type is what its name is read as.
fn is_read_as_itself(entry_type: &EntryType) -> bool
    ensures { result ≡ is_same_type
        (type_of (type_name entry_type.now).name) (type_name entry_type.now) }
{
    match entry_type {
        EntryType::Unknown(name) => is_unknown(name.as_str()),
        _ => true,
    }
}

/// Whether a type of that name is unknown, and not read under another name.
fn is_unknown(name: &str) -> bool
    ensures { result ≡ is_same_type
        (type_of name.now) (record { name = name.now; is_known = false }) }
{
    !is_renamed(name) && !is_one_of(name, known_names())
}

/// Whether the type is what its own name is read as, as the kind of an entry.
pub fn is_settled_type(entry_type: &EntryType) -> bool
    ensures { result ≡ is_settled_type (type_name entry_type.now) }
{
    let name = entry_type.name();
    is_lowered_identifier(name) && !is_no_entry(name) && is_read_as_itself(entry_type)
}

/// Whether the field reads back: it names no entries, its name is an identifier without capitals, and its content reads
/// back.
pub fn is_settled_field(name: &str, value: &Chunks) -> bool
    ensures { result ≡ is_settled_field (name.now, field_value_view value.now.items) }
{
    !names_entries(name)
        && is_lowered_identifier(name)
        && is_settled_content(value.as_slice(), is_verbatim_field(name))
}

/// Whether the field is ordinary, and two hyphens of one kind are neighbours in it, which are read as a dash.
pub fn has_touching_hyphens(name: &str, value: &Chunks) -> bool
    ensures { result ≡ has_touching_hyphens (name.now, field_value_view value.now.items) }
{
    !is_verbatim_field(name) && !has_single_hyphens(value.as_slice())
}

/// Whether all fields read back.
fn are_settled_fields(fields: &Fields) -> bool
    ensures { result ≡ list_all is_settled_field fields.now }
{
    for (name, value) in fields.iter() {
        if !is_settled_field(name.as_str(), value) {
            return false;
        }
    }
    true
}

/// Whether the entry reads back, where it has its key alone. Takes no memory.
pub fn is_settled_entry(entry: &Entry) -> bool
    ensures { result ≡ is_settled_entry (source_view entry.now) }
{
    is_settled_key(entry.key.as_str())
        && is_settled_type(&entry.entry_type)
        && are_settled_fields(&entry.fields)
}

/// Whether each of the entries reads back, where it has its key alone. Takes no memory.
pub fn are_each_settled(entries: &[Entry]) -> bool
    ensures { result ≡ list_all is_settled_entry (sources_view entries.now) }
{
    for entry in entries {
        if !is_settled_entry(entry) {
            return false;
        }
    }
    true
}

/// Whether an entry has that key.
pub fn has_key(entries: &[Entry], key: &str) -> bool
    ensures { result ≡ list_any (bytes_eq key.now)
        (map (λ e. e.key) (sources_view entries.now)) }
{
    for entry in entries {
        if is_same(key, entry.key.as_str()) {
            return true;
        }
    }
    false
}
