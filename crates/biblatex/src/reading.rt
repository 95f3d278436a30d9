//! Reading the entries of a text, before their references are resolved.

ghost use Rattle.std.specs.Prelude.{◌≡◌, IfOk, Some, length, map, string_bytes};
ghost use Rattle.std.specs.Str.{chars};
ghost use Rattle.biblatex_text.specs.Views.{entry_view, piece_view, spanned_text_view};
ghost use Rattle.biblatex_fields.specs.Value.{field_value_view, value_in};
ghost use Rattle.biblatex_meaning.specs.Reading as specs;
ghost use Rattle.biblatex_meaning.specs.Reading.{refused_at, duplicate_key};
ghost use Rattle.biblatex.specs.Errors.{loaded_view, read_view, refusal_of};
ghost use Rattle.biblatex.specs.Loading.{with_names};
ghost use Rattle.laws.specs.Results.{Gives};

use crate::Bibliography;
use crate::naming::{first_repeated, last_of_each, sorted_names};
use biblatex_entries::Entry;
use biblatex_fields::{Abbreviations, Chunks, ParseError, ParseErrorKind, Spanned};
use biblatex_reading::{ReadEntries, read_entries};
use biblatex_text::{RawChunk, RawEntry};
use std::alloc::{AllocError, Global};

/// The entries of a text, found by their names, and of each its written key.
#[derive(Drop)]
pub(crate) struct Loaded<'s> {
    pub(crate) bibliography: Bibliography,
    pub(crate) keys: Vec<Spanned<&'s str>>,
}

/// The value of a field of that name, with abbreviations opened: what its pieces give, one after the other, tidied. A verbatim
/// field reads all of them as verbatim. Chunks stand where `Abbreviations::parse_field` says.
///
/// # Errors
/// `Refused` with the first fault in the order of pieces; `Memory` where a request for memory was refused.
pub fn parse_field<'s>(
    alloc: Global,
    key: &str,
    field: &[Spanned<RawChunk<'s>>],
    abbreviations: &Abbreviations<'_, 's>,
) -> Result<Chunks, ParseError>
    ensures { Gives refusal_of (λ v. field_value_view v.items) result
        (value_in abbreviations.now (chars key.now) (map piece_view field.now)) }
{
    abbreviations.parse_field(alloc, key, field)
}

/// The error that the key of an entry has a meaning already.
fn repeated(entry: &Entry, key: &Spanned<&str>) -> Result<ParseError, AllocError>
    ensures { IfOk result (λ e. refusal_of e ≡ Some (refused_at
        (spanned_text_view key.now) (duplicate_key (string_bytes entry.now.key)))) }
{
    Ok(ParseError::Refused {
        kind: ParseErrorKind::DuplicateKey(entry.key.clone()?),
        span: key.span.start..key.span.end,
    })
}

/// Reads all entries of a text. Their names are put in order once, when all entries are read; a key that has a meaning already is
/// refused before a fault of a later field.
pub(crate) fn load<'s>(
    alloc: Global,
    abbreviations: &Abbreviations<'_, 's>,
    entries: Vec<Spanned<RawEntry<'s>>>,
) -> Result<Loaded<'s>, ParseError>
    ensures { Gives refusal_of loaded_view result
        (specs.loaded abbreviations.now (map entry_view entries.entry.items)) }
{
    let read = read_entries(alloc, abbreviations, entries)?;
    with_names(alloc, read)
}

/// What entries that were read come to, once their names are put in order.
pub(crate) fn with_names<'s>(alloc: Global, read: ReadEntries<'s>) -> Result<Loaded<'s>, ParseError>
    requires { length (read_view read).entries ≡ length (read_view read).keys }
    ensures { Gives refusal_of loaded_view result (with_names (read_view read.entry)) }
{
    let ReadEntries {
        entries,
        keys,
        fault,
    } = read;
    let names = sorted_names(alloc, entries.as_slice())?;
    if let Some(number) = first_repeated(entries.as_slice(), names.as_slice()) {
        return Err(repeated(&entries[number], &keys[number])?);
    }
    if let Some(fault) = fault {
        return Err(fault);
    }
    let bibliography = Bibliography::of(entries, last_of_each(alloc, names)?);
    Ok(Loaded { bibliography, keys })
}
