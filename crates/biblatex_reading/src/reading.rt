//! Reading the entries of a text, each alone.

ghost use Rattle.std.specs.Prelude.{◌≡◌, IfOk, IfErr, None, map};
ghost use Rattle.biblatex_text.specs.Views.{entry_view, raw_entry_view};
ghost use Rattle.biblatex_fields.specs.Errors.{refusal_of};
ghost use Rattle.biblatex_entries.specs.Entries.{source_view};
ghost use Rattle.biblatex_reading.specs.Reading.{entry_read, source_of, up_to_fault};
ghost use Rattle.biblatex_reading.specs.Views.{read_view};
ghost use Rattle.laws.specs.Results.{Gives};

use biblatex_entries::{Entry, EntryType};
use biblatex_fields::{Abbreviations, Fields, ParseError, Spanned, read_fields};
use biblatex_text::RawEntry;
use std::alloc::{AllocError, Global};
use texts::owned;

/// Entries that were read up to the first fault of a field, of each its written key, and that fault.
#[derive(Drop)]
pub struct ReadEntries<'s> {
    /// The entries.
    pub entries: Vec<Entry>,
    /// Of each its key, as it is written.
    pub keys: Vec<Spanned<&'s str>>,
    /// The first fault of a field.
    pub fault: Option<ParseError>,
}

/// The entry of these fields.
fn entry_of(alloc: Global, raw: &RawEntry, fields: Fields) -> Result<Entry, AllocError>
    ensures { IfOk result (λ e. source_view e ≡ source_of (raw_entry_view raw.now) fields) }
{
    let key = owned(alloc, raw.key.v)?;
    let entry_type = EntryType::new(alloc, raw.kind.v)?;
    Ok(Entry {
        key,
        entry_type,
        fields,
    })
}

/// The entry that is written there.
///
/// # Errors
/// The first fault of its fields; `Memory` where a request for memory was refused.
pub fn read_entry(
    alloc: Global,
    abbreviations: &Abbreviations<'_, '_>,
    raw: &RawEntry,
) -> Result<Entry, ParseError>
    ensures { Gives refusal_of source_view result
        (entry_read abbreviations.now (raw_entry_view raw.now)) }
{
    let fields = read_fields(alloc, abbreviations, raw)?;
    Ok(entry_of(alloc, raw, fields)?)
}

/// Reads the entries of a text up to the first fault of a field.
///
/// # Errors
/// `Memory` where a request for memory was refused.
pub fn read_entries<'s>(
    alloc: Global,
    abbreviations: &Abbreviations<'_, 's>,
    raws: Vec<Spanned<RawEntry<'s>>>,
) -> Result<ReadEntries<'s>, ParseError>
    ensures ok { IfOk result (λ r. read_view r
        ≡ up_to_fault abbreviations.now (map entry_view raws.entry.items)) }
    ensures err { IfErr result (λ e. refusal_of e ≡ None) }
{
    let mut entries = Vec::with_capacity(alloc, raws.len())?;
    let mut keys = Vec::with_capacity(alloc, raws.len())?;
    for raw in raws {
        match read_entry(alloc, abbreviations, &raw.v) {
            Ok(entry) => {
                entries.push(entry)?;
                keys.push(raw.v.key)?;
            }
            Err(ParseError::Memory) => return Err(ParseError::Memory),
            Err(ParseError::Refused { kind, span }) => {
                let fault = Some(ParseError::Refused { kind, span });
                return Ok(ReadEntries {
                    entries,
                    keys,
                    fault,
                });
            }
        }
    }
    let fault = None;
    Ok(ReadEntries {
        entries,
        keys,
        fault,
    })
}
