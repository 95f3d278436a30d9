//! Reading the entries of a text with fields beside them, so that a long value that many fields have is held once.

ghost use Rattle.std.specs.Prelude.{◌≡◌, ◌++◌, ◌∷◌, [], length, map, IfErr, IfOk, None, OnOk};
ghost use Rattle.biblatex_text.specs.Views.{entry_view};
ghost use Rattle.biblatex_entries.specs.Entries.{source_view, sources_view};
ghost use Rattle.biblatex_suppliers.specs.Written.{all_with, said};
ghost use Rattle.biblatex_meaning.specs.Reading as specs;
ghost use Rattle.biblatex_meaning.specs.Reading.{up_to_fault};
ghost use Rattle.biblatex.specs.Errors.{refusal_of};
ghost use Rattle.biblatex.specs.Loading.{apart_view, loaded_apart_view, AreApart};
ghost use Rattle.laws.specs.Results.{Gives};

use crate::Bibliography;
use crate::reading::with_names;
use biblatex_entries::Entry;
use biblatex_fields::{Abbreviations, ParseError, Spanned};
use biblatex_reading::{ReadEntries, read_entry};
use biblatex_suppliers::{Known, Shared, set_aside};
use biblatex_text::RawEntry;
use std::alloc::{AllocError, Global};
use std::collections::BTreeMap;

/// Entries that were read up to the first fault of a field, and the fields beside each.
#[derive(Drop)]
pub(crate) struct ReadApart<'s> {
    pub(crate) read: ReadEntries<'s>,
    pub(crate) shared: Vec<Vec<Shared>>,
}

/// The entries of a text, found by their names, the fields beside each, and of each its written key.
#[derive(Drop)]
pub(crate) struct LoadedApart<'s> {
    pub(crate) bibliography: Bibliography,
    pub(crate) shared: Vec<Vec<Shared>>,
    pub(crate) keys: Vec<Spanned<&'s str>>,
}

/// Puts an entry last, with its long values beside it.
fn push_apart(
    alloc: Global,
    known: &mut Known,
    raw: &RawEntry,
    mut entry: Entry,
    entries: &mut Vec<Entry>,
    shared: &mut Vec<Vec<Shared>>,
) -> Result<(), AllocError>
    requires long { length (sources_view entries.old.items) ≡ length shared.old.items }
    requires same { map said (sources_view entries.old.items)
        ≡ map said (all_with (sources_view entries.old.items) shared.old.items) }
    ensures long { OnOk result
        (length (sources_view entries.new.items) ≡ length shared.new.items) }
    ensures same { OnOk result (map said (sources_view entries.new.items)
        ≡ map said (all_with (sources_view entries.new.items) shared.new.items)) }
    ensures last { OnOk result (all_with (sources_view entries.new.items) shared.new.items
        ≡ all_with (sources_view entries.old.items) shared.old.items ++ source_view entry ∷ []) }
{
    let beside = set_aside(alloc, known, raw, &mut entry)?;
    entries.push(entry)?;
    shared.push(beside)?;
    Ok(())
}

/// Reads the entries of a text up to the first fault of a field, each with its long values beside it.
///
/// # Errors
/// `Memory` where a request for memory was refused.
fn read_apart<'s>(
    alloc: Global,
    abbreviations: &Abbreviations<'_, 's>,
    raws: Vec<Spanned<RawEntry<'s>>>,
) -> Result<ReadApart<'s>, ParseError>
    ensures ok { IfOk result (λ r. apart_view r
        ≡ up_to_fault abbreviations.now (map entry_view raws.entry.items)) }
    ensures long { IfOk result (λ r.
        length (sources_view r.read.entries.items) ≡ length r.shared.items) }
    ensures same { IfOk result (λ r. map said (sources_view r.read.entries.items)
        ≡ map said (all_with (sources_view r.read.entries.items) r.shared.items)) }
    ensures err { IfErr result (λ e. refusal_of e ≡ None) }
{
    let mut known = BTreeMap::new(alloc);
    let mut entries = Vec::with_capacity(alloc, raws.len())?;
    let mut shared = Vec::with_capacity(alloc, raws.len())?;
    let mut keys = Vec::with_capacity(alloc, raws.len())?;
    for raw in raws {
        match read_entry(alloc, abbreviations, &raw.v) {
            Ok(entry) => {
                push_apart(alloc, &mut known, &raw.v, entry, &mut entries, &mut shared)?;
                keys.push(raw.v.key)?;
            }
            Err(ParseError::Memory) => return Err(ParseError::Memory),
            Err(ParseError::Refused { kind, span }) => {
                let fault = Some(ParseError::Refused { kind, span });
                let read = ReadEntries {
                    entries,
                    keys,
                    fault,
                };
                return Ok(ReadApart { read, shared });
            }
        }
    }
    let fault = None;
    let read = ReadEntries {
        entries,
        keys,
        fault,
    };
    Ok(ReadApart { read, shared })
}

/// Reads all entries of a text as `load` does, each with its long values beside it.
pub(crate) fn load_apart<'s>(
    alloc: Global,
    abbreviations: &Abbreviations<'_, 's>,
    entries: Vec<Spanned<RawEntry<'s>>>,
) -> Result<LoadedApart<'s>, ParseError>
    ensures read { Gives refusal_of loaded_apart_view result
        (specs.loaded abbreviations.now (map entry_view entries.entry.items)) }
    ensures apart { IfOk result (λ l. AreApart l.bibliography.entries l.shared.items) }
{
    let ReadApart { read, shared } = read_apart(alloc, abbreviations, entries)?;
    match with_names(alloc, read) {
        Ok(loaded) => Ok(LoadedApart {
            bibliography: loaded.bibliography,
            shared,
            keys: loaded.keys,
        }),
        Err(error) => Err(error),
    }
}
