//! Bib texts that are read as one, and what is said where they are refused.

ghost use Rattle.std.specs.Prelude.{◌≡◌, ◌++◌, [], true, ℕ, List, Ok, Some, codes, if◌then◌else◌, map, flat_map, IfOk, OnOk, string_bytes};
ghost use Rattle.std.specs.Str.{bytes_eq, chars};
ghost use Rattle.laws.specs.Text.{text as text_of};
ghost use Rattle.biblatex.specs.Bibliographies.{listed_view};
ghost use Rattle.biblatex.specs.Entries.{HaveJoinedFields};
ghost use Rattle.biblatex.specs.Errors.{reason_view};
ghost use Rattle.biblatex.specs.RawViews.{entry_view};
ghost use Rattle.biblatex_writing.specs.Settled.{have_distinct_keys};
ghost use Rattle.interop.specs.Library.{all_faults};
ghost use Rattle.interop.specs.Views.{fault_view};
ghost use Rattle.cite_requests.specs.Cited.{works_of};
ghost use Rattle.cite_requests.specs.Stages.{library_stage};
ghost use Rattle.cite_csl_styles.specs.Answers.{Answers, Returns};
ghost use Rattle.cite_csl_styles.specs.JoinedFaults.{IsAmong, lines_view};
ghost use Rattle.cite_csl_styles.specs.Sources as sources;
ghost use Rattle.cite_csl_styles.specs.Views.{sources_view};
ghost use Rattle.cite_csl.specs.Views.{ArePlaces, kept_at, works_view};
ghost use Rattle.cite_csl.specs.Works as specs;
ghost use Rattle.cite_csl.specs.Works.{AreWorks, bib_lines, said_by, typographic_stage};

use crate::entries::Entries;
use biblatex::{
    Bibliography, ParseError, ParseErrorKind, RawBibliography, RawEntry, RawError, Spanned,
};
use biblatex_typography::typographic;
use cite_csl_styles::{JoinedFaults, SourceFile, Stop, joined, lines_at, refused};
use interop::{BridgeError, FieldFault, check_dates};
use std::alloc::{AllocError, Global};
use std::collections::BTreeMap;

/// The byte at which the key of the first of some entries begins that has it, by the places of their keys.
fn key_place(places: &BTreeMap<&str, usize>, key: &str) -> Option<usize>
    ensures { result ≡ kept_at places.now key.now }
{
    places.get(key).copied()
}

/// Keeps a place for a key.
fn keep_place<'s>(
    places: &mut BTreeMap<&'s str, usize>,
    key: &'s str,
    place: usize,
) -> Result<(), AllocError>
    ensures { OnOk result ((other : List ℕ) → kept_at places.new other
        ≡ if bytes_eq (text_of (chars key.now)) other then Some place
        else kept_at places.old other) }
{
    places.insert(key, place)?;
    Ok(())
}

/// The byte at which each key of these entries begins that is there: at the first entry that has it, which is kept last.
fn key_places<'s>(
    alloc: Global,
    entries: &[Spanned<RawEntry<'s>>],
) -> Result<BTreeMap<&'s str, usize>, AllocError>
    ensures { IfOk result (λ m. ArePlaces m (map entry_view entries.now)) }
{
    let mut places = BTreeMap::new(alloc);
    let mut left = entries.len();
    while left > 0 {
        left -= 1;
        keep_place(
            &mut places,
            entries[left].v.key.v,
            entries[left].v.key.span.start,
        )?;
    }
    Ok(places)
}

/// The byte of a text at which the key of the first entry begins that has it.
fn place_in(alloc: Global, key: &str, text: &str) -> Result<Option<usize>, AllocError>
    ensures { IfOk result (λ p. p ≡ specs.place_in key.now text.now) }
{
    match RawBibliography::parse(alloc, text) {
        Ok(raw) => {
            let places = key_places(alloc, raw.entries.as_slice())?;
            Ok(key_place(&places, key))
        }
        Err(RawError::Refused { .. }) => Ok(None),
        Err(RawError::Memory) => Err(AllocError),
    }
}

/// What is said of the second place of a key: where the first one is.
fn first_lines(
    alloc: Global,
    files: &[SourceFile<'_>],
    key: &str,
    second: usize,
    first: Option<usize>,
) -> Result<String, AllocError>
    ensures { IfOk result (λ s. string_bytes s
        ≡ specs.first_lines (sources_view files.now) key.now second first) }
{
    let Some(at) = first else {
        return Ok(String::new(alloc));
    };
    if at == second {
        return Ok(String::new(alloc));
    }
    let why = format!(in alloc; "first entry of the key {key}")?;
    lines_at(alloc, files, at, why.as_str())
}

/// What is said besides of a text that is refused at a byte.
fn besides(
    alloc: Global,
    kind: &ParseErrorKind,
    at: usize,
    files: &[SourceFile<'_>],
    text: &str,
) -> Result<String, AllocError>
    ensures { text.now ≡ sources.joined (sources_view files.now)
        → IfOk result (λ s. string_bytes s
        ≡ specs.besides (sources_view files.now) at (reason_view kind.now)) }
{
    match kind {
        ParseErrorKind::DuplicateKey(key) => {
            let first = place_in(alloc, key.as_str(), text)?;
            first_lines(alloc, files, key.as_str(), at, first)
        }
        _ => Ok(String::new(alloc)),
    }
}

/// The lines for a text that is refused at a byte.
fn refused_lines(
    alloc: Global,
    files: &[SourceFile<'_>],
    text: &str,
    kind: &ParseErrorKind,
    at: usize,
) -> Result<String, AllocError>
    ensures { text.now ≡ sources.joined (sources_view files.now)
        → IfOk result (λ s. string_bytes s
        ≡ specs.refused_at (sources_view files.now) at (reason_view kind.now)) }
{
    let why = kind.to_string(alloc)?;
    let mut lines = lines_at(alloc, files, at, why.as_str())?;
    let more = besides(alloc, kind, at, files, text)?;
    lines.push_str(more.as_str())?;
    Ok(lines)
}

/// Appends the lines for something at the key of an entry.
fn push_key_lines(
    alloc: Global,
    files: &[SourceFile<'_>],
    why: &str,
    at: Option<usize>,
    lines: &mut JoinedFaults,
) -> Result<(), AllocError>
    requires { IsAmong (sources_view files.now) lines.old }
    ensures lines { OnOk result (lines_view lines.new
        ≡ lines_view lines.old ++ specs.key_lines (sources_view files.now) why.now at) }
    ensures place { OnOk result (IsAmong (sources_view files.now) lines.new) }
{
    match at {
        Some(at) => lines.push(alloc, files, at, why),
        None => lines.push_line(alloc, why),
    }
}

/// Appends the lines for a date that cannot be read, by the places of the keys of entries.
fn push_date_lines(
    alloc: Global,
    files: &[SourceFile<'_>],
    places: &BTreeMap<&str, usize>,
    fault: &FieldFault,
    lines: &mut JoinedFaults,
) -> Result<(), AllocError>
    requires { IsAmong (sources_view files.now) lines.old }
    ensures lines { OnOk result (lines_view lines.new ≡ lines_view lines.old
        ++ specs.key_lines (sources_view files.now)
        (codes "unreadable " ++ (fault_view fault.now).field)
        (kept_at places.now (fault_view fault.now).key)) }
    ensures place { OnOk result (IsAmong (sources_view files.now) lines.new) }
{
    let name = fault.field.name();
    let why = format!(in alloc; "unreadable {name}")?;
    let at = key_place(places, fault.key.as_str());
    push_key_lines(alloc, files, why.as_str(), at, lines)
}

/// The lines for dates that cannot be read, by the entries of the text.
fn date_lines_by(
    alloc: Global,
    files: &[SourceFile<'_>],
    entries: &[Spanned<RawEntry<'_>>],
    faults: &[FieldFault],
) -> Result<String, AllocError>
    ensures { IfOk result (λ s. string_bytes s ≡ flat_map
        (specs.date_lines (sources_view files.now) (map entry_view entries.now))
        (map fault_view faults.now)) }
{
    let places = key_places(alloc, entries)?;
    let mut lines = JoinedFaults::new(alloc);
    for fault in faults {
        push_date_lines(alloc, files, &places, fault, &mut lines)?;
    }
    Ok(lines.into_string())
}

/// The lines for dates that cannot be read.
fn date_lines(
    alloc: Global,
    files: &[SourceFile<'_>],
    text: &str,
    faults: &[FieldFault],
) -> Result<String, AllocError>
    ensures { IfOk result (λ s. string_bytes s
        ≡ specs.all_date_lines (sources_view files.now) text.now (map fault_view faults.now)) }
{
    match RawBibliography::parse(alloc, text) {
        Ok(raw) => date_lines_by(alloc, files, raw.entries.as_slice(), faults),
        Err(RawError::Refused { .. }) => date_lines_by(alloc, files, &[], faults),
        Err(RawError::Memory) => Err(AllocError),
    }
}

/// All dates of the entries of bib texts, which are read as one, can be read.
fn check_readable(
    alloc: Global,
    files: &[SourceFile<'_>],
    text: &str,
    file: &Bibliography,
) -> Result<(), Stop>
    ensures stage { text.now ≡ sources.joined (sources_view files.now)
        → Returns (λ _. works_of (listed_view file.now)) result
        (said_by (bib_lines (sources_view files.now)) (library_stage (listed_view file.now))) }
    ensures faults { OnOk result (all_faults (listed_view file.now).entries ≡ []) }
{
    match check_dates(alloc, file) {
        Ok(()) => Ok(()),
        Err(BridgeError::Memory) => Err(Stop::Memory),
        Err(BridgeError::Fields(faults)) => {
            Err(refused(date_lines(alloc, files, text, faults.as_slice())))
        }
    }
}

/// The entries of bib texts, which are read as one, with their texts as LaTeX prints them, unless some of their dates cannot be read.
fn checked(
    alloc: Global,
    files: &[SourceFile<'_>],
    text: &str,
    file: Bibliography,
) -> Result<Entries, Stop>
    requires joined { HaveJoinedFields file.entries }
    requires distinct { have_distinct_keys (listed_view file).entries ≡ true }
    ensures { text.now ≡ sources.joined (sources_view files.now)
        → Returns works_view result (said_by (bib_lines (sources_view files.now))
        (typographic_stage (listed_view file))) }
{
    let printed = typographic(alloc, file)?;
    check_readable(alloc, files, text, &printed)?;
    Ok(Entries { file: printed })
}

/// The entries of a text.
fn entries_in(alloc: Global, files: &[SourceFile<'_>], text: &str) -> Result<Entries, Stop>
    ensures { text.now ≡ sources.joined (sources_view files.now)
        → Answers works_view result (AreWorks (sources_view files.now)) }
{
    match Bibliography::parse(alloc, text) {
        Ok(file) => checked(alloc, files, text, file),
        Err(ParseError::Memory) => Err(Stop::Memory),
        Err(ParseError::Refused { kind, span }) => {
            Err(refused(refused_lines(alloc, files, text, &kind, span.start)))
        }
    }
}

/// The entries of the bytes of bib texts.
fn entries_in_bytes(alloc: Global, files: &[SourceFile<'_>], bytes: &[u8]) -> Result<Entries, Stop>
    ensures { bytes.now ≡ sources.joined (sources_view files.now)
        → Answers works_view result (AreWorks (sources_view files.now)) }
{
    match str::from_utf8(bytes) {
        Ok(text) => entries_in(alloc, files, text),
        Err(error) => Err(refused(lines_at(alloc, files, error.valid_up_to(), "not UTF-8"))),
    }
}

/// The entries of bib texts, which are read as one.
pub(crate) fn entries_of(alloc: Global, files: &[SourceFile<'_>]) -> Result<Entries, Stop>
    ensures { Answers works_view result (AreWorks (sources_view files.now)) }
{
    let bytes = joined(alloc, files)?;
    entries_in_bytes(alloc, files, bytes.as_slice())
}
