//! A BibLaTeX file to a text without references.

ghost use Rattle.std.specs.Prelude.{◌≡◌, ◌&&◌, IfOk, IfSome, string_bytes};
ghost use Rattle.std.specs.List.{list_all};
ghost use Rattle.std.specs.Option.{option_map};
ghost use Rattle.laws.specs.Results.{Answers};
ghost use Rattle.biblatex.specs.Entries.{source_view, sources_view};
ghost use Rattle.biblatex.specs.Errors.{refusal_of};
ghost use Rattle.biblatex.specs.Fields.{AreInOrder};
ghost use Rattle.biblatex_writing.specs.Settled.{is_settled};
ghost use Rattle.cite_uses.specs.Flattened.{has_other, is_alone, is_written_apart, HaveTheSameVerdicts, IsFlattening};

use biblatex::{Bibliography, Entry, Fields, ParseError};
use biblatex_writing::other_name;
use std::alloc::Global;

/// What a BibLaTeX file says, as a file without references, for tools that do not follow them: each document has the same output with this
/// file as with the first, or the same refusal. None where the entries would not read back without `crossref`, or where one has two fields
/// that are written under one name, as `journal` and `journaltitle`.
///
/// # Errors
/// Why the file is refused; `Memory` where a request for memory was refused.
pub fn flattened_file(alloc: Global, bib: &str) -> Result<Option<String>, ParseError>
    // It is the text that is written of the entries without `crossref`, exactly where these are settled and written apart.
    ensures text { Answers refusal_of (option_map (λ s. string_bytes s)) result
        (IsFlattening bib.now) }
    // Outputs and refusals are the same with this text, whatever document, style, locale, sections and format.
    ensures same { IfOk result (λ found. IfSome found (λ s.
        HaveTheSameVerdicts bib.now (string_bytes s))) }
{
    let mut file = Bibliography::parse(alloc, bib)?;
    file.flatten();
    if !reads_back(&file) {
        return Ok(None);
    }
    Ok(Some(file.to_biblatex_string(alloc)?))
}

/// Whether what is written of the entries reads back as entries that say the same.
fn reads_back(file: &Bibliography) -> bool
    ensures { result ≡ (is_settled file.now.entries
        && list_all is_written_apart file.now.entries) }
{
    file.is_settled() && are_written_apart(file.entries())
}

/// Whether no entry has two fields that are written under one name.
fn are_written_apart(entries: &[Entry]) -> bool
    ensures { result ≡ list_all is_written_apart (sources_view entries.now) }
{
    for entry in entries {
        if !is_written_apart(entry) {
            return false;
        }
    }
    true
}

/// Whether no two fields of an entry are written under one name.
fn is_written_apart(entry: &Entry) -> bool
    ensures { result ≡ is_written_apart (source_view entry.now) }
{
    are_alone(&entry.fields)
}

/// Whether no field has the other name of another one.
fn are_alone(fields: &Fields) -> bool
    ensures value { result ≡ list_all (is_alone fields.now) fields.now }
    ensures order { AreInOrder fields.now }
{
    for (name, _) in fields.iter() {
        if has_other(fields, name.as_str()) {
            return false;
        }
    }
    true
}

/// Whether a field has the other name under which a field of this name may be read.
fn has_other(fields: &Fields, name: &str) -> bool
    ensures { result ≡ has_other fields.now name.now }
{
    match other_name(name) {
        Some(other) => fields.get(other).is_some(),
        None => false,
    }
}
