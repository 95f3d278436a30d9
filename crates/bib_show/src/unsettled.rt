//! What keeps entries from reading back as they are written.

ghost use Rattle.std.specs.Prelude.{◌≡◌, None, IfOk, string_bytes};
ghost use Rattle.std.specs.Option.{option_map};
ghost use Rattle.std.specs.Str.{chars};
ghost use Rattle.biblatex.specs.Items.{raw_of};
ghost use Rattle.biblatex.specs.RawViews.{entry_view};
ghost use Rattle.biblatex.specs.Value.{field_value_view};
ghost use Rattle.biblatex.specs.Entries.{source_view, sources_view};
ghost use Rattle.bib_show.specs.Views.{borrowed_field_view};
ghost use Rattle.bib_show.specs.Unsettled.{field_fault, field_reason, first_unsettled, key_start, key_start_of, reason, unsettled_field, unsettled_reason, written_first};

use biblatex::{Chunks, Entry, Fields, RawBibliography, RawEntry, RawError, Spanned};
use biblatex_writing::{
    has_touching_hyphens, is_settled_entry, is_settled_field, is_settled_key, is_settled_type,
    names_entries, written_name,
};
use std::alloc::{AllocError, Global};

/// The first entry that does not read back, and its index.
pub(crate) fn first_unsettled(entries: &[Entry]) -> Option<(usize, &Entry)>
    ensures { option_map (λ p. (p.0, source_view p.1.now)) result
        ≡ first_unsettled 0 (sources_view entries.now) }
{
    for (index, entry) in entries.iter().enumerate() {
        if !is_settled_entry(entry) {
            return Some((index, entry));
        }
    }
    None
}

/// Why an entry does not read back: its type does not; or else its key; or else a field, of which the one is named that is
/// written first, and why.
pub(crate) fn unsettled_reason(alloc: Global, entry: &Entry) -> Result<String, AllocError>
    ensures { IfOk result (λ why. string_bytes why ≡ unsettled_reason (source_view entry.now)) }
{
    if !is_settled_type(&entry.entry_type) {
        return reason(alloc, "type", entry.entry_type.name());
    }
    if !is_settled_key(entry.key.as_str()) {
        return reason(alloc, "key", entry.key.as_str());
    }
    field_reason(alloc, unsettled_field(&entry.fields))
}

fn reason(alloc: Global, part: &str, name: &str) -> Result<String, AllocError>
    ensures { IfOk result (λ why. string_bytes why ≡ reason part.now name.now) }
{
    format!(in alloc; "unsettled {part} {name}")
}

/// Why a field does not read back, by its name and its content.
fn field_reason(alloc: Global, field: Option<(&str, &Chunks)>) -> Result<String, AllocError>
    ensures { IfOk result (λ why. string_bytes why ≡ field_reason
        (option_map borrowed_field_view field.entry)) }
{
    match field {
        Some((name, content)) => {
            let fault = field_fault(name, content);
            format!(in alloc; "unsettled field {name}{fault}")
        }
        None => reason(alloc, "field", ""),
    }
}

/// What is wrong with a field of that name and content which does not read back.
fn field_fault(name: &str, content: &Chunks) -> &'static str
    ensures { result.now ≡ field_fault (name.now, field_value_view content.now.items) }
{
    if names_entries(name) {
        ": names entries"
    } else if has_touching_hyphens(name, content) {
        ": two hyphens that touch are read as a dash"
    } else {
        ": is not read back"
    }
}

/// The field that is written first among those that do not read back.
fn unsettled_field(fields: &Fields) -> Option<(&str, &Chunks)>
    ensures { option_map borrowed_field_view result ≡ unsettled_field None fields.now }
{
    let mut found = None;
    for (name, content) in fields.iter() {
        if !is_settled_field(name.as_str(), content) {
            found = Some(written_first(found, (name.as_str(), content)));
        }
    }
    found
}

/// Of a field that was found, if one was, and another one, the one that is written first.
fn written_first<'f>(
    found: Option<(&'f str, &'f Chunks)>,
    field: (&'f str, &'f Chunks),
) -> (&'f str, &'f Chunks)
    ensures { borrowed_field_view result ≡ written_first
        (option_map borrowed_field_view found.entry) (borrowed_field_view field.entry) }
{
    match found {
        Some(found) => {
            if written_name(field.0) < written_name(found.0) {
                field
            } else {
                found
            }
        }
        None => field,
    }
}

/// The byte of the text at which the key of its entry at the index begins; 0 where there is none.
pub(crate) fn key_start(alloc: Global, text: &str, index: usize) -> Result<usize, AllocError>
    ensures { IfOk result (λ at. at ≡ key_start index (raw_of (chars text.now))) }
{
    match RawBibliography::parse(alloc, text) {
        Ok(raw) => Ok(key_start_of(raw.entries.get(index))),
        Err(RawError::Refused { .. }) => Ok(0),
        Err(RawError::Memory) => Err(AllocError),
    }
}

/// The byte at which the key of the entry begins; 0 where there is none.
fn key_start_of(entry: Option<&Spanned<RawEntry<'_>>>) -> usize
    ensures { result ≡ key_start_of (option_map (λ e. entry_view e.now) entry.entry) }
{
    match entry {
        Some(entry) => entry.v.key.span.start,
        None => 0,
    }
}
