//! Entries whose texts are as they are printed.

ghost use Rattle.std.specs.Prelude.{◌≡◌, true, slice_get, IfOk, IfSome, OnOk};
ghost use Rattle.biblatex_fields.specs.Fields.{AreJoined, named_fields_view};
ghost use Rattle.biblatex_entries.specs.Entries.{HaveJoinedFields, source_view};
ghost use Rattle.biblatex.specs.Bibliographies.{listed_view};
ghost use Rattle.biblatex_writing.specs.Settled.{have_distinct_keys};
ghost use Rattle.biblatex_typography.specs.Typography.{typographic_entry, typographic_file};
ghost use Rattle.biblatex_typography.specs.Changes.{changed_at, with_fields};

use crate::changes::changed_fields;
use biblatex::Bibliography;
use biblatex_content::Chunks;
use biblatex_entries::Entry;
use biblatex_fields::Fields;
use std::alloc::{AllocError, Global};

/// Sets each of these fields.
fn set_fields(fields: &mut Fields, changed: Vec<(String, Chunks)>) -> Result<(), AllocError>
    ensures { OnOk result (fields.new ≡ with_fields fields.old (named_fields_view changed.items)) }
{
    for (name, value) in changed {
        fields.insert(name, value)?;
    }
    Ok(())
}

/// Makes the texts of an entry what they are as they are printed.
fn change_entry(alloc: Global, entry: &mut Entry) -> Result<(), AllocError>
    requires { AreJoined entry.old.fields }
    ensures { OnOk result (source_view entry.new ≡ typographic_entry (source_view entry.old)) }
{
    let changed = changed_fields(alloc, &entry.fields)?;
    set_fields(&mut entry.fields, changed)
}

/// The same of the entry at an index, if there is one.
fn change_at(alloc: Global, file: &mut Bibliography, index: usize) -> Result<(), AllocError>
    requires { IfSome (slice_get file.old.entries index) (λ e. AreJoined e.fields) }
    ensures entries { OnOk result (file.new.entries ≡ changed_at index file.old.entries) }
    ensures names { OnOk result (file.new.names ≡ file.old.names) }
{
    match file.entry_mut(index) {
        Some(entry) => change_entry(alloc, entry),
        None => Ok(()),
    }
}

/// The entries with their texts as LaTeX prints them, where chunks are joined, as `Bibliography::parse` leaves them: of the apostrophes and
/// quotation marks as they are typed in fields that are not read verbatim, in braces too. Only texts with such marks are copied.
///
/// # Errors
/// Where a request for memory was refused.
pub fn typographic(alloc: Global, mut file: Bibliography) -> Result<Bibliography, AllocError>
    requires { HaveJoinedFields file.entries }
    ensures printed { IfOk result (λ b. listed_view b ≡ typographic_file (listed_view file)) }
    ensures distinct { have_distinct_keys (listed_view file).entries ≡ true
        → IfOk result (λ b. have_distinct_keys (listed_view b).entries ≡ true) }
{
    for index in 0..file.len() {
        change_at(alloc, &mut file, index)?;
    }
    Ok(file)
}
