//! Entries as a BibLaTeX file.

ghost use Rattle.std.specs.Prelude.{◌≡◌, IfErr, IfOk, OnErr, OnOk, Some, map, string_bytes};
ghost use Rattle.std.specs.Fmt.{WritesInCalls};
ghost use Rattle.std.specs.Io.KnownBytes.{Appends};
ghost use Rattle.std.specs.List.{AllByRecursion, flat_map};
ghost use Rattle.laws.specs.Counts.{next_count};
ghost use Rattle.sinks.specs.Sinks.{AppendsPrefix, HasFailed};
ghost use Rattle.biblatex_fields.specs.Fields.{named_fields_view};
ghost use Rattle.biblatex_fields.specs.Value.{field_value_view};
ghost use Rattle.biblatex_entries.specs.Entries.{source_view, sources_view};
ghost use Rattle.biblatex_writing.specs.FieldPieces.{WritesField};
ghost use Rattle.biblatex_writing.specs.Order.{field_there, moved, rows_after, rows_before};
ghost use Rattle.biblatex_writing.specs.MovedFields.{row_view};
ghost use Rattle.biblatex_writing.specs.Texts.{AreText, IsText};
ghost use Rattle.biblatex_writing.specs.Written.{in_written_order, written_entry, written_field, written_file};

use crate::content::push_content;
use crate::names::{Moved, comes_before, is_never_written, moved_fields, written_name};
use crate::target::StringTarget;
use biblatex_content::is_verbatim_field;
use biblatex_entries::Entry;
use biblatex_fields::{Chunks, Fields};
use sinks::{Sink, SinkFault, SinkTarget, Target};
use std::alloc::{AllocError, Global};

/// Writes a field: a line with its written name and its content in braces.
fn push_field<T: Target>(target: &mut T, name: &str, value: &Chunks)
    ensures { WritesInCalls T.takes target.old
        (written_field (name.now, field_value_view value.now.items)) target.new }
{
    target.push_str(written_name(name));
    target.push_str(" = {");
    push_content(target, is_verbatim_field(name), value.as_slice());
    target.push_str("},\n");
}

/// Writes the field of that name, where there is one.
fn push_there<T: Target>(target: &mut T, fields: &Fields, name: &str)
    ensures { WritesInCalls T.takes target.old
        (flat_map written_field (field_there name.now fields.now)) target.new }
{
    if let Some(value) = fields.get(name) {
        push_field(target, name, value);
    }
}

/// Writes the moved fields of the rows.
fn push_moved<T: Target>(target: &mut T, fields: &Fields, rows: &[Moved])
    ensures { WritesInCalls T.takes target.old
        (flat_map written_field (moved (map row_view rows.now) fields.now)) target.new }
{
    let mut rest = rows;
    while let Some((row, others)) = rest.split_first() {
        push_there(target, fields, row.name());
        rest = others;
    }
}

/// Writes the moved fields of the rows that come before the name, and returns the rows that are left.
fn push_before<'r, T: Target>(
    target: &mut T,
    fields: &Fields,
    rows: &'r [Moved],
    name: &str,
) -> &'r [Moved]
    ensures written { WritesInCalls T.takes target.old (flat_map written_field
        (moved (rows_before name.now (map row_view rows.now)) fields.now)) target.new }
    ensures rest { map row_view result.now ≡ rows_after name.now (map row_view rows.now) }
{
    let mut rest = rows;
    while let Some((row, others)) = rest.split_first() {
        if !comes_before(*row, name) {
            return rest;
        }
        push_there(target, fields, row.name());
        rest = others;
    }
    rest
}

/// Writes the field of the name and the value at its place, where the moved fields of the rows are not written yet, and
/// returns the rows that are left: those before it are written first, and a moved field is passed over.
fn push_next<'r, T: Target>(
    target: &mut T,
    fields: &Fields,
    rows: &'r [Moved],
    name: &str,
    value: &Chunks,
) -> &'r [Moved]
    ensures { WritesField T.takes fields.now target.old (map row_view rows.now)
        (name.now, field_value_view value.now.items) target.new (map row_view result.now) }
{
    if is_never_written(name) {
        return rows;
    }
    let rest = push_before(target, fields, rows, name);
    push_field(target, name, value);
    rest
}

/// Writes the fields in the order of written names: the fields are in the order of their own names, and the moved ones are
/// looked up where their written names come.
fn push_fields<T: Target>(target: &mut T, fields: &Fields)
    ensures written { WritesInCalls T.takes target.old
        (flat_map written_field (in_written_order fields.now)) target.new }
    ensures text { AreText fields.now }
{
    let mut rows = moved_fields();
    for (name, value) in fields.iter() {
        rows = push_next(target, fields, rows, name.as_str(), value);
    }
    push_moved(target, fields, rows);
}

/// Writes an entry: its type and key, its fields, and a line that closes it.
fn push_entry<T: Target>(target: &mut T, entry: &Entry)
    ensures written { WritesInCalls T.takes target.old
        (written_entry (source_view entry.now)) target.new }
    ensures text { IsText (source_view entry.now) }
{
    target.push_str("@");
    target.push_str(entry.entry_type.written_name());
    target.push_str("{");
    target.push_str(entry.key.as_str());
    target.push_str(",\n");
    push_fields(target, &entry.fields);
    target.push_str("}\n");
}

/// Writes entries in their order, with an empty line between them.
fn push_entries<T: Target>(target: &mut T, entries: &[Entry])
    ensures written { WritesInCalls T.takes target.old
        (written_file (sources_view entries.now)) target.new }
    ensures text { AllByRecursion IsText (sources_view entries.now) }
{
    let Some((first, others)) = entries.split_first() else {
        return;
    };
    push_entry(target, first);
    for entry in others {
        target.push_str("\n");
        push_entry(target, entry);
    }
}

/// Writes the entries as a BibLaTeX file. Types and names of fields are those that such files are written with, fields are
/// in the order of these names, and an empty line parts entries. Takes no memory. A call of `write` that fails or takes
/// nothing ends it and is not tried again: the sink has then taken a prefix of the file.
pub fn write_entries<W: Sink>(entries: &[Entry], sink: &mut W) -> Result<(), SinkFault>
    ensures ok { OnOk result (Appends (W.contents sink.old) (W.contents sink.new)
        (written_file (sources_view entries.now))) }
    ensures err { OnErr result (AppendsPrefix (W.contents sink.old) (W.contents sink.new)
        (written_file (sources_view entries.now))) }
    ensures cause { OnErr result (HasFailed (W.failures sink.old) (W.failures sink.new)) }
    // No call failed; or the last one did, and none was tried after it.
    ensures quiet { OnOk result (W.failures sink.new ≡ W.failures sink.old) }
    ensures once { OnErr result (W.failures sink.new ≡ next_count (W.failures sink.old)) }
    ensures fault { IfErr result (λ e. W.last_fault sink.new ≡ Some e) }
    // Keys, types, names and contents are made of characters, whether or not all was written.
    ensures text { AllByRecursion IsText (sources_view entries.now) }
{
    let mut target = SinkTarget::new(sink);
    push_entries(&mut target, entries);
    target.result()
}

/// The entries as a BibLaTeX file.
pub fn entries_text(alloc: Global, entries: &[Entry]) -> Result<String, AllocError>
    ensures file { IfOk result (λ s. string_bytes s ≡ written_file (sources_view entries.now)) }
    ensures text { AllByRecursion IsText (sources_view entries.now) }
{
    let mut target = StringTarget::new(alloc);
    push_entries(&mut target, entries);
    target.into_text()
}
