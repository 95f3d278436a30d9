//! Entries with their references resolved, made where they are asked for.

ghost use Rattle.std.specs.Prelude.{◌≡◌, ◌<◌, ℕ, List, map, IfOk, IfSome, None, Some, codes, length, slice_get, string_bytes, if◌then◌else◌};
ghost use Rattle.std.specs.Bool.{OnTrue};
ghost use Rattle.biblatex_entries.specs.Entries.{source_view};
ghost use Rattle.biblatex_entries.specs.TypeNames.{type_name};
ghost use Rattle.biblatex_inherited_fields.specs.Table.{is_among};
ghost use Rattle.biblatex_suppliers.specs.FieldNames.{field_name};
ghost use Rattle.biblatex_suppliers.specs.Written.{written_view};
ghost use Rattle.biblatex_suppliers.specs.Suppliers.{seen_by, seen, written_of, IsMadeAs};

use crate::made::{made_fields, named_fields};
use crate::names::FieldName;
use crate::seeing::known_at;
use crate::shared::Written;
use crate::supplier::Supplies;
use crate::written::{beside, entry_at, entry_there, stands_alone, written_in};
use biblatex_entries::Entry;
use biblatex_fields::Fields;
use std::alloc::{AllocError, Global};

/// The entry of a number, where it has nothing but its own fields, none beside it and no `xdata`, so that it need not be made.
pub fn whole_entry<'e>(
    entries: &'e Written,
    supplies: &[Supplies],
    number: usize,
) -> Option<&'e Entry>
    ensures { IfSome result (λ d. IsMadeAs (slice_get (written_view entries.now) number)
        (seen (written_view entries.now) supplies.now number) (source_view d.now)) }
{
    if !stands_alone(entries, number) {
        return None;
    }
    if is_whole(entries, supplies, number) {
        entry_at(entries, number)
    } else {
        None
    }
}

/// Whether the entry of a number has nothing but its own fields and no `xdata`.
fn is_whole(entries: &Written, supplies: &[Supplies], number: usize) -> bool
    ensures { OnTrue result ((name : List ℕ)
        → seen (written_view entries.now) supplies.now number name
        ≡ written_of (slice_get (written_view entries.now) number) name) }
{
    match known_at(supplies, number) {
        Some(known) => has_all(entries, known, number),
        None => false,
    }
}

/// The same of an entry that inherits this.
fn has_all(entries: &Written, known: &Supplies, number: usize) -> bool
    ensures { OnTrue result ((name : List ℕ)
        → seen_by (written_view entries.now) number (Some known.now) name
        ≡ written_of (slice_get (written_view entries.now) number) name) }
{
    if !known.suppliers.as_slice().is_empty() {
        return false;
    }
    if known.dated.date.is_some() {
        return false;
    }
    has_no_xdata(entries, number)
}

/// Whether there is an entry of that number, without `xdata`.
fn has_no_xdata(entries: &Written, number: usize) -> bool
    ensures { OnTrue result
        (written_of (slice_get (written_view entries.now) number) (codes "xdata") ≡ None) }
{
    match entry_at(entries, number) {
        Some(entry) => {
            written_in(entry, beside(entries.shared.as_slice(), number), "xdata").is_none()
        }
        None => false,
    }
}

/// The entry of a number with its references resolved.
pub fn made_entry(
    alloc: Global,
    entries: &Written,
    supplies: &[Supplies],
    number: usize,
) -> Result<Entry, AllocError>
    requires { number < length (written_view entries.now) }
    ensures { IfOk result (λ d. IsMadeAs (slice_get (written_view entries.now) number)
        (seen (written_view entries.now) supplies.now number) (source_view d)) }
{
    let fields = made_fields(alloc, entries, supplies, number)?;
    with_fields(entry_there(entries, number), fields)
}

/// The entry of a number with its references resolved, but with fields of these names alone.
pub fn named_entry(
    alloc: Global,
    entries: &Written,
    supplies: &[Supplies],
    number: usize,
    names: &[FieldName],
) -> Result<Entry, AllocError>
    requires { number < length (written_view entries.now) }
    ensures { IfOk result (λ d. IsMadeAs (slice_get (written_view entries.now) number)
        (λ name. if is_among (map field_name names.now) name
        then seen (written_view entries.now) supplies.now number name else None)
        (source_view d)) }
{
    let fields = named_fields(alloc, entries, supplies, number, names)?;
    with_fields(entry_there(entries, number), fields)
}

/// An entry of the key and the type of another one, with these fields.
fn with_fields(entry: &Entry, fields: Fields) -> Result<Entry, AllocError>
    ensures { IfOk result (λ d. source_view d ≡ record {
      key = string_bytes entry.now.key;
      entry_type = type_name entry.now.entry_type;
      fields = fields;
    }) }
{
    let key = entry.key.clone()?;
    let entry_type = entry.entry_type.clone()?;
    Ok(Entry {
        key,
        entry_type,
        fields,
    })
}
