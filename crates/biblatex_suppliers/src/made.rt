//! The fields of entries, made where an entry is asked for.

ghost use Rattle.std.specs.Prelude.{◌≡◌, map, IfOk, OnOk, None, Some, slice_get, if◌then◌else◌};
ghost use Rattle.std.specs.Str.{bytes_eq};
ghost use Rattle.biblatex_fields.specs.Fields.{value_named};
ghost use Rattle.biblatex_fields.specs.Value.{field_value_view};
ghost use Rattle.biblatex_inherited_fields.specs.Table.{is_among};
ghost use Rattle.biblatex_inheritance.specs.Resolved.{dated, without_xdata};
ghost use Rattle.biblatex_inheritance.specs.Views.{IsTable, PassesOn, table_view};
ghost use Rattle.biblatex_suppliers.specs.FieldNames.{field_name};
ghost use Rattle.biblatex_suppliers.specs.Suppliers.{own_of, or_nothing, supplied, supplied_fields, seen_by, seen};
ghost use Rattle.biblatex_suppliers.specs.Written.{shared_named, with_shared, written_view};

use crate::names::FieldName;
use crate::seeing::{known_at, seen_supplier};
use crate::shared::{Shared, Written};
use crate::supplier::{Supplied, Supplier, Supplies};
use crate::written::{beside, entry_at, own_value};
use biblatex_content::Chunks;
use biblatex_dates::Date;
use biblatex_fields::Fields;
use biblatex_inheritance::{date_value, set_date};
use biblatex_inherited_fields::{copied_value, put_lacking};
use std::alloc::{AllocError, Global};

/// The fields of the entry of a number: its own ones without `xdata`, those that it inherits, and its inherited date.
pub(crate) fn made_fields(
    alloc: Global,
    entries: &Written,
    supplies: &[Supplies],
    number: usize,
) -> Result<Fields, AllocError>
    ensures { IfOk result (λ f.
        IsTable f (seen (written_view entries.now) supplies.now number)) }
{
    match known_at(supplies, number) {
        Some(known) => known_fields(alloc, entries, known, number),
        None => Ok(Fields::new(alloc)),
    }
}

/// The fields of the entry of a number, which inherits this.
fn known_fields(
    alloc: Global,
    entries: &Written,
    known: &Supplies,
    number: usize,
) -> Result<Fields, AllocError>
    ensures { IfOk result (λ f.
        IsTable f (seen_by (written_view entries.now) number (Some known.now))) }
{
    let mut fields = own_fields(alloc, entries, number)?;
    put_all(alloc, entries, known.suppliers.as_slice(), &mut fields)?;
    put_date(alloc, known.dated.date, &mut fields)?;
    Ok(fields)
}

/// The fields of the entry of a number as they are written, without `xdata`.
fn own_fields(alloc: Global, entries: &Written, number: usize) -> Result<Fields, AllocError>
    ensures { IfOk result (λ f.
        IsTable f (own_of (slice_get (written_view entries.now) number))) }
{
    match entry_at(entries, number) {
        Some(entry) => copied_fields(
            alloc,
            &entry.fields,
            beside(entries.shared.as_slice(), number),
        ),
        None => Ok(Fields::new(alloc)),
    }
}

/// Copies of the fields, with those beside them, and without `xdata`.
fn copied_fields(alloc: Global, from: &Fields, shared: &[Shared]) -> Result<Fields, AllocError>
    ensures { IfOk result (λ f.
        IsTable f (without_xdata (table_view (with_shared from.now shared.now)))) }
{
    let mut fields = Fields::new(alloc);
    copy_shared(alloc, shared, &mut fields)?;
    copy_all(alloc, from, &mut fields)?;
    fields.remove("xdata");
    Ok(fields)
}

/// Adds copies of fields that stand beside an entry, as far as they are lacking.
fn copy_shared(alloc: Global, shared: &[Shared], fields: &mut Fields) -> Result<(), AllocError>
    ensures { OnOk result
        (PassesOn fields.old fields.new (λ name. shared_named name shared.now)) }
{
    for field in shared {
        put_lacking(alloc, fields, field.name.as_str(), field.value.as_ref())?;
    }
    Ok(())
}

/// Adds copies of all fields that are lacking.
fn copy_all(alloc: Global, from: &Fields, fields: &mut Fields) -> Result<(), AllocError>
    ensures { OnOk result (PassesOn fields.old fields.new (table_view from.now)) }
{
    for (name, value) in from.iter() {
        put_lacking(alloc, fields, name.as_str(), value)?;
    }
    Ok(())
}

/// Adds the fields that an entry inherits, as far as they are lacking.
fn put_all(
    alloc: Global,
    entries: &Written,
    suppliers: &[Supplied],
    fields: &mut Fields,
) -> Result<(), AllocError>
    ensures { OnOk result (PassesOn fields.old fields.new (λ name.
        value_named name (supplied_fields (written_view entries.now) suppliers.now))) }
{
    for supplied in suppliers {
        put_inherited(alloc, entries, supplied, fields)?;
    }
    Ok(())
}

/// Adds a field that an entry inherits, unless there is one of its name.
fn put_inherited(
    alloc: Global,
    entries: &Written,
    inherited: &Supplied,
    fields: &mut Fields,
) -> Result<(), AllocError>
    ensures { OnOk result (PassesOn fields.old fields.new (λ name.
        if bytes_eq name (field_name inherited.now.name)
        then Some (supplied (written_view entries.now) inherited.now.supplier) else None)) }
{
    put_supplied(
        alloc,
        entries,
        inherited.name.text(),
        inherited.supplier,
        fields,
    )
}

/// Adds a field with the value that stands there, unless there is one of its name.
fn put_supplied(
    alloc: Global,
    entries: &Written,
    wanted: &str,
    supplier: Supplier,
    fields: &mut Fields,
) -> Result<(), AllocError>
    ensures { OnOk result (PassesOn fields.old fields.new (λ name. if bytes_eq name wanted.now
        then Some (supplied (written_view entries.now) supplier) else None)) }
{
    if fields.get(wanted).is_some() {
        return Ok(());
    }
    fields.insert(
        String::from_str(alloc, wanted)?,
        supplied_value(alloc, entries, supplier)?,
    )
}

/// A copy of the value that stands there.
fn supplied_value(
    alloc: Global,
    entries: &Written,
    supplier: Supplier,
) -> Result<Chunks, AllocError>
    ensures { IfOk result (λ v. field_value_view v.items
        ≡ supplied (written_view entries.now) supplier) }
{
    match supplier {
        Supplier::Field(number, name) => own_copied(alloc, entries, number, name),
        Supplier::Date(date) => date_value(alloc, date),
    }
}

/// A copy of the value of a field of the entry of a number as it is written; without chunks where it has none.
fn own_copied(
    alloc: Global,
    entries: &Written,
    number: usize,
    name: FieldName,
) -> Result<Chunks, AllocError>
    ensures { IfOk result (λ v. field_value_view v.items
        ≡ or_nothing (own_of (slice_get (written_view entries.now) number) (field_name name))) }
{
    match own_value(entries, number, name) {
        Some(value) => copied_value(alloc, value),
        None => Ok(Vec::new(alloc)),
    }
}

/// Replaces the date, year, month and day of the fields by a date, without its time, if there is one.
fn put_date(alloc: Global, date: Option<Date>, fields: &mut Fields) -> Result<(), AllocError>
    ensures { OnOk result (IsTable fields.new (dated date (table_view fields.old))) }
{
    match date {
        Some(date) => set_date(alloc, fields, date),
        None => Ok(()),
    }
}

/// Those of the fields of the entry of a number that have these names.
pub(crate) fn named_fields(
    alloc: Global,
    entries: &Written,
    supplies: &[Supplies],
    number: usize,
    names: &[FieldName],
) -> Result<Fields, AllocError>
    ensures { IfOk result (λ f. IsTable f (λ name. if is_among (map field_name names.now) name
        then seen (written_view entries.now) supplies.now number name else None)) }
{
    let mut fields = Fields::new(alloc);
    for name in names {
        put_seen(alloc, entries, supplies, number, *name, &mut fields)?;
    }
    Ok(fields)
}

/// Adds the field of a name of the entry of a number, if it has it and it is lacking.
fn put_seen(
    alloc: Global,
    entries: &Written,
    supplies: &[Supplies],
    number: usize,
    wanted: FieldName,
    fields: &mut Fields,
) -> Result<(), AllocError>
    ensures { OnOk result (PassesOn fields.old fields.new (λ name.
        if bytes_eq name (field_name wanted)
        then seen (written_view entries.now) supplies.now number (field_name wanted)
        else None)) }
{
    match seen_supplier(entries, supplies, number, wanted) {
        Some(supplier) => put_supplied(alloc, entries, wanted.text(), supplier, fields),
        None => Ok(()),
    }
}
