//! Where the fields of entries stand, their own ones and those that they inherit.

ghost use Rattle.std.specs.Prelude.{◌≡◌, Some, slice_get};
ghost use Rattle.std.specs.Option.{option_map};
ghost use Rattle.biblatex_inheritance.specs.Resolved.{with_date};
ghost use Rattle.biblatex_suppliers.specs.FieldNames.{field_name};
ghost use Rattle.biblatex_suppliers.specs.Suppliers.{supplied, undated_by, seen_by, seen};
ghost use Rattle.biblatex_suppliers.specs.Written.{written_view};

use crate::names::FieldName;
use crate::shared::Written;
use crate::supplier::{Supplier, Supplies, supplier_named};
use crate::written::has_own;
use biblatex_dates::Date;

/// What the entry of that number inherits, if it is known.
pub(crate) fn known_at(supplies: &[Supplies], number: usize) -> Option<&Supplies>
    ensures { option_map (λ s. s.now) result ≡ slice_get supplies.now number }
{
    supplies.get(number)
}

/// Where a field of the entry of a number stands, its inherited date aside.
fn undated_supplier(
    entries: &Written,
    known: &Supplies,
    number: usize,
    name: FieldName,
) -> Option<Supplier>
    ensures { option_map (supplied (written_view entries.now)) result
        ≡ undated_by (written_view entries.now) number known.now (field_name name) }
{
    if has_own(entries, number, name) {
        return Some(Supplier::Field(number, name));
    }
    supplier_named(known.suppliers.as_slice(), name.text())
}

/// The same of an entry that has inherited a date, which stands instead of its own date, year, month and day.
fn dated_supplier(
    entries: &Written,
    known: &Supplies,
    number: usize,
    date: Date,
    name: FieldName,
) -> Option<Supplier>
    ensures { option_map (supplied (written_view entries.now)) result
        ≡ with_date date (undated_by (written_view entries.now) number known.now)
        (field_name name) }
{
    match name {
        FieldName::Date => Some(Supplier::Date(date)),
        FieldName::Year | FieldName::Month | FieldName::Day => None,
        _ => undated_supplier(entries, known, number, name),
    }
}

/// Where a field of the entry of a number stands, which inherits this.
fn known_supplier(
    entries: &Written,
    known: &Supplies,
    number: usize,
    name: FieldName,
) -> Option<Supplier>
    ensures { option_map (supplied (written_view entries.now)) result
        ≡ seen_by (written_view entries.now) number (Some known.now) (field_name name) }
{
    match known.dated.date {
        Some(date) => dated_supplier(entries, known, number, date, name),
        None => undated_supplier(entries, known, number, name),
    }
}

/// Where a field of the entry of a number stands.
pub(crate) fn seen_supplier(
    entries: &Written,
    supplies: &[Supplies],
    number: usize,
    name: FieldName,
) -> Option<Supplier>
    ensures { option_map (supplied (written_view entries.now)) result
        ≡ seen (written_view entries.now) supplies.now number (field_name name) }
{
    match known_at(supplies, number) {
        Some(known) => known_supplier(entries, known, number, name),
        None => None,
    }
}
