//! The texts of fields that entries have or inherit.

ghost use Rattle.std.specs.Prelude.{◌≡◌, IfOk, slice_get};
ghost use Rattle.laws.specs.Text.{characters};
ghost use Rattle.biblatex_content.specs.Styled.{plain};
ghost use Rattle.biblatex_inheritance.specs.Resolved.{characters_at, date_value};
ghost use Rattle.biblatex_suppliers.specs.FieldNames.{field_name};
ghost use Rattle.biblatex_suppliers.specs.Suppliers.{own_of, or_nothing, supplied, seen};
ghost use Rattle.biblatex_suppliers.specs.Written.{written_view};

use crate::names::FieldName;
use crate::seeing::seen_supplier;
use crate::shared::Written;
use crate::supplier::{Supplier, Supplies};
use crate::written::own_value;
use biblatex_dates::Date;
use biblatex_entries::value_text;
use biblatex_inheritance::text_of_date;
use std::alloc::{AllocError, Global};
use texts::empty_text;

/// The text of a field of the entry of a number; empty where it has none.
pub(crate) fn seen_text(
    alloc: Global,
    entries: &Written,
    supplies: &[Supplies],
    number: usize,
    name: FieldName,
) -> Result<String, AllocError>
    ensures { IfOk result (λ s. characters s
        ≡ characters_at (seen (written_view entries.now) supplies.now number) (field_name name)) }
{
    match seen_supplier(entries, supplies, number, name) {
        Some(supplier) => supplied_text(alloc, entries, supplier),
        None => Ok(empty_text(alloc)),
    }
}

/// The text of the value that stands there.
fn supplied_text(alloc: Global, entries: &Written, supplier: Supplier) -> Result<String, AllocError>
    ensures { IfOk result (λ s. characters s
        ≡ plain (supplied (written_view entries.now) supplier).text) }
{
    match supplier {
        Supplier::Field(number, name) => own_text(alloc, entries, number, name),
        Supplier::Date(date) => date_text(alloc, date),
    }
}

/// The text of a field of the entry of a number as it is written; empty where it has none.
fn own_text(
    alloc: Global,
    entries: &Written,
    number: usize,
    name: FieldName,
) -> Result<String, AllocError>
    ensures { IfOk result (λ s. characters s ≡ plain (or_nothing
        (own_of (slice_get (written_view entries.now) number) (field_name name))).text) }
{
    match own_value(entries, number, name) {
        Some(value) => value_text(alloc, value.as_slice()),
        None => Ok(empty_text(alloc)),
    }
}

/// The text of a date, without its time.
fn date_text(alloc: Global, date: Date) -> Result<String, AllocError>
    ensures { IfOk result (λ s. characters s ≡ plain (date_value date).text) }
{
    let date = date.without_time();
    text_of_date(alloc, &date)
}
