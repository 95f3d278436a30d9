//! What an entry is once its references are resolved.

ghost use Rattle.std.specs.Prelude.{◌≡◌, IfOk, OnOk, List, ℕ, None, Some, slice_get, if◌then◌else◌, ◌||◌, codes};
ghost use Rattle.std.specs.Str.{bytes_eq};
ghost use Rattle.laws.specs.Text.{characters};
ghost use Rattle.biblatex_dates.specs.Written.{date_text};
ghost use Rattle.biblatex_fields.specs.Fields.{value_named};
ghost use Rattle.biblatex_fields.specs.Value.{field_value_view};
ghost use Rattle.biblatex_inheritance.specs.Resolved.{first, first_offer, text_value, date_value, with_date, dated, date_for, needs_date, first_fault, without_xdata};
ghost use Rattle.biblatex_inheritance.specs.Views.{table_view, PassesOn, IsTable, offer_in, offers_in};

use crate::dated::{Dated, dates_of, entry_at};
use crate::error::DateFault;
use biblatex_content::{Chunk, Chunks, Spanned};
use biblatex_dates::Date;
use biblatex_entries::{Entry, Role};
use biblatex_fields::Fields;
use biblatex_inherited_fields::pass_on;
use std::alloc::{AllocError, Global};

/// Makes the fields of an entry of the role those that it has once its references are resolved. Returns the fault of the first
/// reference whose date cannot be read, where the entry needs one.
pub(crate) fn inherit(
    alloc: Global,
    role: Role,
    fields: &mut Fields,
    references: &[usize],
    entries: &[Entry],
) -> Result<Option<DateFault>, AllocError>
    ensures fields { OnOk result
        (IsTable fields.new (dated (date_for role (offers_in entries.now references.now)) (λ name.
        first (without_xdata (table_view fields.old) name)
        (first_offer role (offers_in entries.now references.now) name)))) }
    ensures fault { IfOk result (λ f. f
        ≡ (if needs_date role then first_fault (offers_in entries.now references.now) else None)) }
{
    fields.remove("xdata");
    pass_on_all_of(alloc, role, fields, references, entries)?;
    if !needs_date(role) {
        return Ok(None);
    }
    let Dated { date, fault } = dates_of(alloc, references, entries)?;
    if let Some(date) = date {
        set_date(alloc, fields, date)?;
    }
    Ok(fault)
}

/// Whether an entry of the role needs a date.
pub fn needs_date(role: Role) -> bool
    ensures { result ≡ needs_date role }
{
    !matches!(role, Role::XData | Role::Set)
}

/// Adds to the fields what they lack, each from the first of the references that offers it to an entry of the role.
fn pass_on_all_of(
    alloc: Global,
    role: Role,
    fields: &mut Fields,
    references: &[usize],
    entries: &[Entry],
) -> Result<(), AllocError>
    ensures { OnOk result
        (PassesOn fields.old fields.new (first_offer role (offers_in entries.now references.now))) }
{
    for &reference in references {
        pass_on_where(alloc, role, fields, reference, entries)?;
    }
    Ok(())
}

/// The same of one reference, where there is such an entry.
fn pass_on_where(
    alloc: Global,
    role: Role,
    fields: &mut Fields,
    reference: usize,
    entries: &[Entry],
) -> Result<(), AllocError>
    ensures { OnOk result (PassesOn fields.old fields.new
        (first_offer role (offer_in reference (slice_get entries.now reference)))) }
{
    match entry_at(entries, reference) {
        Some(from) => pass_on(alloc, role, fields, from),
        None => Ok(()),
    }
}

/// Replaces the date, year, month and day of the fields by a date, without its time.
pub fn set_date(alloc: Global, fields: &mut Fields, date: Date) -> Result<(), AllocError>
    ensures { OnOk result (IsTable fields.new (with_date date (table_view fields.old))) }
{
    fields.remove("year");
    fields.remove("month");
    fields.remove("day");
    fields.insert(String::from_str(alloc, "date")?, date_value(alloc, date)?)
}

/// The date, without its time, as a value.
pub fn date_value(alloc: Global, date: Date) -> Result<Chunks, AllocError>
    ensures { IfOk result (λ v. field_value_view v.items ≡ date_value date) }
{
    let date = date.without_time();
    let text = text_of_date(alloc, &date)?;
    text_value(alloc, text)
}

/// The date as it is written.
pub fn text_of_date(alloc: Global, date: &Date) -> Result<String, AllocError>
    ensures { IfOk result (λ s. characters s ≡ date_text date.now) }
{
    date.to_string(alloc)
}

/// A value of one normal text.
fn text_value(alloc: Global, text: String) -> Result<Chunks, AllocError>
    ensures { IfOk result (λ v. field_value_view v.items ≡ text_value (characters text)) }
{
    let mut value = Vec::new(alloc);
    value.reserve_exact(1)?;
    value.push(Spanned::detached(Chunk::Normal(text)))?;
    Ok(value)
}
