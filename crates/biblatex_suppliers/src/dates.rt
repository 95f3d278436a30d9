//! The dates that an entry would inherit.

ghost use Rattle.std.specs.Prelude.{◌≡◌, IfOk, None, slice_get, if◌then◌else◌};
ghost use Rattle.std.specs.Option.{is_some};
ghost use Rattle.biblatex_inheritance.specs.Resolved.{date_in, date_for, needs_date, earlier, last_date, first_fault, offer_if, offers};
ghost use Rattle.biblatex_inheritance.specs.Views.{IsDated};
ghost use Rattle.biblatex_suppliers.specs.Suppliers.{seen};
ghost use Rattle.biblatex_suppliers.specs.Written.{written_view};

use crate::field_texts::seen_text;
use crate::names::FieldName;
use crate::shared::Written;
use crate::supplier::Supplies;
use crate::written::role_at;
use biblatex_dates::{Date, TypeErrorKind};
use biblatex_entries::Role;
use biblatex_inheritance::{Dated, needs_date, read_date};
use std::alloc::{AllocError, Global};
use texts::split_first;

/// The date that an entry of the role inherits, and the fault of the first that it would inherit and that cannot be read.
pub(crate) fn dates_for(
    alloc: Global,
    role: Role,
    entries: &Written,
    supplies: &[Supplies],
    references: &[usize],
) -> Result<Dated, AllocError>
    ensures date { IfOk result (λ d. d.date ≡ date_for role (offers (written_view entries.now)
        (seen (written_view entries.now) supplies.now) references.now)) }
    ensures fault { IfOk result (λ d. d.fault ≡ (if needs_date role then first_fault
        (offers (written_view entries.now) (seen (written_view entries.now) supplies.now)
        references.now) else None)) }
{
    if needs_date(role) {
        dates_of(alloc, entries, supplies, references)
    } else {
        Ok(Dated {
            date: None,
            fault: None,
        })
    }
}

/// The dates of the references, the first to the last.
fn dates_of(
    alloc: Global,
    entries: &Written,
    supplies: &[Supplies],
    references: &[usize],
) -> Result<Dated, AllocError>
    ensures { IfOk result (λ d. IsDated d None (offers (written_view entries.now)
        (seen (written_view entries.now) supplies.now) references.now)) }
{
    let mut read = Dated {
        date: None,
        fault: None,
    };
    for &reference in references {
        read = and_date(alloc, read, entries, supplies, reference)?;
    }
    Ok(read)
}

/// The same with the date of one reference more, where there is such an entry.
fn and_date(
    alloc: Global,
    read: Dated,
    entries: &Written,
    supplies: &[Supplies],
    reference: usize,
) -> Result<Dated, AllocError>
    ensures date { IfOk result (λ d. d.date ≡ last_date read.date (offer_if reference
        (slice_get (written_view entries.now) reference)
        (seen (written_view entries.now) supplies.now reference))) }
    ensures fault { IfOk result (λ d. d.fault ≡ earlier read.fault (first_fault (offer_if reference
        (slice_get (written_view entries.now) reference)
        (seen (written_view entries.now) supplies.now reference)))) }
{
    if is_there(entries, reference) {
        let more = date_seen(alloc, entries, supplies, reference)?;
        Ok(read.and(reference, more))
    } else {
        Ok(read)
    }
}

/// Whether there is an entry of that number.
fn is_there(entries: &Written, number: usize) -> bool
    ensures { result ≡ is_some (slice_get (written_view entries.now) number) }
{
    role_at(entries, number).is_some()
}

/// The date of the entry of a number: that of `date`, unless it is missing or empty; else that of `year`, `month` and `day`.
fn date_seen(
    alloc: Global,
    entries: &Written,
    supplies: &[Supplies],
    number: usize,
) -> Result<Result<Option<Date>, TypeErrorKind>, AllocError>
    ensures { IfOk result (λ r. r
        ≡ date_in (seen (written_view entries.now) supplies.now number)) }
{
    let date = seen_text(alloc, entries, supplies, number, FieldName::Date)?;
    if split_first(date.as_str()).is_some() {
        return Ok(read_date(date.as_str()));
    }
    let year = seen_text(alloc, entries, supplies, number, FieldName::Year)?;
    let month = seen_text(alloc, entries, supplies, number, FieldName::Month)?;
    let day = seen_text(alloc, entries, supplies, number, FieldName::Day)?;
    Ok(Ok(Date::from_parts(year.as_str(), Some(month.as_str()), Some(day.as_str()))))
}
