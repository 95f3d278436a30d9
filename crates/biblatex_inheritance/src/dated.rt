//! The dates of references.

ghost use Rattle.std.specs.Prelude.{◌≡◌, IfOk, None, slice_get};
ghost use Rattle.std.specs.Str.{chars};
ghost use Rattle.laws.specs.Text.{characters};
ghost use Rattle.biblatex_dates.specs.Shape.{shape_of, date_of};
ghost use Rattle.biblatex_inheritance.specs.Resolved.{characters_at, some_date, date_in, readable, fault, later, earlier, last_date, first_fault};
ghost use Rattle.biblatex_inheritance.specs.Views.{table_view, offer_in, offer_borrowed, offers_in, IsDated};

use crate::error::DateFault;
use biblatex_dates::{Date, TypeErrorKind};
use biblatex_entries::{Entry, field_text};
use biblatex_fields::Fields;
use std::alloc::{AllocError, Global};
use texts::split_first;

/// The last date that can be read in references, and the fault of the first that cannot.
#[derive(Clone, Copy)]
pub struct Dated {
    /// The last date that can be read.
    pub date: Option<Date>,
    /// The fault of the first that cannot.
    pub fault: Option<DateFault>,
}

/// The dates of the references, the first to the last.
pub(crate) fn dates_of(
    alloc: Global,
    references: &[usize],
    entries: &[Entry],
) -> Result<Dated, AllocError>
    ensures { IfOk result (λ d. IsDated d None (offers_in entries.now references.now)) }
{
    let mut read = Dated {
        date: None,
        fault: None,
    };
    for &reference in references {
        read = and_date(alloc, read, reference, entry_at(entries, reference))?;
    }
    Ok(read)
}

/// The entry of that number, if there is one.
pub(crate) fn entry_at(entries: &[Entry], number: usize) -> Option<&Entry>
    ensures { offer_borrowed number result ≡ offer_in number (slice_get entries.now number) }
{
    entries.get(number)
}

/// The same with the date of one reference more, by its number, where there is such an entry.
fn and_date(
    alloc: Global,
    read: Dated,
    reference: usize,
    entry: Option<&Entry>,
) -> Result<Dated, AllocError>
    ensures { IfOk result (λ d.
        (d.date ≡ last_date read.date (offer_borrowed reference entry.entry))
        × (d.fault ≡ earlier read.fault (first_fault (offer_borrowed reference entry.entry)))) }
{
    match entry {
        Some(entry) => Ok(read.and(reference, date_in(alloc, &entry.fields)?)),
        None => Ok(read),
    }
}

/// The date in the fields: that of `date`, unless it is missing or empty; else that of `year`, `month` and `day`.
fn date_in(
    alloc: Global,
    fields: &Fields,
) -> Result<Result<Option<Date>, TypeErrorKind>, AllocError>
    ensures { IfOk result (λ r. r ≡ date_in (table_view fields.now)) }
{
    let date = text_at(alloc, fields, "date")?;
    if split_first(date.as_str()).is_some() {
        return Ok(read_date(date.as_str()));
    }
    let year = text_at(alloc, fields, "year")?;
    let month = text_at(alloc, fields, "month")?;
    let day = text_at(alloc, fields, "day")?;
    Ok(Ok(Date::from_parts(year.as_str(), Some(month.as_str()), Some(day.as_str()))))
}

/// The date that the text spells.
pub fn read_date(text: &str) -> Result<Option<Date>, TypeErrorKind>
    ensures { result ≡ some_date (date_of (shape_of (chars text.now))) }
{
    Ok(Some(Date::read(text)?))
}

/// The text of the field of that name; empty where there is none.
fn text_at(alloc: Global, fields: &Fields, name: &str) -> Result<String, AllocError>
    ensures { IfOk result (λ s. characters s ≡ characters_at (table_view fields.now) name.now) }
{
    field_text(alloc, fields, name)
}

impl Dated {
    /// The same with the date of one reference more.
    pub fn and(self, reference: usize, more: Result<Option<Date>, TypeErrorKind>) -> Dated
        ensures date { result.date ≡ later self.date (readable more) }
        ensures fault { result.fault ≡ earlier self.fault (fault reference more) }
    {
        match more {
            Ok(date) => Dated {
                date: date.or(self.date),
                ..self
            },
            Err(kind) => Dated {
                fault: self.fault.or(Some(DateFault { reference, kind })),
                ..self
            },
        }
    }
}
