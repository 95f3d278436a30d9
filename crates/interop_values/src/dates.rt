//! The dates of an entry.

ghost use Rattle.std.specs.Prelude.{◌≡◌, IfOk, IfSome, Some};
ghost use Rattle.std.specs.Str.{chars};
ghost use Rattle.biblatex_content.specs.Views.{styled};
ghost use Rattle.biblatex_entries.specs.Typed.{characters_of};
ghost use Rattle.interop_values.specs.Values.{values};
ghost use Rattle.interop_values.specs.Readings.{point_of, is_same_day, end_between, end_of, library_date, date_in, date_under, date_by_parts, own_date};

use crate::values::{text, value};
use biblatex_content::{Chunk, Spanned};
use biblatex_dates::{Date as SourceDate, DateValue, Datetime, TypeErrorKind};
use biblatex_fields::Fields;
use biblatex_values::plain_text;
use literature_values::{Date, DateEnd};
use std::alloc::{AllocError, Global};
use texts::has_text;

/// The date under a name, or why its text is none; nothing where there is no text.
#[inline(always)]
pub fn date_under(
    alloc: Global,
    fields: &Fields,
    name: &str,
) -> Result<Option<Result<SourceDate, TypeErrorKind>>, AllocError>
    ensures { IfOk result (λ r. r ≡ date_under name.now (values fields.now)) }
{
    match value(fields, name) {
        Some(value) => date_of_content(alloc, value),
        None => Ok(None),
    }
}

/// What a text reads as; an empty one is no date.
fn date_in(text: &str) -> Option<Result<SourceDate, TypeErrorKind>>
    ensures { result ≡ date_in (chars text.now) }
{
    if has_text(text) {
        return Some(SourceDate::read(text));
    }
    None
}

/// The text of a content that is one chunk.
fn text_alone(value: &[Spanned<Chunk>]) -> Option<&str>
    ensures { IfSome result (λ text. characters_of (Some (styled value.now)) ≡ chars text.now) }
{
    match value.split_first() {
        Some((chunk, rest)) => {
            if rest.is_empty() {
                Some(chunk.v.get())
            } else {
                None
            }
        }
        None => None,
    }
}

/// What a content reads as. The text of one chunk is read where it lies.
#[inline(never)]
fn date_of_content(
    alloc: Global,
    value: &[Spanned<Chunk>],
) -> Result<Option<Result<SourceDate, TypeErrorKind>>, AllocError>
    ensures { IfOk result (λ r. r ≡ date_in (characters_of (Some (styled value.now)))) }
{
    if let Some(text) = text_alone(value) {
        return Ok(date_in(text));
    }
    let text = plain_text(alloc, value)?;
    Ok(date_in(text.as_str()))
}

/// The date of the entry: that of `date`, where it has a text, else that of year, month and day.
pub fn own_date(
    alloc: Global,
    fields: &Fields,
) -> Result<Option<Result<SourceDate, TypeErrorKind>>, AllocError>
    ensures { IfOk result (λ r. r ≡ own_date (values fields.now)) }
{
    if let Some(read) = date_under(alloc, fields, "date")? {
        return Ok(Some(read));
    }
    match date_by_parts(alloc, fields)? {
        Some(date) => Ok(Some(Ok(date))),
        None => Ok(None),
    }
}

/// The date of year, month and day, as far as they can be read.
fn date_by_parts(alloc: Global, fields: &Fields) -> Result<Option<SourceDate>, AllocError>
    ensures { IfOk result (λ d. d ≡ date_by_parts (values fields.now)) }
{
    let year = text(alloc, fields, "year")?;
    let month = text(alloc, fields, "month")?;
    let day = text(alloc, fields, "day")?;
    Ok(SourceDate::from_parts(year.as_str(), Some(month.as_str()), Some(day.as_str())))
}

/// A date as a library has it, without its times: of a range both sides, of one without a start the end alone;
/// approximate where one of its sides is uncertain or approximate.
pub fn library_date(date: SourceDate) -> Date
    ensures { result ≡ library_date date }
{
    let point = point_of(date.value);
    Date {
        year: point.year,
        month: point.month,
        day: point.day,
        end: end_of(date.value),
        approximate: date.uncertain || date.approximate,
    }
}

/// The point that a date of a library begins with.
fn point_of(value: DateValue) -> Datetime
    ensures { result ≡ point_of value }
{
    match value {
        DateValue::At(point) | DateValue::After(point) | DateValue::Before(point) => point,
        DateValue::Between(first, _) => first,
    }
}

/// What a date of a library ends with, where it is a range.
fn end_of(value: DateValue) -> Option<DateEnd>
    ensures { result ≡ end_of value }
{
    match value {
        DateValue::At(_) | DateValue::Before(_) => None,
        DateValue::After(_) => Some(DateEnd::Open),
        DateValue::Between(first, last) => end_between(first, last),
    }
}

/// The last of two points, unless it has the year, the month and the day of the first.
fn end_between(first: Datetime, last: Datetime) -> Option<DateEnd>
    ensures { result ≡ end_between first last }
{
    if is_same_day(first, last) {
        return None;
    }
    Some(DateEnd::On {
        year: last.year,
        month: last.month,
        day: last.day,
    })
}

/// Whether two points have one year, one month and one day.
fn is_same_day(a: Datetime, b: Datetime) -> bool
    ensures { result ≡ is_same_day a b }
{
    a.year == b.year && a.month == b.month && a.day == b.day
}
