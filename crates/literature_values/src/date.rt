//! Dates.

ghost use Rattle.std.specs.Prelude.{◌≡◌, ◌≤◌, Some, Ok, IfOk, unsigned_abs};
ghost use Rattle.std.specs.Fmt.{DisplaysOnOk};
ghost use Rattle.std.specs.Str.{chars};
ghost use Rattle.laws.specs.Results.{Reads, Passes};
ghost use Rattle.laws.specs.Runs.{prefix_of, after};
ghost use Rattle.literature_values.specs.Dates.{minutes_at, offset_at, clock_at, time_at, year_at, side_of, of_calendar, date_of};
ghost use Rattle.literature_values.specs.DateRanges.{is_of_side, is_open, with_open_end, with_end, between, range_of};
ghost use Rattle.laws.specs.Text.{text as text_of};
ghost use Rattle.literature_values.specs.DateText.{month_text, side_text, mark_text, end_text, date_text, Exists};
ghost use Rattle.texts.specs.Views.{left};
ghost use Rattle.literature_values.specs.declared.date.DateError.TheVariants.{UnknownFormat};
ghost use Rattle.literature_values.specs.declared.date.Date.{Date};
ghost use Rattle.literature_values.specs.declared.date.DateEnd.TheVariants.{On};

use date_parts::{CalendarDate, OutOfRange, read_part, signed_year, write_counted, write_year};
use std::fmt;
use texts::{CharacterClass, Reader, Unreadable, split_first, split_run};
use thiserror::Error;

/// A year, or a month or a day of it; of a range the first. Months and days count from zero.
#[derive(Clone, Copy, Debug, PartialEq, Eq)]
pub struct Date {
    pub year: i32,
    pub month: Option<u8>,
    pub day: Option<u8>,
    /// What a range ends with.
    pub end: Option<DateEnd>,
    /// Whether the date, or a side of the range, is approximate.
    pub approximate: bool,
}

/// What a range of dates ends with.
#[derive(Clone, Copy, Debug, PartialEq, Eq)]
pub enum DateEnd {
    /// A year, or a month or a day of it, which may be before the first.
    On {
        year: i32,
        month: Option<u8>,
        day: Option<u8>,
    },
    /// Nothing yet.
    Open,
}

/// Why a text was not read as a date.
#[derive(Clone, Copy, Debug, PartialEq, Eq, Error)]
pub enum DateError {
    /// The text is not of the shape of a date.
    #[error("unknown date format")]
    UnknownFormat,
    /// There is no such month.
    #[error("month out of bounds")]
    MonthOutOfBounds,
    /// The month has no such day.
    #[error("day out of bounds")]
    DayOutOfBounds,
}

/// What a text of the shape of a date spells, as written.
#[derive(Clone, Copy)]
struct Side {
    year: i32,
    month: Option<u16>,
    day: Option<u16>,
    is_marked: bool,
}

impl Date {
    /// Reads a date or a range: a side; two sides with a slash between; a side, a slash and `..`. A side is a year of
    /// four digits, negative after a hyphen; a hyphen and a month; a hyphen and a day, each of one or two digits; `T` and
    /// a time, which is dropped; a mark `?`, `~`, `%` or U+00A0, by which the date is approximate. The year 0 is the one
    /// before 1. The months 21 to 24 are seasons, which leave the year alone.
    ///
    /// # Errors
    /// `UnknownFormat` for a text of another shape; else of the first faulty side `MonthOutOfBounds` for a month that is
    /// none of twelve, else `DayOutOfBounds` for a day that the month has not. Takes no memory.
    pub fn read(text: &str) -> Result<Date, DateError>
        // The date or range that the text spells, or its first fault.
        ensures reading { result ≡ range_of (chars text.now) }
        // What was printed of an existing date is read back.
        ensures back { (d : Date) → Exists d → chars text.now ≡ date_text d → result ≡ Ok d }
    {
        read_range(text)
    }
}

/// The characters of a side.
#[derive(Clone, Copy)]
struct OfSide;

impl CharacterClass for OfSide {
    ghost passes = { λ _ c. is_of_side c };

    fn contains(self, c: char) -> bool {
        c != '/'
    }
}

/// What stands before the first slash, and what follows it, with the slash.
fn split_side(text: &str) -> (&str, &str)
    ensures prefix { chars result.0.now ≡ prefix_of is_of_side (chars text.now) }
    ensures rest { chars result.1.now ≡ after is_of_side (chars text.now) }
{
    split_run(text, OfSide)
}

/// The date or range that the text spells.
fn read_range(text: &str) -> Result<Date, DateError>
    ensures { result ≡ range_of (chars text.now) }
{
    let (first, rest) = split_side(text);
    match split_first(rest) {
        None => read_date(first),
        Some((_, last)) if is_open(last) => Ok(with_open_end(read_date(first)?)),
        Some((_, last)) => read_between(first, last),
    }
}

/// Whether what stands after the slash says that the range has no end yet.
fn is_open(text: &str) -> bool
    ensures { result ≡ is_open (chars text.now) }
{
    text == ".."
}

/// The range without an end yet.
fn with_open_end(first: Date) -> Date
    ensures { result ≡ with_open_end first }
{
    Date {
        end: Some(DateEnd::Open),
        ..first
    }
}

/// The range between the sides that two texts spell.
#[tactic(auto, unfolding(crate::specs::DateRanges::between))]
fn read_between(first: &str, last: &str) -> Result<Date, DateError>
    ensures { result ≡ between (chars first.now) (chars last.now) }
{
    let first = read_side(first)?;
    let last = read_side(last)?;
    let start = dated(first)?;
    let end = dated(last)?;
    Ok(with_end(start, end))
}

/// The range between two dates.
fn with_end(start: Date, end: Date) -> Date
    ensures { result ≡ with_end start end }
{
    Date {
        end: Some(DateEnd::On {
            year: end.year,
            month: end.month,
            day: end.day,
        }),
        approximate: start.approximate || end.approximate,
        ..start
    }
}

/// The date that the text of a side spells.
fn read_date(text: &str) -> Result<Date, DateError>
    ensures { result ≡ date_of (side_of (chars text.now)) }
{
    let side = read_side(text)?;
    dated(side)
}

/// The side as written.
#[tactic(auto, unfolding(crate::specs::Dates::side_of))]
fn read_side(text: &str) -> Result<Side, Unreadable>
    ensures reads { result ≡ side_of (chars text.now) }
    ensures years { IfOk result (λ s. unsigned_abs s.year ≤ 9999) }
{
    let mut reader = Reader::new(text);
    let is_negative = reader.take('-');
    let year = read_year(&mut reader, is_negative)?;
    let month = read_part(&mut reader)?;
    let day = read_part(&mut reader)?;
    read_time(&mut reader, day)?;
    let is_marked = reader.take_mark();
    reader.end()?;
    Ok(Side {
        year,
        month,
        day,
        is_marked,
    })
}

/// Four digits, as a year before or after the year 0.
fn read_year(reader: &mut Reader, is_negative: bool) -> Result<i32, Unreadable>
    ensures reads { Reads (λ y. y) result (left reader.new)
        (year_at is_negative (left reader.old)) }
    ensures years { IfOk result (λ y. unsigned_abs y ≤ 9999) }
{
    let year = reader.digits(4, 4)?;
    Ok(signed_year(is_negative, year))
}

/// After a day, `T` and a time, or nothing.
fn read_time(reader: &mut Reader, day: Option<u16>) -> Result<(), Unreadable>
    ensures { Passes result (left reader.new) (time_at day (left reader.old)) }
{
    if day.is_some() && reader.take('T') {
        return read_clock(reader);
    }
    Ok(())
}

/// Hours and minutes, seconds or none, an offset or none.
#[tactic(auto, unfolding(crate::specs::Dates::clock_at))]
fn read_clock(reader: &mut Reader) -> Result<(), Unreadable>
    ensures { Passes result (left reader.new) (clock_at (left reader.old)) }
{
    read_minutes(reader)?;
    if reader.take(':') {
        reader.digits(2, 2)?;
    }
    read_offset(reader)
}

/// Hours and minutes.
#[tactic(auto, unfolding(crate::specs::Dates::minutes_at))]
fn read_minutes(reader: &mut Reader) -> Result<(), Unreadable>
    ensures { Passes result (left reader.new) (minutes_at (left reader.old)) }
{
    reader.digits(2, 2)?;
    reader.expect(':')?;
    reader.digits(2, 2)?;
    Ok(())
}

/// `Z`, or a sign, hours and minutes, or nothing.
#[tactic(auto, unfolding(crate::specs::Dates::offset_at))]
fn read_offset(reader: &mut Reader) -> Result<(), Unreadable>
    ensures { Passes result (left reader.new) (offset_at (left reader.old)) }
{
    if reader.take('Z') {
        return Ok(());
    }
    if reader.take('+') || reader.take('-') {
        return read_minutes(reader);
    }
    Ok(())
}

/// The date that a text of the shape means.
fn dated(side: Side) -> Result<Date, DateError>
    requires { unsigned_abs side.year ≤ 9999 }
    ensures { result ≡ date_of (Ok side) }
{
    match date_parts::dated(side.year, side.month, side.day) {
        Ok(date) => Ok(of_calendar(date, side.is_marked)),
        Err(OutOfRange::Month) => Err(DateError::MonthOutOfBounds),
        Err(OutOfRange::Day) => Err(DateError::DayOutOfBounds),
    }
}

/// A date of the calendar as that of a side, which is approximate or not.
fn of_calendar(date: CalendarDate, is_marked: bool) -> Date
    ensures { result ≡ of_calendar is_marked date }
{
    Date {
        year: date.year,
        month: date.month,
        day: date.day,
        end: None,
        approximate: is_marked,
    }
}

impl From<Unreadable> for DateError {
    ghost from_gives = { λ _ e. e ≡ UnknownFormat };

    fn from(_unreadable: Unreadable) -> DateError {
        DateError::UnknownFormat
    }
}

/// The side, and of a range a slash and its end: `..` where it is open. A side is the year in four digits or more, after a
/// hyphen where it is negative; a hyphen and the month; a hyphen and the day, each in two digits. A day without a month is
/// not printed. `~` stands after the last side where the date is approximate.
impl fmt::Display for Date {
    ghost output = { λ d. Some (text_of (date_text d)) };

    fn fmt<W: fmt::Write>(&self, f: &mut fmt::Formatter<W>) -> fmt::Result {
        write_side(self.year, self.month, self.day, f)?;
        write_end(self.end, self.approximate, f)
    }
}

/// Writes a year, a month and a day.
fn write_side<W: fmt::Write>(
    year: i32,
    month: Option<u8>,
    day: Option<u8>,
    f: &mut fmt::Formatter<W>,
) -> fmt::Result
    ensures { DisplaysOnOk W.write_str_gives f.old result
        (Some (text_of (side_text year month day))) f.new }
{
    write_year(year, f)?;
    write_month(month, day, f)
}

/// Writes what stands after the first side: the end of a range, and the mark after the last side.
fn write_end<W: fmt::Write>(
    end: Option<DateEnd>,
    is_approximate: bool,
    f: &mut fmt::Formatter<W>,
) -> fmt::Result
    ensures { DisplaysOnOk W.write_str_gives f.old result
        (Some (text_of (end_text is_approximate end))) f.new }
{
    match end {
        None => write_mark(is_approximate, f),
        Some(DateEnd::On { year, month, day }) => {
            write_last_side(year, month, day, is_approximate, f)
        }
        Some(DateEnd::Open) => {
            write_mark(is_approximate, f)?;
            f.write_str("/..")
        }
    }
}

/// Writes a slash, the last side of a range and the mark after it.
fn write_last_side<W: fmt::Write>(
    year: i32,
    month: Option<u8>,
    day: Option<u8>,
    is_approximate: bool,
    f: &mut fmt::Formatter<W>,
) -> fmt::Result
    ensures { DisplaysOnOk W.write_str_gives f.old result
        (Some (text_of (end_text is_approximate (Some (On year month day))))) f.new }
{
    f.write_str("/")?;
    write_side(year, month, day, f)?;
    write_mark(is_approximate, f)
}

/// Writes the month, and the day after it.
fn write_month<W: fmt::Write>(
    month: Option<u8>,
    day: Option<u8>,
    f: &mut fmt::Formatter<W>,
) -> fmt::Result
    ensures { DisplaysOnOk W.write_str_gives f.old result
        (Some (text_of (month_text month day))) f.new }
{
    let Some(month) = month else {
        return Ok(());
    };
    write_counted(month, f)?;
    match day {
        Some(day) => write_counted(day, f),
        None => Ok(()),
    }
}

/// Writes the mark of an approximate date.
fn write_mark<W: fmt::Write>(is_approximate: bool, f: &mut fmt::Formatter<W>) -> fmt::Result
    ensures { DisplaysOnOk W.write_str_gives f.old result
        (Some (text_of (mark_text is_approximate))) f.new }
{
    if is_approximate {
        return f.write_str("~");
    }
    Ok(())
}
