//! How dates are written.

ghost use Rattle.std.specs.Prelude.{◌≡◌, Some};
ghost use Rattle.std.specs.Fmt.{DisplaysOnOk};
ghost use Rattle.laws.specs.Text.{text as text_of};
ghost use Rattle.biblatex_dates.specs.Written.{following, sign, signed_offset_text, offset_text, clock_text, time_text, day_text, month_text, datetime_text, sides_text, end_text, mark_text, date_text};
ghost use Rattle.biblatex_dates.specs.declared.date.DateValue.TheVariants.{Between};

use crate::date::{Date, DateValue};
use crate::datetime::{Datetime, Time, TimeOffset};
use date_parts::{write_counted, write_padded, write_year};
use std::fmt::{self, Display};

/// The year in four digits or more, after a hyphen where it is negative; a hyphen and the month; a hyphen and the day;
/// `T` and the time with its seconds; the offset as `Z`, `+01:00` or `-01:00`. A day without a month and a time without a
/// day are not written.
impl Display for Datetime {
    ghost output = { λ d. Some (text_of (datetime_text d)) };

    fn fmt<W: fmt::Write>(&self, f: &mut fmt::Formatter<W>) -> fmt::Result {
        write_year(self.year, f)?;
        write_month(self.month, self.day, self.time, f)
    }
}

/// The sides with a slash between; an open start as `../`; the mark `?`, `~` or `%` after the last side; an open end
/// as `/..`.
impl Display for Date {
    ghost output = { λ d. Some (text_of (date_text d)) };

    fn fmt<W: fmt::Write>(&self, f: &mut fmt::Formatter<W>) -> fmt::Result {
        write_sides(self.value, f)?;
        write_mark(self.uncertain, self.approximate, f)?;
        write_end(self.value, f)
    }
}

/// Writes the sides, and an open start.
fn write_sides<W: fmt::Write>(value: DateValue, f: &mut fmt::Formatter<W>) -> fmt::Result
    ensures { DisplaysOnOk W.write_str_gives f.old result
        (Some (text_of (sides_text value))) f.new }
{
    match value {
        DateValue::At(at) => at.fmt(f),
        DateValue::After(start) => start.fmt(f),
        DateValue::Before(end) => {
            f.write_str("../")?;
            end.fmt(f)
        }
        DateValue::Between(start, end) => write_range(start, end, f),
    }
}

/// Writes two sides, with a slash between.
fn write_range<W: fmt::Write>(
    start: Datetime,
    end: Datetime,
    f: &mut fmt::Formatter<W>,
) -> fmt::Result
    ensures { DisplaysOnOk W.write_str_gives f.old result
        (Some (text_of (sides_text (Between start end)))) f.new }
{
    start.fmt(f)?;
    f.write_str("/")?;
    end.fmt(f)
}

/// Writes an open end.
fn write_end<W: fmt::Write>(value: DateValue, f: &mut fmt::Formatter<W>) -> fmt::Result
    ensures { DisplaysOnOk W.write_str_gives f.old result (Some (text_of (end_text value))) f.new }
{
    match value {
        DateValue::After(_) => f.write_str("/.."),
        _ => Ok(()),
    }
}

/// Writes how sure a date is.
fn write_mark<W: fmt::Write>(
    is_uncertain: bool,
    is_approximate: bool,
    f: &mut fmt::Formatter<W>,
) -> fmt::Result
    ensures { DisplaysOnOk W.write_str_gives f.old result
        (Some (text_of (mark_text is_uncertain is_approximate))) f.new }
{
    match (is_uncertain, is_approximate) {
        (false, false) => Ok(()),
        (true, false) => f.write_str("?"),
        (false, true) => f.write_str("~"),
        (true, true) => f.write_str("%"),
    }
}

/// Writes a character, and after it a number in two digits or more.
fn write_after<W: fmt::Write>(mark: char, number: u8, f: &mut fmt::Formatter<W>) -> fmt::Result
    ensures { DisplaysOnOk W.write_str_gives f.old result
        (Some (text_of (following mark number))) f.new }
{
    f.write_char(mark)?;
    write_padded(u32::from(number), 2, f)
}

/// Writes the month, and the day and the time after it.
fn write_month<W: fmt::Write>(
    month: Option<u8>,
    day: Option<u8>,
    time: Option<Time>,
    f: &mut fmt::Formatter<W>,
) -> fmt::Result
    ensures { DisplaysOnOk W.write_str_gives f.old result
        (Some (text_of (month_text month day time))) f.new }
{
    let Some(month) = month else {
        return Ok(());
    };
    write_counted(month, f)?;
    write_day(day, time, f)
}

/// Writes the day, and the time after it.
fn write_day<W: fmt::Write>(
    day: Option<u8>,
    time: Option<Time>,
    f: &mut fmt::Formatter<W>,
) -> fmt::Result
    ensures { DisplaysOnOk W.write_str_gives f.old result
        (Some (text_of (day_text day time))) f.new }
{
    let Some(day) = day else {
        return Ok(());
    };
    write_counted(day, f)?;
    match time {
        Some(time) => write_clock(time, f),
        None => Ok(()),
    }
}

fn write_clock<W: fmt::Write>(time: Time, f: &mut fmt::Formatter<W>) -> fmt::Result
    ensures { DisplaysOnOk W.write_str_gives f.old result (Some (text_of (clock_text time))) f.new }
{
    write_after('T', time.hour, f)?;
    write_after(':', time.minute, f)?;
    write_after(':', time.second, f)?;
    write_offset(time.offset, f)
}

fn write_offset<W: fmt::Write>(offset: Option<TimeOffset>, f: &mut fmt::Formatter<W>) -> fmt::Result
    ensures { DisplaysOnOk W.write_str_gives f.old result
        (Some (text_of (offset_text offset))) f.new }
{
    match offset {
        None => Ok(()),
        Some(TimeOffset::Utc) => f.write_str("Z"),
        Some(
            TimeOffset::Offset {
                positive,
                hours,
                minutes,
            },
        ) => write_signed_offset(positive, hours, minutes, f),
    }
}

/// Writes a sign, hours and minutes.
fn write_signed_offset<W: fmt::Write>(
    positive: bool,
    hours: u8,
    minutes: u8,
    f: &mut fmt::Formatter<W>,
) -> fmt::Result
    ensures { DisplaysOnOk W.write_str_gives f.old result
        (Some (text_of (signed_offset_text positive hours minutes))) f.new }
{
    write_after(sign(positive), hours, f)?;
    write_after(':', minutes, f)
}

/// The sign of an offset.
fn sign(positive: bool) -> char
    ensures { result ≡ sign positive }
{
    if positive {
        return '+';
    }
    '-'
}
