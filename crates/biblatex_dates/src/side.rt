//! Reading one side of a date.

ghost use Rattle.std.specs.Prelude.{◌≡◌, ◌≤◌, ◌<◌, unsigned_abs, IfOk, IfSome};
ghost use Rattle.laws.specs.Results.{Reads};
ghost use Rattle.texts.specs.Reading.{digits_at, taken};
ghost use Rattle.texts.specs.Views.{left};
ghost use Rattle.biblatex_dates.specs.Side.{four_at, year_at, minutes_at, seconds_after, offset_at, signed_offset_at, clock_at, time_at, mark_at, side_at};

use crate::datetime::{Datetime, Time, TimeOffset, dated};
use crate::error::TypeErrorKind;
use date_parts::{read_part, signed_year};
use texts::{Class, Reader, Unreadable};

/// How sure a date is.
#[derive(Clone, Copy)]
pub(crate) struct Mark {
    pub(crate) uncertain: bool,
    pub(crate) approximate: bool,
}

/// What a text of the shape of a side means, or its first fault, and how sure it is.
#[derive(Clone, Copy)]
pub(crate) struct Side {
    pub(crate) datetime: Result<Datetime, TypeErrorKind>,
    pub(crate) mark: Mark,
}

/// The side of a date that stands here.
#[tactic(auto, unfolding(crate::specs::Side::side_at))]
pub(crate) fn read_side(reader: &mut Reader) -> Result<Side, Unreadable>
    ensures { Reads (λ s. s) result (left reader.new) (side_at (left reader.old)) }
{
    let is_negative = reader.take('-');
    let year = read_year(reader, is_negative)?;
    let month = read_part(reader)?;
    let day = read_part(reader)?;
    let time = read_time(reader, day)?;
    let mark = read_mark(reader);
    Ok(Side {
        datetime: dated(year, month, day, time),
        mark,
    })
}

/// The year that stands here, before or after the year 0, or none where there are not four digits.
fn read_year(reader: &mut Reader, is_negative: bool) -> Result<Option<i32>, Unreadable>
    ensures reads { Reads (λ y. y) result (left reader.new)
        (year_at is_negative (left reader.old)) }
    ensures years { IfOk result (λ o. IfSome o (λ y. unsigned_abs y ≤ 9999)) }
{
    match read_four(reader)? {
        None => Ok(None),
        Some(year) => Ok(Some(signed_year(is_negative, year))),
    }
}

/// The number of four digits, or none where fewer or more stand here.
fn read_four(reader: &mut Reader) -> Result<Option<u16>, Unreadable>
    ensures reads { Reads (λ y. y) result (left reader.new) (four_at (left reader.old)) }
    ensures few { IfOk result (λ o. IfSome o (λ y. y < 10000)) }
{
    let digits = reader.run(Class::Digit);
    if digits.is_empty() {
        return Err(Unreadable::NotThere);
    }
    if digits.len() != 4 {
        return Ok(None);
    }
    Ok(Some(digits.parse::<u16>().unwrap()))
}

/// After a day, `T` and a time, or nothing.
fn read_time(reader: &mut Reader, day: Option<u16>) -> Result<Option<Time>, Unreadable>
    ensures { Reads (λ t. t) result (left reader.new) (time_at day (left reader.old)) }
{
    if day.is_some() && reader.take('T') {
        return Ok(Some(read_clock(reader)?));
    }
    Ok(None)
}

/// Hours and minutes, seconds or none, an offset or none.
#[tactic(auto, unfolding(crate::specs::Side::clock_at))]
fn read_clock(reader: &mut Reader) -> Result<Time, Unreadable>
    ensures { Reads (λ t. t) result (left reader.new) (clock_at (left reader.old)) }
{
    let (hour, minute) = read_minutes(reader)?;
    let second = read_seconds(reader)?;
    let offset = read_offset(reader)?;
    Ok(Time {
        hour,
        minute,
        second,
        offset,
    })
}

/// Hours and minutes.
#[tactic(auto, unfolding(crate::specs::Side::minutes_at))]
fn read_minutes(reader: &mut Reader) -> Result<(u8, u8), Unreadable>
    ensures { Reads (λ t. t) result (left reader.new) (minutes_at (left reader.old)) }
{
    let hour = read_two(reader)?;
    reader.expect(':')?;
    let minute = read_two(reader)?;
    Ok((hour, minute))
}

/// After a colon seconds, else 0.
fn read_seconds(reader: &mut Reader) -> Result<u8, Unreadable>
    ensures { Reads (λ n. n) result (left reader.new) (seconds_after (taken 58 (left reader.old))) }
{
    if reader.take(':') {
        return read_two(reader);
    }
    Ok(0)
}

/// A number of two digits.
fn read_two(reader: &mut Reader) -> Result<u8, Unreadable>
    ensures { Reads (λ n. n) result (left reader.new) (digits_at 2 2 (left reader.old)) }
{
    Ok(reader.digits(2, 2)? as u8)
}

/// `Z`, or a sign, hours and minutes, or nothing.
fn read_offset(reader: &mut Reader) -> Result<Option<TimeOffset>, Unreadable>
    ensures { Reads (λ o. o) result (left reader.new) (offset_at (left reader.old)) }
{
    if reader.take('Z') {
        return Ok(Some(TimeOffset::Utc));
    }
    if reader.take('+') {
        return read_signed_offset(reader, true);
    }
    if reader.take('-') {
        return read_signed_offset(reader, false);
    }
    Ok(None)
}

/// The hours and minutes after a sign.
fn read_signed_offset(reader: &mut Reader, positive: bool) -> Result<Option<TimeOffset>, Unreadable>
    ensures { Reads (λ o. o) result (left reader.new)
        (signed_offset_at positive (left reader.old)) }
{
    let (hours, minutes) = read_minutes(reader)?;
    Ok(Some(TimeOffset::Offset {
        positive,
        hours,
        minutes,
    }))
}

/// The mark that stands here, or none.
fn read_mark(reader: &mut Reader) -> Mark
    ensures { mark_at (left reader.old) ≡ (result, left reader.new) }
{
    if reader.take('?') {
        return marked(true, false);
    }
    if reader.take('~') || reader.take('\u{a0}') {
        return marked(false, true);
    }
    if reader.take('%') {
        return marked(true, true);
    }
    marked(false, false)
}

/// A mark that says so.
fn marked(uncertain: bool, approximate: bool) -> Mark
    ensures uncertain { result.uncertain ≡ uncertain }
    ensures approximate { result.approximate ≡ approximate }
{
    Mark {
        uncertain,
        approximate,
    }
}
