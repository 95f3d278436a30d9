//! What a year, a month and a day mean.

ghost use Rattle.std.specs.Prelude.{◌≡◌, ◌≤◌, unsigned_abs};
ghost use Rattle.date_parts.specs.Dates.{year_alone, in_month, on_day, of_month, of_year};

use crate::calendar::has_day;

/// A year, or a month or a day of it. Months and days count from zero.
#[derive(Clone, Copy)]
pub struct CalendarDate {
    pub year: i32,
    pub month: Option<u8>,
    pub day: Option<u8>,
}

/// What there is not.
#[derive(Clone, Copy)]
pub enum OutOfRange {
    /// There is no such month.
    Month,
    /// The month has no such day.
    Day,
}

/// What a year, a month and a day mean, each counted from one. The months 21 to 24 are seasons, which leave the year alone.
///
/// # Errors
/// `Month` for a month that is none of twelve and no season, else `Day` for a day that the month has not.
pub fn dated(year: i32, month: Option<u16>, day: Option<u16>) -> Result<CalendarDate, OutOfRange>
    requires { unsigned_abs year ≤ 9999 }
    ensures { result ≡ of_year year month day }
{
    let Some(month) = month else {
        return Ok(year_alone(year));
    };
    if (21..=24).contains(&month) {
        return Ok(year_alone(year));
    }
    if !(1..=12).contains(&month) {
        return Err(OutOfRange::Month);
    }
    dated_in_month(year, month, day)
}

/// The month, and the day where there is one, which the month must have.
fn dated_in_month(year: i32, month: u16, day: Option<u16>) -> Result<CalendarDate, OutOfRange>
    requires years { unsigned_abs year ≤ 9999 }
    requires first { 1 ≤ month }
    requires last { month ≤ 12 }
    ensures { result ≡ of_month year month day }
{
    match day {
        None => Ok(in_month(year, month)),
        Some(day) if has_day(year, month, day) => Ok(on_day(year, month, day)),
        Some(_) => Err(OutOfRange::Day),
    }
}

/// The year, without month and day.
pub fn year_alone(year: i32) -> CalendarDate
    ensures { result ≡ year_alone year }
{
    CalendarDate {
        year,
        month: None,
        day: None,
    }
}

/// The month, without a day. It counts from one.
pub fn in_month(year: i32, month: u16) -> CalendarDate
    requires first { 1 ≤ month }
    requires last { month ≤ 12 }
    ensures { result ≡ in_month year month }
{
    CalendarDate {
        year,
        month: Some((month - 1) as u8),
        day: None,
    }
}

/// The day of the month. Both count from one.
pub fn on_day(year: i32, month: u16, day: u16) -> CalendarDate
    requires first { 1 ≤ month }
    requires last { month ≤ 12 }
    requires first_day { 1 ≤ day }
    requires last_day { day ≤ 31 }
    ensures { result ≡ on_day year month day }
{
    CalendarDate {
        year,
        month: Some((month - 1) as u8),
        day: Some((day - 1) as u8),
    }
}
