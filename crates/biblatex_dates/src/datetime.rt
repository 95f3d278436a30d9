//! Points in time: a year, or a month, a day or a time of it.

ghost use Rattle.std.specs.Prelude.{◌≡◌, ◌≤◌, unsigned_abs, IfSome};
ghost use Rattle.biblatex_dates.specs.Datetime.{without_time, at_time, meant, datetime_of};

use crate::error::TypeErrorKind;
use date_parts::{CalendarDate, OutOfRange};

/// A year, or a month, a day or a time of it. Months and days count from zero. The year before 1 is 0.
#[derive(Clone, Copy, Debug, PartialEq, Eq)]
pub struct Datetime {
    pub year: i32,
    pub month: Option<u8>,
    pub day: Option<u8>,
    pub time: Option<Time>,
}

/// A time of day, in hours, minutes and seconds as written, two digits each.
#[derive(Clone, Copy, Debug, PartialEq, Eq)]
pub struct Time {
    pub hour: u8,
    pub minute: u8,
    pub second: u8,
    pub offset: Option<TimeOffset>,
}

/// How far a clock is from universal time.
#[derive(Clone, Copy, Debug, PartialEq, Eq)]
pub enum TimeOffset {
    /// Universal time itself.
    Utc,
    /// So many hours and minutes before it, or after it where it is not positive.
    Offset {
        positive: bool,
        hours: u8,
        minutes: u8,
    },
}

impl Datetime {
    /// This date without its time.
    pub fn without_time(self) -> Datetime
        ensures { result ≡ without_time self }
    {
        Datetime { time: None, ..self }
    }
}

/// What a year, a month, a day and a time mean as written, or their first fault. A year that is not of four digits is
/// none.
pub(crate) fn dated(
    year: Option<i32>,
    month: Option<u16>,
    day: Option<u16>,
    time: Option<Time>,
) -> Result<Datetime, TypeErrorKind>
    requires years { IfSome year (λ y. unsigned_abs y ≤ 9999) }
    ensures { result ≡ datetime_of year month day time }
{
    match year {
        None => Err(TypeErrorKind::WrongNumberOfDigits),
        Some(year) => meant(date_parts::dated(year, month, day), time),
    }
}

/// What is meant, with the time, or what there is not.
fn meant(
    date: Result<CalendarDate, OutOfRange>,
    time: Option<Time>,
) -> Result<Datetime, TypeErrorKind>
    ensures { result ≡ meant time date }
{
    match date {
        Ok(date) => Ok(at_time(date, time)),
        Err(OutOfRange::Month) => Err(TypeErrorKind::MonthOutOfRange),
        Err(OutOfRange::Day) => Err(TypeErrorKind::DayOutOfRange),
    }
}

/// The date with a time, which only a day has.
pub(crate) fn at_time(date: CalendarDate, time: Option<Time>) -> Datetime
    ensures { result ≡ at_time time date }
{
    Datetime {
        year: date.year,
        month: date.month,
        day: date.day,
        time: date.day.and(time),
    }
}
