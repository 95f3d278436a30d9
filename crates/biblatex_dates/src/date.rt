//! Dates.

ghost use Rattle.std.specs.Prelude.{◌≡◌, Ok, IfOk, IfSome};
ghost use Rattle.std.specs.Str.{chars};
ghost use Rattle.biblatex_dates.specs.Date.{value_without_time, date_without_time};
ghost use Rattle.std.specs.Option.{option_map};
ghost use Rattle.biblatex_dates.specs.Parts.{of_parts};
ghost use Rattle.biblatex_dates.specs.Shape.{shape_of, date_of};
ghost use Rattle.biblatex_dates.specs.Written.{SidesExist, date_text};
ghost use Rattle.biblatex_dates.specs.declared.date.Date.{Date};

use crate::datetime::Datetime;
use crate::error::TypeErrorKind;
use crate::parts::dated_by_parts;
use crate::shape::read_shape;

/// A date, and how sure it is.
#[derive(Clone, Copy, Debug, PartialEq, Eq)]
pub struct Date {
    pub value: DateValue,
    pub uncertain: bool,
    pub approximate: bool,
}

/// One point in time, or a range of which one end may be open. The first may be later than the second.
#[derive(Clone, Copy, Debug, PartialEq, Eq)]
pub enum DateValue {
    At(Datetime),
    After(Datetime),
    Before(Datetime),
    Between(Datetime, Datetime),
}

impl Date {
    /// Reads a date: a side; two sides with a slash between; a side and a slash with `..` or nothing after it, or
    /// before it. A side is a year of four digits, negative after a hyphen; a hyphen and a month; a hyphen and a day,
    /// each of one or two digits; `T` and a time as `10:20` or `10:20:30`, with `Z`, `+01:00`, `-01:00` or nothing after
    /// it; a mark `?`, `~`, `%` or U+00A0. The mark of a side is the date's: `?` is uncertain, `~` and U+00A0 are
    /// approximate, `%` is both. The months 21 to 24 are seasons, which leave the year alone.
    ///
    /// # Errors
    /// `InvalidFormat` for a text that would not be of this shape with years of any length. Else of the first faulty
    /// side: `WrongNumberOfDigits` for a year that is not of four digits, else `MonthOutOfRange` for a month that is
    /// none of twelve, else `DayOutOfRange` for a day that the month has not. Takes no memory.
    pub fn read(text: &str) -> Result<Date, TypeErrorKind>
        // The date that the text spells, or its first fault.
        ensures reading { result ≡ date_of (shape_of (chars text.now)) }
        // The date exists: there are its year, its month, its day and its time.
        ensures exists { IfOk result (λ d. SidesExist d.value) }
        // What was written of a date that exists is read back.
        ensures back { (d : Date) → SidesExist d.value
            → chars text.now ≡ date_text d → result ≡ Ok d }
    {
        read_date(text)
    }

    /// The date of a year, a month and a day, each a text of its own. The year is one to four digits, negative after a
    /// hyphen; the month is 1 to 12 in one or two digits, or an English name or its first three letters in any case; the
    /// day is one or two digits and one that the month has. A month or a day that cannot be read is passed over, and a
    /// day after such a month too. Nothing is trimmed, and the date is sure. Takes no memory.
    ///
    /// No date where the year cannot be read.
    pub fn from_parts(year: &str, month: Option<&str>, day: Option<&str>) -> Option<Date>
        // The date that the parts spell, as far as they can be read.
        ensures reading { result ≡ of_parts (chars year.now)
            (option_map (λ m. chars m.now) month.entry) (option_map (λ d. chars d.now) day.entry) }
        // The date exists.
        ensures exists { IfSome result (λ d. SidesExist d.value) }
    {
        dated_by_parts(year, month, day)
    }

    /// This date, or range of dates, without times.
    pub fn without_time(self) -> Date
        ensures value { result ≡ date_without_time self }
        ensures exists { SidesExist self.value → SidesExist result.value }
    {
        Date {
            value: self.value.without_time(),
            ..self
        }
    }
}

impl DateValue {
    /// These dates without their times.
    pub fn without_time(self) -> DateValue
        ensures { result ≡ value_without_time self }
    {
        match self {
            DateValue::At(at) => DateValue::At(at.without_time()),
            DateValue::After(start) => DateValue::After(start.without_time()),
            DateValue::Before(end) => DateValue::Before(end.without_time()),
            DateValue::Between(start, end) => {
                DateValue::Between(start.without_time(), end.without_time())
            }
        }
    }
}

/// The date that the text spells.
fn read_date(text: &str) -> Result<Date, TypeErrorKind>
    ensures { result ≡ date_of (shape_of (chars text.now)) }
{
    match read_shape(text) {
        Ok(shape) => shape.date(),
        Err(_) => Err(TypeErrorKind::InvalidFormat),
    }
}
