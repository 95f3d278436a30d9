//! Dates, as JSON. Months and days count from zero.

use crate::values::case_value::{CaseValue, maybe_given, put_maybe};
use crate::{Session, Value};
use literature::{Date, DateEnd};

/// A date; what is left out of month, day and end is not there.
impl CaseValue for Date {
    fn given(session: &mut Session, value: &Value<'_>) -> Date {
        session.only(value, &["year", "month", "day", "end", "approximate"]);
        Date {
            year: session.small_number(value, "year"),
            month: session.maybe_byte(value, "month"),
            day: session.maybe_byte(value, "day"),
            end: maybe_given(session, value, "end"),
            approximate: session.is_set(value, "approximate"),
        }
    }

    fn put(&self, session: &mut Session) {
        session.begin_object();
        put_side(session, self.year, self.month, self.day);
        put_maybe(session, "end", self.end.as_ref());
        session.put_if_set("approximate", self.approximate);
        session.end_object();
    }
}

/// What a range ends with: a date, or `"open"`.
impl CaseValue for DateEnd {
    fn given(session: &mut Session, value: &Value<'_>) -> DateEnd {
        if value.as_str() == Some("open") {
            return DateEnd::Open;
        }
        session.only(value, &["year", "month", "day"]);
        DateEnd::On {
            year: session.small_number(value, "year"),
            month: session.maybe_byte(value, "month"),
            day: session.maybe_byte(value, "day"),
        }
    }

    fn put(&self, session: &mut Session) {
        match self {
            DateEnd::Open => session.string("open"),
            DateEnd::On { year, month, day } => {
                session.begin_object();
                put_side(session, *year, *month, *day);
                session.end_object();
            }
        }
    }
}

/// Writes the members of a year, a month and a day.
fn put_side(session: &mut Session, year: i32, month: Option<u8>, day: Option<u8>) {
    session.put_number("year", i64::from(year));
    session.put_maybe_byte("month", month);
    session.put_maybe_byte("day", day);
}
