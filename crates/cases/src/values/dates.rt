//! Dates in cases and in answers. Months and days count from zero.

use crate::values::case_value::{
    CaseValue, given, maybe_given, put_list, put_maybe, put_member, put_or_null,
};
use crate::{Session, Value, member};
use biblatex::{Date, DateValue, Datetime, Time, TimeOffset};

/// The offset of a time.
impl CaseValue for TimeOffset {
    fn given(session: &mut Session, value: &Value<'_>) -> TimeOffset {
        if value.as_str() == Some("utc") {
            return TimeOffset::Utc;
        }
        session.only(value, &["positive", "hours", "minutes"]);
        TimeOffset::Offset {
            positive: session.is_set(value, "positive"),
            hours: session.byte(value, "hours"),
            minutes: session.byte(value, "minutes"),
        }
    }

    fn put(&self, session: &mut Session) {
        match self {
            TimeOffset::Utc => session.string("utc"),
            TimeOffset::Offset {
                positive,
                hours,
                minutes,
            } => {
                session.begin_object();
                session.put_bool("positive", *positive);
                session.put_number("hours", i64::from(*hours));
                session.put_number("minutes", i64::from(*minutes));
                session.end_object();
            }
        }
    }
}

/// A time of day.
impl CaseValue for Time {
    fn given(session: &mut Session, value: &Value<'_>) -> Time {
        session.only(value, &["hour", "minute", "second", "offset"]);
        Time {
            hour: session.byte(value, "hour"),
            minute: session.byte(value, "minute"),
            second: session.byte(value, "second"),
            offset: maybe_given(session, value, "offset"),
        }
    }

    fn put(&self, session: &mut Session) {
        session.begin_object();
        session.put_number("hour", i64::from(self.hour));
        session.put_number("minute", i64::from(self.minute));
        session.put_number("second", i64::from(self.second));
        put_maybe(session, "offset", self.offset.as_ref());
        session.end_object();
    }
}

/// A point in time; what is left out of month, day and time is not there.
impl CaseValue for Datetime {
    fn given(session: &mut Session, value: &Value<'_>) -> Datetime {
        session.only(value, &["year", "month", "day", "time"]);
        Datetime {
            year: session.small_number(value, "year"),
            month: session.maybe_byte(value, "month"),
            day: session.maybe_byte(value, "day"),
            time: maybe_given(session, value, "time"),
        }
    }

    fn put(&self, session: &mut Session) {
        session.begin_object();
        session.put_number("year", i64::from(self.year));
        session.put_maybe_byte("month", self.month);
        session.put_maybe_byte("day", self.day);
        put_maybe(session, "time", self.time.as_ref());
        session.end_object();
    }
}

/// The range between two points in time.
fn between(session: &mut Session, date: &Value<'_>) -> DateValue {
    if member(date, "between").is_none() {
        session.want("date", "a point, after, before or between");
    }
    let ends: Vec<Datetime> = given(session, date, "between");
    match ends.as_slice() {
        [first, last] => DateValue::Between(*first, *last),
        _ => {
            session.want("between", "two points in time");
            DateValue::At(Datetime::given(session, &Value::Null))
        }
    }
}

/// One point in time, or a range of which one end may be open.
fn sides(session: &mut Session, date: &Value<'_>) -> DateValue {
    if let Some(point) = maybe_given(session, date, "point") {
        return DateValue::At(point);
    }
    if let Some(start) = maybe_given(session, date, "after") {
        return DateValue::After(start);
    }
    match maybe_given(session, date, "before") {
        Some(end) => DateValue::Before(end),
        None => between(session, date),
    }
}

/// Writes the member of one point in time or a range.
fn put_sides(session: &mut Session, value: DateValue) {
    match value {
        DateValue::At(point) => put_member(session, "point", &point),
        DateValue::After(start) => put_member(session, "after", &start),
        DateValue::Before(end) => put_member(session, "before", &end),
        DateValue::Between(first, last) => {
            session.key("between");
            put_list(session, &[first, last]);
        }
    }
}

/// The members of a date.
const MEMBERS: [&str; 6] = [
    "point",
    "after",
    "before",
    "between",
    "uncertain",
    "approximate",
];

/// A date, and how sure it is.
impl CaseValue for Date {
    fn given(session: &mut Session, value: &Value<'_>) -> Date {
        session.only(value, &MEMBERS);
        Date {
            value: sides(session, value),
            uncertain: session.is_set(value, "uncertain"),
            approximate: session.is_set(value, "approximate"),
        }
    }

    fn put(&self, session: &mut Session) {
        session.begin_object();
        put_sides(session, self.value);
        session.put_if_set("uncertain", self.uncertain);
        session.put_if_set("approximate", self.approximate);
        session.end_object();
    }
}

/// The date of a year, a month and a day, each a text of its own.
pub(crate) fn answer_of_parts(session: &mut Session, case: &Value<'_>) {
    session.only(case, &["case", "name", "year", "month", "day"]);
    let year = session.text(case, "year");
    let month = session.maybe_text(case, "month");
    let date = Date::from_parts(year, month, session.maybe_text(case, "day"));
    session.key("date");
    put_or_null(session, date.as_ref());
}

/// A date without its times.
pub(crate) fn answer_without_time(session: &mut Session, case: &Value<'_>) {
    session.only(case, &["case", "name", "date"]);
    let date: Date = given(session, case, "date");
    put_member(session, "date", &date.without_time());
}
