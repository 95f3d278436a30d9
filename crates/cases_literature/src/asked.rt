//! What is asked of values beside what is printed of them.

use cases::{CaseValue, Session, Value, member, put_or_null};
use literature::{Date, MaybeTyped, Numeric, PageRanges};
use std::fmt::Display;

/// A value of which a case may ask more than what is printed.
pub(crate) trait Asked: CaseValue {
    /// Writes what else a case asks of the value.
    fn put_asked(&self, session: &mut Session, case: &Value<'_>);
}

/// Writes what is printed of a value, where it is to be shown.
pub(crate) fn put_printed<T: Display>(session: &mut Session, case: &Value<'_>, value: &T) {
    if session.is_shown(case, "text", true) {
        session.put_printed("text", value);
    }
}

/// Writes whether something is so, where that is to be shown.
fn put_shown(session: &mut Session, case: &Value<'_>, name: &str, is_true: bool) {
    if session.is_shown(case, name, false) {
        session.put_bool(name, is_true);
    }
}

/// Writes a number, or null, as the member of the name.
fn put_number_or_null(session: &mut Session, name: &str, number: Option<i32>) {
    session.key(name);
    match number {
        Some(number) => session.integer(i64::from(number)),
        None => session.null(),
    }
}

/// Whether it is of several numbers, the one number, and the number at an index.
impl Asked for Numeric {
    fn put_asked(&self, session: &mut Session, case: &Value<'_>) {
        put_shown(session, case, "is_plural", self.is_plural());
        if session.is_shown(case, "single_number", false) {
            put_number_or_null(session, "single_number", self.single_number());
        }
        if member(case, "place").is_some() {
            let number = self.nth(session.count(case, "place"));
            put_number_or_null(session, "nth", number);
        }
    }
}

/// Whether it is of several pages, and the first of them.
impl Asked for PageRanges {
    fn put_asked(&self, session: &mut Session, case: &Value<'_>) {
        put_shown(session, case, "is_plural", self.is_plural());
        if session.is_shown(case, "first", false) {
            session.key("first");
            put_or_null(session, self.first());
        }
    }
}

/// Of a date nothing is asked beside what is printed of it.
impl Asked for Date {
    fn put_asked(&self, _session: &mut Session, _case: &Value<'_>) {}
}

/// Whether it is a value of the type.
impl<T: CaseValue> Asked for MaybeTyped<T> {
    fn put_asked(&self, session: &mut Session, case: &Value<'_>) {
        put_shown(session, case, "is_typed", self.as_typed().is_some());
    }
}
