//! Numbers with letters, as JSON.

use crate::values::case_value::{CaseValue, put_member};
use crate::{Session, Value, member, word_of};
use literature::{Numeric, NumericDelimiter, NumericValue};

const DELIMITERS: &[(&str, NumericDelimiter)] = &[
    ("comma", NumericDelimiter::Comma),
    ("ampersand", NumericDelimiter::Ampersand),
    ("hyphen", NumericDelimiter::Hyphen),
];

/// A number and the delimiter after it.
impl CaseValue for (i32, Option<NumericDelimiter>) {
    fn given(session: &mut Session, value: &Value<'_>) -> (i32, Option<NumericDelimiter>) {
        session.only(value, &["number", "delimiter"]);
        let number = session.small_number(value, "number");
        (number, session.maybe_word(value, "delimiter", DELIMITERS))
    }

    fn put(&self, session: &mut Session) {
        session.begin_object();
        session.put_number("number", i64::from(self.0));
        if let Some(delimiter) = self.1 {
            session.put_text("delimiter", word_of(DELIMITERS, delimiter));
        }
        session.end_object();
    }
}

/// One number, or several.
fn numeric_value(session: &mut Session, given: &Value<'_>) -> NumericValue {
    match member(given, "numbers") {
        Some(numbers) => NumericValue::Set(Vec::given(session, numbers)),
        None => NumericValue::Number(session.small_number(given, "number")),
    }
}

/// Writes one number, or several, as a member.
fn put_numbers(session: &mut Session, value: &NumericValue) {
    match value {
        NumericValue::Number(number) => session.put_number("number", i64::from(*number)),
        NumericValue::Set(numbers) => put_member(session, "numbers", numbers),
    }
}

/// A number, or several, with the letters before and after.
impl CaseValue for Numeric {
    fn given(session: &mut Session, value: &Value<'_>) -> Numeric {
        session.only(value, &["number", "numbers", "prefix", "suffix"]);
        Numeric {
            value: numeric_value(session, value),
            prefix: session.maybe_owned_text(value, "prefix"),
            suffix: session.maybe_owned_text(value, "suffix"),
        }
    }

    fn put(&self, session: &mut Session) {
        session.begin_object();
        put_numbers(session, &self.value);
        session.put_maybe_text("prefix", self.prefix.as_deref());
        session.put_maybe_text("suffix", self.suffix.as_deref());
        session.end_object();
    }
}
