//! Addresses and serial numbers, as JSON.

use crate::values::case_value::{CaseValue, maybe_given, put_maybe};
use crate::{Refusal, Session, Value};
use literature::{MaybeTyped, QualifiedUrl, SerialNumber, Url};
use std::collections::BTreeMap;
use url::ParseError;

/// The address that a text spells.
fn address_of(session: &mut Session, text: &str) -> MaybeTyped<Url> {
    match Url::parse(session.alloc, text) {
        Ok(url) => return MaybeTyped::Typed(url),
        Err(ParseError::OutOfMemory) => session.refuse(Refusal::Memory),
        Err(_) => session.want("url", "an address"),
    }
    MaybeTyped::String(String::new(session.alloc))
}

/// An address, or a text that spells none.
fn maybe_address(session: &mut Session, value: &Value<'_>) -> MaybeTyped<Url> {
    match session.maybe_text(value, "url") {
        Some(address) => address_of(session, address),
        None => MaybeTyped::String(session.owned_text(value, "text")),
    }
}

/// Writes an address, or a text that spells none, as a member.
fn put_address(session: &mut Session, address: &MaybeTyped<Url>) {
    match address {
        MaybeTyped::Typed(url) => session.put_text("url", url.as_str()),
        MaybeTyped::String(text) => session.put_text("text", text.as_str()),
    }
}

/// An address, and the day of the last visit.
impl CaseValue for QualifiedUrl {
    fn given(session: &mut Session, value: &Value<'_>) -> QualifiedUrl {
        session.only(value, &["url", "text", "visit_date"]);
        QualifiedUrl {
            value: maybe_address(session, value),
            visit_date: maybe_given(session, value, "visit_date"),
        }
    }

    fn put(&self, session: &mut Session) {
        session.begin_object();
        put_address(session, &self.value);
        put_maybe(session, "visit_date", self.visit_date.as_ref());
        session.end_object();
    }
}

/// Puts a number in under the name of its scheme.
fn insert(
    session: &mut Session,
    numbers: &mut BTreeMap<String, String>,
    scheme: &str,
    number: &Value<'_>,
) {
    let Some(number) = number.as_str() else {
        return session.want("serial_number", "an object of texts");
    };
    let scheme = session.owned(scheme);
    let number = session.owned(number);
    if numbers.insert(scheme, number).is_err() {
        session.refuse(Refusal::Memory);
    }
}

/// Numbers by the names of their schemes.
impl CaseValue for SerialNumber {
    fn given(session: &mut Session, value: &Value<'_>) -> SerialNumber {
        let mut numbers = BTreeMap::new(session.alloc);
        let Value::Object(members) = value else {
            session.want("serial_number", "an object of texts");
            return SerialNumber(numbers);
        };
        for member in members {
            insert(session, &mut numbers, member.0, &member.1);
        }
        SerialNumber(numbers)
    }

    fn put(&self, session: &mut Session) {
        session.begin_object();
        for (scheme, number) in &self.0 {
            session.put_text(scheme.as_str(), number.as_str());
        }
        session.end_object();
    }
}
