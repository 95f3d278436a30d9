//! Values that stand in cases and in answers.

use crate::{Session, Value, member};

/// A value that stands in cases and in answers.
pub trait CaseValue: Drop {
    /// The value that a case gives; of no use where that is none of the type, which is then refused.
    fn given(session: &mut Session, value: &Value<'_>) -> Self
    where
        Self: Sized;

    /// Writes the value.
    fn put(&self, session: &mut Session);
}

/// A list.
impl<T: CaseValue> CaseValue for Vec<T> {
    fn given(session: &mut Session, value: &Value<'_>) -> Vec<T> {
        let mut list = Vec::new(session.alloc);
        let Value::Array(items) = value else {
            session.want("value", "a list");
            return list;
        };
        for item in items {
            let item = T::given(session, item);
            session.push(&mut list, item);
        }
        list
    }

    fn put(&self, session: &mut Session) {
        put_list(session, self.as_slice());
    }
}

/// A text.
impl CaseValue for String {
    fn given(session: &mut Session, value: &Value<'_>) -> String {
        match value.as_str() {
            Some(text) => session.owned(text),
            None => {
                session.want("value", "a text");
                String::new(session.alloc)
            }
        }
    }

    fn put(&self, session: &mut Session) {
        session.string(self.as_str());
    }
}

/// The value of a member.
pub fn given<T: CaseValue>(session: &mut Session, object: &Value<'_>, name: &'static str) -> T {
    match member(object, name) {
        Some(value) => T::given(session, value),
        None => {
            session.want(name, "there");
            T::given(session, &Value::Null)
        }
    }
}

/// The value of a member that may be left out.
pub fn maybe_given<T: CaseValue>(
    session: &mut Session,
    object: &Value<'_>,
    name: &str,
) -> Option<T> {
    match member(object, name) {
        Some(value) => Some(T::given(session, value)),
        None => None,
    }
}

/// Writes values as a list.
pub fn put_list<T: CaseValue>(session: &mut Session, values: &[T]) {
    session.begin_array();
    for value in values {
        value.put(session);
    }
    session.end_array();
}

/// Writes a value as the member of the name.
pub fn put_member<T: CaseValue>(session: &mut Session, name: &str, value: &T) {
    session.key(name);
    value.put(session);
}

/// Writes a value as the member of the name, where there is one.
pub fn put_maybe<T: CaseValue>(session: &mut Session, name: &str, value: Option<&T>) {
    if let Some(value) = value {
        put_member(session, name, value);
    }
}

/// Writes a value, or null.
pub fn put_or_null<T: CaseValue>(session: &mut Session, value: Option<&T>) {
    match value {
        Some(value) => value.put(session),
        None => session.null(),
    }
}
