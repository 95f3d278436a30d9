//! Integers, texts, editor types, ranges of pages, and values that may be chunks, in cases and in answers.

use crate::values::case_value::CaseValue;
use crate::{Session, Value, put_chunks, read_chunks};
use biblatex::{EditorType, PermissiveType};
use std::ops::Range;

impl CaseValue for i64 {
    fn given(session: &mut Session, value: &Value<'_>) -> i64 {
        match value.as_i64() {
            Some(number) => number,
            None => {
                session.want("value", "an integer");
                0
            }
        }
    }

    fn put(&self, session: &mut Session) {
        session.integer(*self);
    }
}

/// The editor type of an object with the name of one that is not known.
fn unknown(session: &mut Session, value: &Value<'_>) -> EditorType {
    session.only(value, &["unknown"]);
    EditorType::Unknown(session.owned_text(value, "unknown"))
}

/// A known editor type is its word, another one an object with its name.
impl CaseValue for EditorType {
    fn given(session: &mut Session, value: &Value<'_>) -> EditorType {
        let Some(word) = value.as_str() else {
            return unknown(session, value);
        };
        let read = EditorType::new(session.alloc, word);
        match session.allocated(read) {
            None | Some(EditorType::Unknown(_)) => unknown(session, value),
            Some(known) => known,
        }
    }

    fn put(&self, session: &mut Session) {
        let EditorType::Unknown(name) = self else {
            return session.string(self.name());
        };
        session.begin_object();
        session.put_text("unknown", name.as_str());
        session.end_object();
    }
}

fn page(value: &Value<'_>) -> Option<u32> {
    u32::try_from(value.as_u64()?).ok()
}

/// The first page and the last one.
fn pages(value: &Value<'_>) -> Option<Range<u32>> {
    let Value::Array(ends) = value else {
        return None;
    };
    let [first, last] = ends.as_slice() else {
        return None;
    };
    Some(page(first)?..page(last)?)
}

/// A range of pages is a list of its first page and its last one.
impl CaseValue for Range<u32> {
    fn given(session: &mut Session, value: &Value<'_>) -> Range<u32> {
        match pages(value) {
            Some(range) => range,
            None => {
                session.want("value", "[first page, last page]");
                0..0
            }
        }
    }

    fn put(&self, session: &mut Session) {
        session.begin_array();
        session.unsigned(u64::from(self.start));
        session.unsigned(u64::from(self.end));
        session.end_array();
    }
}

/// A value of the type, or an object with the chunks.
impl<T: CaseValue> CaseValue for PermissiveType<T> {
    fn given(session: &mut Session, value: &Value<'_>) -> PermissiveType<T> {
        if value.get("chunks").is_some() {
            return PermissiveType::Chunks(read_chunks(session, value, "chunks"));
        }
        PermissiveType::Typed(T::given(session, value))
    }

    fn put(&self, session: &mut Session) {
        match self {
            PermissiveType::Typed(value) => value.put(session),
            PermissiveType::Chunks(chunks) => {
                session.begin_object();
                session.key("chunks");
                put_chunks(session, chunks.as_slice(), true);
                session.end_object();
            }
        }
    }
}
