//! Bytes in cases: a text where they are UTF-8, a list of numbers where they need not be.

use cases::{Session, Value};

/// What a member with bytes has to be.
const BYTES: &str = "a text or a list of bytes";

/// The bytes of a member.
pub(crate) fn bytes(session: &mut Session, object: &Value<'_>, name: &'static str) -> Vec<u8> {
    match object.get(name) {
        Some(value) => bytes_of(session, value, name),
        None => {
            session.want(name, BYTES);
            Vec::new(session.alloc)
        }
    }
}

/// The bytes of a value, which stands in the member of that name.
pub fn bytes_of(session: &mut Session, value: &Value<'_>, name: &'static str) -> Vec<u8> {
    match value {
        Value::String(text) => bytes_in_text(session, text),
        Value::Array(items) => bytes_in(session, items, name),
        _ => {
            session.want(name, BYTES);
            Vec::new(session.alloc)
        }
    }
}

fn bytes_in_text(session: &mut Session, text: &str) -> Vec<u8> {
    let copied = text.as_bytes().to_vec(session.alloc);
    match session.allocated(copied) {
        Some(bytes) => bytes,
        None => Vec::new(session.alloc),
    }
}

/// The bytes of a list.
fn bytes_in(session: &mut Session, items: &[Value<'_>], name: &'static str) -> Vec<u8> {
    let mut bytes = Vec::new(session.alloc);
    for item in items {
        match byte(item) {
            Some(byte) => session.push(&mut bytes, byte),
            None => session.want(name, BYTES),
        }
    }
    bytes
}

/// A number as a byte.
fn byte(item: &Value<'_>) -> Option<u8> {
    u8::try_from(item.as_u64()?).ok()
}
