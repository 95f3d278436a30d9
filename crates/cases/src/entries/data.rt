//! Entries and values of fields that a case has as data.

use crate::{Session, Value, normal_chunks, read_chunks_in};
use biblatex::{Chunks, Entry, EntryType};

/// What a value of a field has to be.
const VALUE: &str = "a text or a list of chunks";

/// The entry of the members `key`, `type` and `fields`; none where memory was refused.
pub fn read_entry(session: &mut Session, object: &Value<'_>) -> Option<Entry> {
    let entry_type = EntryType::new(session.alloc, session.text(object, "type"));
    let entry_type = session.allocated(entry_type)?;
    let key = session.owned_text(object, "key");
    let mut entry = Entry::new(session.alloc, key, entry_type);
    set_fields(session, object, &mut entry);
    Some(entry)
}

/// Gives an entry the fields of the member `fields`.
fn set_fields(session: &mut Session, object: &Value<'_>, entry: &mut Entry) {
    match object.get("fields") {
        None => {}
        Some(Value::Object(members)) => {
            for member in members {
                let value = read_value(session, &member.1);
                session.check(entry.set(member.0, value));
            }
        }
        Some(_) => session.want("fields", "an object"),
    }
}

/// Gives an entry the field of the member `field`, with the value of the member `value`.
pub(crate) fn set_field(session: &mut Session, object: &Value<'_>, entry: &mut Entry) {
    let Some(value) = object.get("value") else {
        return session.want("value", VALUE);
    };
    let field = session.text(object, "field");
    let value = read_value(session, value);
    session.check(entry.set(field, value));
}

/// Puts a field into an entry, under the name of the member `field` as it is, with the value of the member `value`.
pub(crate) fn put_field(session: &mut Session, object: &Value<'_>, entry: &mut Entry) {
    let Some(value) = object.get("value") else {
        return session.want("value", VALUE);
    };
    let name = session.owned_text(object, "field");
    let value = read_value(session, value);
    session.check(entry.fields.insert(name, value));
}

/// A value of a field: a list of chunks, or a text, which is one normal chunk of no source.
fn read_value(session: &mut Session, value: &Value<'_>) -> Chunks {
    match value {
        Value::String(text) => normal_chunks(session, text, None),
        Value::Array(items) => read_chunks_in(session, items.as_slice()),
        _ => {
            session.want("value", VALUE);
            Vec::new(session.alloc)
        }
    }
}
