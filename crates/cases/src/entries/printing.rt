//! Entries, their fields and their values, as they are written in answers.

use crate::{Session, put_chunks};
use biblatex::{Chunks, Entry};

/// Writes an entry: its key, its type and its fields in the order of their names, of which chunks have their spans if that is asked.
pub(crate) fn put_entry(session: &mut Session, entry: &Entry, has_spans: bool) {
    session.begin_object();
    session.put_text("key", entry.key.as_str());
    session.put_text("type", entry.entry_type.name());
    session.key("fields");
    session.begin_object();
    for (name, value) in entry.fields.iter() {
        session.key(name.as_str());
        put_chunks(session, value.as_slice(), has_spans);
    }
    session.end_object();
    session.end_object();
}

/// Writes chunks, or null where there are none to write.
pub(crate) fn put_value(session: &mut Session, value: Option<&Chunks>) {
    match value {
        Some(value) => put_chunks(session, value.as_slice(), false),
        None => session.null(),
    }
}
