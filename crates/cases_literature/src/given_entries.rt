//! Entries, read from JSON.

use crate::ENTRY_DEPTH;
use crate::fields::set_fields;
use cases::{Refusal, Session, Value, member};
use literature::{Entry, EntryType};

/// The members of an entry.
const MEMBERS: [&str; 20] = [
    "key",
    "type",
    "title",
    "author",
    "editor",
    "translator",
    "date",
    "publisher",
    "volume",
    "volume_total",
    "issue",
    "chapter",
    "edition",
    "page_range",
    "page_total",
    "url",
    "serial_number",
    "note",
    "language",
    "parents",
];

/// The type of an entry.
fn type_of(session: &mut Session, given: &Value<'_>) -> EntryType {
    match EntryType::read(session.text(given, "type")) {
        Some(entry_type) => entry_type,
        None => {
            session.want("type", "a type of entries");
            EntryType::Misc
        }
    }
}

/// An entry without fields and parents.
fn bare(session: &mut Session, given: &Value<'_>) -> Entry {
    session.only(given, &MEMBERS);
    let entry_type = type_of(session, given);
    Entry::new(session.owned_text(given, "key"), entry_type)
}

/// A value in a box, since to hold and to hand on what is in a box costs nothing; none where memory was refused.
pub fn boxed<T: Drop>(session: &mut Session, value: T) -> Option<Box<T>> {
    match Box::new(session.alloc, value) {
        Ok(boxed) => Some(boxed),
        Err(_) => {
            session.refuse(Refusal::Memory);
            None
        }
    }
}

/// The entry of a member, where there is one.
pub fn entry_member(
    session: &mut Session,
    case: &Value<'_>,
    name: &'static str,
) -> Option<Box<Entry>> {
    match member(case, name) {
        Some(given) => {
            let entry = entry_of(session, given, ENTRY_DEPTH);
            boxed(session, entry)
        }
        None => {
            session.want(name, "an entry");
            None
        }
    }
}

/// An entry, whose parents nest at most so deep.
#[cycle(entry)]
pub(crate) fn entry_of(session: &mut Session, given: &Value<'_>, depth: u32) -> Entry {
    let mut entry = bare(session, given);
    set_fields(session, given, &mut entry);
    entry.set_parents(parents_of(session, given, depth));
    entry
}

/// The entries that an entry is part of.
#[cycle(entry)]
fn parents_of(session: &mut Session, given: &Value<'_>, depth: u32) -> Vec<Entry> {
    let mut parents = Vec::new(session.alloc);
    let Some(items) = session.items(given, "parents") else {
        return parents;
    };
    if depth == 0 {
        session.want("parents", "entries less deep in one another");
        return parents;
    }
    for item in items {
        let parent = entry_of(session, item, depth - 1);
        session.push(&mut parents, parent);
    }
    parents
}
