//! What is asked of an entry.

use crate::entries::entry_types::role_name;
use crate::entries::printing::put_entry;
use crate::entries::refusals::put_retrieval_error;
use crate::{CaseValue, Session, Value, put_chunks, put_member};
use biblatex::{Entry, RetrievalError};
use std::alloc::AllocError;

/// What can be asked of an entry.
const NAMES: [&str; 12] = [
    "entry",
    "role",
    "names",
    "parents",
    "title",
    "author",
    "translator",
    "editors",
    "date",
    "event_date",
    "orig_date",
    "url_date",
];

/// Shows what a case asks for; the entry where it asks for nothing.
pub(crate) fn show(session: &mut Session, case: &Value<'_>, entry: &Entry) {
    session.only_shown(case, &NAMES);
    for name in &NAMES {
        if session.is_shown(case, *name, *name == "entry") {
            put_asked(session, case, entry, *name);
        }
    }
}

/// Writes the member of the name.
fn put_asked(session: &mut Session, case: &Value<'_>, entry: &Entry, name: &str) {
    let alloc = session.alloc;
    match name {
        "entry" => put_whole(session, case, entry),
        "title" => put_title(session, case, entry),
        "author" => put_found(session, name, entry.author(alloc)),
        "translator" => put_found(session, name, entry.translator(alloc)),
        "date" => put_found(session, name, entry.date(alloc)),
        "event_date" => put_found(session, name, entry.event_date(alloc)),
        "orig_date" => put_found(session, name, entry.orig_date(alloc)),
        "url_date" => put_found(session, name, entry.url_date(alloc)),
        "role" => session.put_text(name, role_name(entry.entry_type.role())),
        "names" => put_made(session, name, entry.names(alloc)),
        "parents" => put_made(session, name, entry.parents(alloc)),
        _ => put_editors(session, entry),
    }
}

/// Writes the entry.
fn put_whole(session: &mut Session, case: &Value<'_>, entry: &Entry) {
    let has_spans = session.is_set(case, "places");
    session.key("entry");
    put_entry(session, entry, has_spans);
}

fn put_title(session: &mut Session, case: &Value<'_>, entry: &Entry) {
    let has_spans = session.is_set(case, "places");
    session.key("title");
    match entry.title() {
        Ok(chunks) => put_chunks(session, chunks, has_spans),
        Err(error) => put_retrieval_error(session, &error),
    }
}

/// Writes people, each list with what they did.
fn put_editors(session: &mut Session, entry: &Entry) {
    let editors = entry.editors(session.alloc);
    let Some(editors) = session.allocated(editors) else {
        return;
    };
    session.begin_list("editors");
    for editor in &editors {
        session.begin_object();
        put_member(session, "people", &editor.0);
        put_member(session, "type", &editor.1);
        session.end_object();
    }
    session.end_array();
}

/// Writes a value that was made as the member of the name.
fn put_made<T: CaseValue>(session: &mut Session, name: &str, made: Result<T, AllocError>) {
    if let Some(value) = session.allocated(made) {
        put_member(session, name, &value);
    }
}

/// Writes a value of a field, or why there is none.
pub(crate) fn put_value<T: CaseValue>(session: &mut Session, found: Result<T, RetrievalError>) {
    match found {
        Ok(value) => value.put(session),
        Err(error) => put_retrieval_error(session, &error),
    }
}

/// Writes the member of a value of a field, or why there is none.
fn put_found<T: CaseValue>(session: &mut Session, name: &str, found: Result<T, RetrievalError>) {
    session.key(name);
    put_value(session, found);
}
