//! Libraries.

use crate::ENTRY_DEPTH;
use crate::given_entries::{entry_member, entry_of};
use crate::written_entries::put_entry;
use cases::{Session, Value};
use literature::{Entry, Library};
use std::alloc::AllocError;

/// The library of the entries of a case, pushed in their order.
pub(crate) fn library_of(session: &mut Session, case: &Value<'_>) -> Library {
    let mut library = Library::new(session.alloc);
    let Some(entries) = session.items(case, "entries") else {
        return library;
    };
    for entry in entries {
        let entry = entry_of(session, entry, ENTRY_DEPTH);
        session.check(library.push(entry));
    }
    library
}

/// Writes the keys of a library.
fn put_keys(session: &mut Session, library: &Library) {
    session.begin_array();
    for key in library.keys() {
        session.string(key);
    }
    session.end_array();
}

/// Writes the keys of the entries of a library.
fn put_entry_keys(session: &mut Session, library: &Library) {
    session.begin_array();
    for entry in library {
        session.string(entry.key());
    }
    session.end_array();
}

/// Writes the keys of the entries that are taken out of a library.
fn put_taken_keys(session: &mut Session, library: Library) {
    let taken: Result<Vec<Entry>, AllocError> = library.into_iter().collect(session.alloc);
    let Some(entries) = session.allocated(taken) else {
        return;
    };
    session.begin_list("entries");
    for entry in &entries {
        session.string(entry.key());
    }
    session.end_array();
}

/// Writes an entry, or null.
fn put_maybe_entry(session: &mut Session, entry: Option<&Entry>) {
    match entry {
        Some(entry) => put_entry(session, entry, ENTRY_DEPTH),
        None => session.null(),
    }
}

/// Writes what a step returns that changes nothing.
fn put_found(session: &mut Session, step: &Value<'_>, name: &str, library: &Library) {
    match name {
        "get" => {
            let entry = library.get(session.text(step, "key"));
            put_maybe_entry(session, entry);
        }
        "nth" => {
            let entry = library.nth(session.count(step, "place"));
            put_maybe_entry(session, entry);
        }
        "len" => session.unsigned(library.len() as u64),
        "is_empty" => session.boolean(library.is_empty()),
        "keys" => put_keys(session, library),
        "iter" => put_entry_keys(session, library),
        _ => session.want("step", "the name of a call"),
    }
}

/// Puts the entry of a step in.
fn push(session: &mut Session, step: &Value<'_>, library: &mut Library) {
    if let Some(entry) = entry_member(session, step, "entry") {
        session.check(library.push(Box::into_inner(entry)));
    }
    session.null();
}

/// Takes the entry of a key out, and writes it, or null.
fn remove(session: &mut Session, step: &Value<'_>, library: &mut Library) {
    let removed = library.remove(session.text(step, "key"));
    put_maybe_entry(session, removed.as_ref());
}

/// Takes a step, and writes what it returns.
fn take_step(session: &mut Session, step: &Value<'_>, library: &mut Library) {
    session.only(step, &["step", "key", "place", "entry"]);
    match session.text(step, "step") {
        "push" => push(session, step, library),
        "remove" => remove(session, step, library),
        name => put_found(session, step, name, library),
    }
}

/// `library`: what calls of a library return, one after the other, and the keys of the entries that it has at last.
pub(crate) fn library(session: &mut Session, case: &Value<'_>) {
    session.only(case, &["case", "name", "entries", "steps"]);
    let mut library = library_of(session, case);
    session.begin_list("steps");
    if let Some(steps) = session.items(case, "steps") {
        for step in steps {
            take_step(session, step, &mut library);
        }
    }
    session.end_array();
    put_taken_keys(session, library);
}
