//! Entries of BibLaTeX files as entries of a library.

use biblatex::{Bibliography, Entry};
use cases::{Session, Value, put_parse_error};
use cases_literature::{ENTRY_DEPTH, boxed, put_entry};
use cases_rendering::{bridged, put_bridge_error, put_unknown, read_source};
use interop::entry;

/// The members of a case.
const MEMBERS: [&str; 6] = ["case", "name", "bib", "entries", "entry", "message"];

/// Writes the entries of the library that a file comes to, or the one that an entry comes to; or why there is none.
pub(crate) fn answer_bridge(session: &mut Session, case: &Value<'_>) {
    session.only(case, &MEMBERS);
    match read_source(session, case) {
        Ok(bibliography) => put_bridged(session, case, &bibliography),
        Err(error) => put_parse_error(session, case, &error),
    }
}

/// Writes the library of entries, or the work of the one that is named.
fn put_bridged(session: &mut Session, case: &Value<'_>, bibliography: &Bibliography) {
    let Some(name) = session.maybe_text(case, "entry") else {
        return put_library(session, case, bibliography);
    };
    match bibliography.get(name) {
        Some(read) => put_work(session, case, read),
        None => put_unknown(session, name),
    }
}

/// Writes what an entry comes to.
fn put_work(session: &mut Session, case: &Value<'_>, read: &Entry) {
    match entry(session.alloc, read) {
        Ok(work) => put_member(session, work),
        Err(error) => put_bridge_error(session, case, &error),
    }
}

/// Writes the entry of a library as the member `entry`.
fn put_member(session: &mut Session, work: literature::Entry) {
    if let Some(work) = boxed(session, work) {
        session.key("entry");
        put_entry(session, &*work, ENTRY_DEPTH);
    }
}

/// Writes the entries of the library that a file comes to, in their order.
fn put_library(session: &mut Session, case: &Value<'_>, bibliography: &Bibliography) {
    let Some(library) = bridged(session, case, bibliography) else {
        return;
    };
    session.begin_list("entries");
    for entry in library.iter() {
        put_entry(session, entry, ENTRY_DEPTH);
    }
    session.end_array();
}
