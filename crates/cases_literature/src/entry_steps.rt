//! What is asked of entries one by one, and set in them.

use crate::ENTRY_DEPTH;
use crate::copies::put_copies;
use crate::given_entries::entry_member;
use crate::written_entries::put_entry;
use cases::{CaseValue, Session, Value, put_or_null};
use literature::Entry;
use std::alloc::AllocError;
use std::hash::{DefaultHasher, Hash, Hasher};

/// The hash of an entry.
fn hash_of(entry: &Entry) -> u64 {
    let mut state = DefaultHasher::new();
    entry.hash(&mut state);
    state.finish()
}

/// Writes whether two entries are equal, and whether their hashes are.
fn put_equal(session: &mut Session, one: &Entry, other: &Entry) {
    session.put_bool("is_equal", *one == *other);
    session.put_bool("hashes_alike", hash_of(one) == hash_of(other));
}

/// `equal_entries`: whether two entries are equal, and whether their hashes are.
pub(crate) fn equal_entries(session: &mut Session, case: &Value<'_>) {
    session.only(case, &["case", "name", "one", "other"]);
    let Some(one) = entry_member(session, case, "one") else {
        return;
    };
    if let Some(other) = entry_member(session, case, "other") {
        put_equal(session, &*one, &*other);
    }
}

/// The key of the first entry that has the field, of the entry and its ancestors.
fn first_with<'e>(entry: &'e Entry, field: &str) -> Result<Option<&'e str>, AllocError> {
    entry.map(|one| if one.has(field) {
        Some(one.key())
    } else {
        None
    })
}

/// The same of its ancestors alone.
fn first_parent_with<'e>(entry: &'e Entry, field: &str) -> Result<Option<&'e str>, AllocError> {
    entry.map_parents(|one| if one.has(field) {
        Some(one.key())
    } else {
        None
    })
}

/// Sets the serial number of a scheme that has a call of its own; false where the step is none of these calls.
fn set_number(name: &str, number: String, entry: &mut Entry) -> Result<bool, AllocError> {
    let is_set = match name {
        "set_doi" => entry.set_doi(number),
        "set_isbn" => entry.set_isbn(number),
        "set_issn" => entry.set_issn(number),
        "set_pmid" => entry.set_pmid(number),
        "set_pmcid" => entry.set_pmcid(number),
        "set_arxiv" => entry.set_arxiv(number),
        _ => return Ok(false),
    };
    is_set.map(|()| true)
}

/// Takes a step that sets a serial number; false where it is none.
fn take_number(session: &mut Session, step: &Value<'_>, name: &str, entry: &mut Entry) -> bool {
    let Some(number) = session.maybe_owned_text(step, "number") else {
        return false;
    };
    if name == "set_keyed_serial_number" {
        let scheme = session.text(step, "scheme");
        session.check(entry.set_keyed_serial_number(scheme, number));
        return true;
    }
    session
        .allocated(set_number(name, number, entry))
        .unwrap_or(false)
}

/// Writes the answer of a step that asks for a serial number; false where it is none.
fn put_number(session: &mut Session, step: &Value<'_>, name: &str, entry: &Entry) -> bool {
    let number = match name {
        "doi" => entry.doi(),
        "isbn" => entry.isbn(),
        "issn" => entry.issn(),
        "pmid" => entry.pmid(),
        "pmcid" => entry.pmcid(),
        "arxiv" => entry.arxiv(),
        "keyed_serial_number" => entry.keyed_serial_number(session.text(step, "scheme")),
        _ => return false,
    };
    session.string_or_null(number);
    true
}

/// Writes the key of an entry that was found, or null.
fn put_found_key(session: &mut Session, found: Result<Option<&str>, AllocError>) {
    if let Some(key) = session.allocated(found) {
        session.string_or_null(key);
    }
}

/// Writes the answer of a step that asks which entry has a field; false where it is none.
fn put_first(session: &mut Session, step: &Value<'_>, name: &str, entry: &Entry) -> bool {
    let Some(field) = session.maybe_text(step, "field") else {
        return false;
    };
    match name {
        "has" => session.boolean(entry.has(field)),
        "map" => put_found_key(session, first_with(entry, field)),
        "map_parents" => put_found_key(session, first_parent_with(entry, field)),
        _ => return false,
    }
    true
}

/// Writes what is found of an entry and its ancestors, or null.
fn put_any<T: CaseValue>(session: &mut Session, found: Result<Option<&T>, AllocError>) {
    if let Some(value) = session.allocated(found) {
        put_or_null(session, value);
    }
}

/// Writes the answer of a step that asks for anything else.
fn put_found(session: &mut Session, name: &str, entry: &Entry) {
    match name {
        "date_any" => put_any(session, entry.date_any()),
        "url_any" => put_any(session, entry.url_any()),
        "entry" => put_entry(session, entry, ENTRY_DEPTH),
        "copies" => put_copies(session, entry),
        _ => session.want("step", "the name of a call"),
    }
}

/// Takes a step, and writes what it returns.
fn take_step(session: &mut Session, step: &Value<'_>, entry: &mut Entry) {
    session.only(step, &["step", "field", "scheme", "number"]);
    let name = session.text(step, "step");
    if take_number(session, step, name, entry) {
        session.null();
    } else if !put_number(session, step, name, entry) && !put_first(session, step, name, entry) {
        put_found(session, name, entry);
    }
}

/// Takes the steps in order, and writes what each returns.
fn take_steps(session: &mut Session, steps: &[Value<'_>], entry: &mut Entry) {
    session.begin_list("steps");
    for step in steps {
        take_step(session, step, entry);
    }
    session.end_array();
}

/// `library_entry`: what calls of an entry return, one after the other.
pub(crate) fn library_entry(session: &mut Session, case: &Value<'_>) {
    session.only(case, &["case", "name", "entry", "steps"]);
    let Some(steps) = session.items(case, "steps") else {
        return session.want("steps", "a list");
    };
    if let Some(mut entry) = entry_member(session, case, "entry") {
        take_steps(session, steps, &mut *entry);
    }
}
