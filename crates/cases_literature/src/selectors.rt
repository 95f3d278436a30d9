//! Selectors at entries, and queries.

use crate::given_entries::entry_member;
use crate::libraries::library_of;
use cases::{Refusal, Session, Value, member};
use literature::{Bindings, BoundSelect, Entry, Selected, Selector, SelectorError};

/// Writes why a text is no selector, and what is printed of that where it is to be shown.
fn put_refusal(session: &mut Session, case: &Value<'_>, error: &SelectorError) {
    put_fault(session, error);
    if session.is_shown(case, "message", false) {
        session.put_printed("message", error);
    }
}

/// Writes the name of a fault.
fn put_fault(session: &mut Session, error: &SelectorError) {
    match error {
        SelectorError::MissingValue => session.put_refused("MissingValue"),
        SelectorError::MalformedAttribute => session.put_refused("MalformedAttribute"),
        SelectorError::MissingComma => session.put_refused("MissingComma"),
        SelectorError::UnbalancedParens => session.put_refused("UnbalancedParens"),
        SelectorError::UnknownEntryType(name) => {
            session.put_refused("UnknownEntryType");
            session.put_text("type", name.as_str());
        }
        SelectorError::TooDeep => session.put_refused("TooDeep"),
        SelectorError::Memory => session.refuse(Refusal::Memory),
    }
}

/// Writes names in order, each with the key of the entry that it is bound to.
fn put_bindings(session: &mut Session, bindings: &Bindings<'_>) {
    session.begin_array();
    for (name, entry) in bindings.iter() {
        put_bound(session, name.as_str(), entry);
    }
    session.end_array();
}

/// Writes a name and the key of the entry that it is bound to.
fn put_bound(session: &mut Session, name: &str, entry: &Entry) {
    session.begin_object();
    session.put_text("name", name);
    session.put_text("entry", entry.key());
    session.end_object();
}

/// Writes what a selector binds at an entry, or null where it does not hold.
fn put_applied(session: &mut Session, selector: &Selector, entry: &Entry) {
    session.key("bindings");
    let applied = selector.apply(session.alloc, entry);
    match session.allocated(applied) {
        Some(Some(bindings)) => put_bindings(session, &bindings),
        _ => session.null(),
    }
}

/// Writes the key of the entry that is bound to a name, or null.
fn put_bound_to(session: &mut Session, selector: &Selector, entry: &Entry, name: &str) {
    let bound = entry.bound_select(session.alloc, selector, name);
    match session.allocated(bound) {
        Some(Some(bound)) => session.string(bound.key()),
        _ => session.null(),
    }
}

/// Writes what is asked of a selector at an entry.
fn put_at_entry(session: &mut Session, case: &Value<'_>, selector: &Selector, entry: &Entry) {
    if session.is_shown(case, "matches", true) {
        session.put_bool("matches", selector.matches(entry));
    }
    if session.is_shown(case, "bindings", true) {
        put_applied(session, selector, entry);
    }
    let names = session.texts(case, "names");
    if names.is_empty() {
        return;
    }
    session.begin_list("bound");
    for name in &names {
        put_bound_to(session, selector, entry, *name);
    }
    session.end_array();
}

/// Writes the tree of a selector.
fn put_parsed(session: &mut Session, selector: &Selector) {
    let parsed = format!(in session.alloc; "{selector:?}");
    if let Some(parsed) = session.allocated(parsed) {
        session.put_text("parsed", parsed.as_str());
    }
}

/// Writes what is asked of a selector.
fn put_selector(session: &mut Session, case: &Value<'_>, selector: &Selector) {
    let has_entry = member(case, "entry").is_some();
    if session.is_shown(case, "parsed", !has_entry) {
        put_parsed(session, selector);
    }
    if has_entry {
        if let Some(entry) = entry_member(session, case, "entry") {
            put_at_entry(session, case, selector, &*entry);
        }
    }
}

/// `selector`: a text that is read as a selector, and whether it holds at an entry.
pub(crate) fn selector(session: &mut Session, case: &Value<'_>) {
    session.only(
        case,
        &["case", "name", "selector", "entry", "names", "show"],
    );
    session.only_shown(case, &["parsed", "matches", "bindings", "message"]);
    match Selector::parse(session.alloc, session.text(case, "selector")) {
        Ok(selector) => put_selector(session, case, &selector),
        Err(error) => put_refusal(session, case, &error),
    }
}

/// Writes the entries that were found by their keys, and what is bound there.
fn put_all_found(session: &mut Session, all: &[Selected<'_>]) {
    session.begin_list("selected");
    for found in all {
        session.begin_object();
        session.put_text("entry", found.entry.key());
        session.key("bindings");
        put_bindings(session, &found.bindings);
        session.end_object();
    }
    session.end_array();
}

/// `query`: the entries of a library at which a selector holds.
pub(crate) fn query(session: &mut Session, case: &Value<'_>) {
    session.only(case, &["case", "name", "selector", "entries", "show"]);
    session.only_shown(case, &["message"]);
    let library = library_of(session, case);
    match library.query(session.alloc, session.text(case, "selector")) {
        Ok(all) => put_all_found(session, all.as_slice()),
        Err(error) => put_refusal(session, case, &error),
    }
}
