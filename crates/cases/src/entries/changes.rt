//! Changes of the entries of a bibliography, through references to them.

use crate::entries::data::{put_field, set_field};
use crate::entries::fields::set_typed;
use crate::{Session, Value};
use biblatex::{Bibliography, Entry, EntryType};

/// Takes a step that changes entries, and writes what it gives back.
pub(crate) fn change(
    session: &mut Session,
    word: &str,
    step: &Value<'_>,
    bibliography: &mut Bibliography,
) {
    match word {
        "set" => set(session, step, bibliography),
        "set_as" => set_as(session, step, bibliography),
        "put" => put(session, step, bibliography),
        "set_at" => set_at(session, step, bibliography),
        "set_key" => set_key(session, step, bibliography),
        "set_type" => set_type(session, step, bibliography),
        "set_each" => set_each(session, step, bibliography),
        "set_keys" => set_keys(session, step, bibliography),
        "flatten" => flatten(session, step, bibliography),
        _ => session.want("step", "a step of a bibliography"),
    }
}

/// Gives the entry that a name means a field.
fn set(session: &mut Session, step: &Value<'_>, bibliography: &mut Bibliography) {
    session.only(step, &["step", "entry", "field", "value"]);
    let entry = bibliography.get_mut(session.text(step, "entry"));
    set_in(session, step, entry);
}

/// Gives the entry at an index a field.
fn set_at(session: &mut Session, step: &Value<'_>, bibliography: &mut Bibliography) {
    session.only(step, &["step", "place", "field", "value"]);
    let entry = bibliography.entry_mut(session.count(step, "place"));
    set_in(session, step, entry);
}

/// Gives an entry a field, and writes whether there is one.
fn set_in(session: &mut Session, step: &Value<'_>, entry: Option<&mut Entry>) {
    let is_there = entry.is_some();
    if let Some(entry) = entry {
        set_field(session, step, entry);
    }
    session.boolean(is_there);
}

/// Gives the entry that a name means a field, as the value of a type, and writes whether there is one.
fn set_as(session: &mut Session, step: &Value<'_>, bibliography: &mut Bibliography) {
    session.only(step, &["step", "entry", "field", "type", "value"]);
    let entry = bibliography.get_mut(session.text(step, "entry"));
    let is_there = entry.is_some();
    if let Some(entry) = entry {
        set_typed(session, step, entry);
    }
    session.boolean(is_there);
}

/// Puts a field into the entry that a name means, under a name that is taken as it is, and writes whether there is one.
fn put(session: &mut Session, step: &Value<'_>, bibliography: &mut Bibliography) {
    session.only(step, &["step", "entry", "field", "value"]);
    let entry = bibliography.get_mut(session.text(step, "entry"));
    let is_there = entry.is_some();
    if let Some(entry) = entry {
        put_field(session, step, entry);
    }
    session.boolean(is_there);
}

/// Gives the entry at an index a key, and writes whether there is one.
fn set_key(session: &mut Session, step: &Value<'_>, bibliography: &mut Bibliography) {
    session.only(step, &["step", "place", "key"]);
    let key = session.owned_text(step, "key");
    let entry = bibliography.entry_mut(session.count(step, "place"));
    let is_there = entry.is_some();
    if let Some(entry) = entry {
        entry.key = key;
    }
    session.boolean(is_there);
}

/// Gives the entry at an index an unknown type of that name, as it is, and writes whether there is one.
fn set_type(session: &mut Session, step: &Value<'_>, bibliography: &mut Bibliography) {
    session.only(step, &["step", "place", "unknown"]);
    let name = session.owned_text(step, "unknown");
    let entry = bibliography.entry_mut(session.count(step, "place"));
    let is_there = entry.is_some();
    if let Some(entry) = entry {
        entry.entry_type = EntryType::Unknown(name);
    }
    session.boolean(is_there);
}

/// Gives each entry a field.
fn set_each(session: &mut Session, step: &Value<'_>, bibliography: &mut Bibliography) {
    session.only(step, &["step", "field", "value"]);
    for entry in bibliography.iter_mut() {
        set_field(session, step, entry);
    }
    session.null();
}

/// Gives the entries keys in their order, as many as there are of both.
fn set_keys(session: &mut Session, step: &Value<'_>, bibliography: &mut Bibliography) {
    session.only(step, &["step", "keys"]);
    let keys = session.texts(step, "keys");
    for (index, entry) in bibliography.iter_mut().enumerate() {
        if let Some(key) = keys.get(index) {
            entry.key = session.owned(key);
        }
    }
    session.null();
}

/// Takes `crossref` out of each entry.
fn flatten(session: &mut Session, step: &Value<'_>, bibliography: &mut Bibliography) {
    session.only(step, &["step"]);
    bibliography.flatten();
    session.null();
}
