//! One entry: what changes it, and what is asked of it.

use crate::entries::data::{read_entry, set_field};
use crate::entries::fields::{get_as, set_typed};
use crate::entries::getters::show;
use crate::entries::printing::put_value;
use crate::entries::refusals::put_parse_error;
use crate::{Session, Value};
use biblatex::{Bibliography, Entry};

/// Answers a case of the kind `entry`.
pub(crate) fn answer_entry(session: &mut Session, case: &Value<'_>) {
    session.only(
        case,
        &[
            "case", "name", "bib", "entry", "key", "type", "fields", "steps", "places", "show",
            "message",
        ],
    );
    match session.maybe_text(case, "bib") {
        Some(bib) => answer_parsed(session, case, bib),
        None => answer_data(session, case),
    }
}

/// Answers a case of an entry as data.
fn answer_data(session: &mut Session, case: &Value<'_>) {
    if let Some(mut entry) = read_entry(session, case) {
        answer_of(session, case, &mut entry);
    }
}

/// Answers a case of an entry of a text.
fn answer_parsed(session: &mut Session, case: &Value<'_>, bib: &str) {
    match Bibliography::parse(session.alloc, bib) {
        Ok(mut bibliography) => answer_in(session, case, &mut bibliography),
        Err(error) => put_parse_error(session, case, &error),
    }
}

/// Answers a case of an entry of a bibliography: that of the member `entry`, or the first.
fn answer_in(session: &mut Session, case: &Value<'_>, bibliography: &mut Bibliography) {
    let entry = match session.maybe_text(case, "entry") {
        Some(name) => bibliography.get_mut(name),
        None => bibliography.entry_mut(0),
    };
    match entry {
        Some(entry) => answer_of(session, case, entry),
        None => {
            session.key("entry");
            session.null();
        }
    }
}

/// Takes the steps of a case, and shows what it asks for.
fn answer_of(session: &mut Session, case: &Value<'_>, entry: &mut Entry) {
    if let Some(steps) = session.items(case, "steps") {
        session.begin_list("steps");
        for step in steps {
            take_step(session, step, entry);
        }
        session.end_array();
    }
    show(session, case, entry);
}

/// Takes a step, and writes what it gives back.
fn take_step(session: &mut Session, step: &Value<'_>, entry: &mut Entry) {
    match session.text(step, "step") {
        "set" => set(session, step, entry),
        "set_as" => set_as(session, step, entry),
        "remove" => remove(session, step, entry),
        "get" => get(session, step, entry),
        "get_as" => get_as(session, step, entry),
        _ => session.want("step", "set, set_as, remove, get or get_as"),
    }
}

/// Gives an entry a field.
fn set(session: &mut Session, step: &Value<'_>, entry: &mut Entry) {
    session.only(step, &["step", "field", "value"]);
    set_field(session, step, entry);
    session.null();
}

/// Gives an entry a field, as the value of a type.
fn set_as(session: &mut Session, step: &Value<'_>, entry: &mut Entry) {
    session.only(step, &["step", "field", "type", "value"]);
    set_typed(session, step, entry);
    session.null();
}

/// Takes a field out, and writes its value, or null.
fn remove(session: &mut Session, step: &Value<'_>, entry: &mut Entry) {
    session.only(step, &["step", "field"]);
    let value = entry.remove(session.text(step, "field"));
    put_value(session, value.as_ref());
}

/// Writes the value of a field, or null.
fn get(session: &mut Session, step: &Value<'_>, entry: &Entry) {
    session.only(step, &["step", "field"]);
    let value = entry.get(session.text(step, "field"));
    put_value(session, value);
}
