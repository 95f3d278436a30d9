//! Bibliographies: what is read of a text, what is put in and taken out then, and what names mean.

use crate::entries::changes::change;
use crate::entries::data::read_entry;
use crate::entries::files::show_written;
use crate::entries::printing::put_entry;
use crate::entries::refusals::{put_parse_error, put_raw_error};
use crate::{Session, Value};
use biblatex::{Bibliography, Entry, RawBibliography};

/// Answers a case of the kind `bibliography`.
pub(crate) fn answer_bibliography(session: &mut Session, case: &Value<'_>) {
    session.only(
        case,
        &[
            "case", "name", "bib", "counted", "steps", "places", "show", "sink", "message",
        ],
    );
    let bib = session.maybe_text(case, "bib").unwrap_or("");
    if session.is_set(case, "counted") {
        return answer_counted(session, case, bib);
    }
    match Bibliography::parse(session.alloc, bib) {
        Ok(mut bibliography) => answer_read(session, case, &mut bibliography),
        Err(error) => put_parse_error(session, case, &error),
    }
}

/// Answers a case of a text that is read in two steps, with the number of entries that were made.
fn answer_counted(session: &mut Session, case: &Value<'_>, bib: &str) {
    match RawBibliography::parse(session.alloc, bib) {
        Ok(raw) => answer_raw(session, case, raw),
        Err(error) => put_raw_error(session, case, &error),
    }
}

/// Answers a case of what the grammar reads of a text, with the number of entries that were made.
fn answer_raw(session: &mut Session, case: &Value<'_>, raw: RawBibliography<'_>) {
    match Bibliography::from_raw_counted(session.alloc, raw) {
        Ok(mut counted) => {
            session.put_count("count", counted.count);
            answer_read(session, case, &mut counted.bibliography);
        }
        Err(error) => put_parse_error(session, case, &error),
    }
}

/// Takes the steps of a case, and shows what it asks for.
fn answer_read(session: &mut Session, case: &Value<'_>, bibliography: &mut Bibliography) {
    if let Some(steps) = session.items(case, "steps") {
        session.begin_list("steps");
        for step in steps {
            take_step(session, step, bibliography);
        }
        session.end_array();
    }
    show(session, case, bibliography);
}

/// Takes a step, and writes what it gives back.
fn take_step(session: &mut Session, step: &Value<'_>, bibliography: &mut Bibliography) {
    match session.text(step, "step") {
        "push" => push(session, step, bibliography),
        "insert" => insert(session, step, bibliography),
        "remove" => remove(session, step, bibliography),
        "alias" => alias(session, step, bibliography),
        "get" => get(session, step, bibliography),
        word => change(session, word, step, bibliography),
    }
}

/// Appends an entry, under its key and its `ids`.
fn push(session: &mut Session, step: &Value<'_>, bibliography: &mut Bibliography) {
    session.only(step, &["step", "key", "type", "fields"]);
    if let Some(entry) = read_entry(session, step) {
        session.check(bibliography.push(entry));
    }
    session.null();
}

/// Puts an entry in, and writes the key of the one that it replaces.
fn insert(session: &mut Session, step: &Value<'_>, bibliography: &mut Bibliography) {
    session.only(step, &["step", "key", "type", "fields"]);
    let Some(entry) = read_entry(session, step) else {
        return;
    };
    if let Some(old) = session.allocated(bibliography.insert(entry)) {
        put_key(session, old.as_ref());
    }
}

/// Takes an entry out, and writes its key.
fn remove(session: &mut Session, step: &Value<'_>, bibliography: &mut Bibliography) {
    session.only(step, &["step", "entry"]);
    let old = bibliography.remove(session.text(step, "entry"));
    put_key(session, old.as_ref());
}

/// Writes the key of an entry that is given back, or null.
fn put_key(session: &mut Session, entry: Option<&Entry>) {
    match entry {
        Some(entry) => session.string(entry.key.as_str()),
        None => session.null(),
    }
}

/// Lets one more name mean an entry.
fn alias(session: &mut Session, step: &Value<'_>, bibliography: &mut Bibliography) {
    session.only(step, &["step", "entry", "alias"]);
    let name = session.text(step, "entry");
    let added = bibliography.alias(name, session.text(step, "alias"));
    session.check(added);
    session.null();
}

/// Writes the index and the key of the entry that a name means, or null.
fn get(session: &mut Session, step: &Value<'_>, bibliography: &Bibliography) {
    session.only(step, &["step", "entry"]);
    let name = session.text(step, "entry");
    match (bibliography.index(name), bibliography.get(name)) {
        (Some(index), Some(entry)) => {
            session.begin_object();
            session.put_count("place", index);
            session.put_text("key", entry.key.as_str());
            session.end_object();
        }
        _ => session.null(),
    }
}

/// Shows what a case asks for; the entries where it asks for nothing.
fn show(session: &mut Session, case: &Value<'_>, bibliography: &Bibliography) {
    session.only_shown(
        case,
        &["entries", "keys", "references", "settled", "written"],
    );
    if session.is_shown(case, "entries", true) {
        let has_spans = session.is_set(case, "places");
        put_entries(session, bibliography, has_spans);
    }
    if session.is_shown(case, "keys", false) {
        put_keys(session, bibliography);
    }
    if session.is_shown(case, "references", false) {
        put_references(session, bibliography);
    }
    show_written(session, case, bibliography);
}

/// Writes the member `entries`: each entry in its order.
fn put_entries(session: &mut Session, bibliography: &Bibliography, has_spans: bool) {
    session.begin_list("entries");
    for entry in bibliography.iter() {
        put_entry(session, entry, has_spans);
    }
    session.end_array();
}

/// Writes how many entries there are, and their keys in their order.
fn put_keys(session: &mut Session, bibliography: &Bibliography) {
    session.put_count("len", bibliography.len());
    session.begin_list("keys");
    for key in bibliography.keys() {
        session.string(key);
    }
    session.end_array();
}

/// Writes of each entry the indices of those that it refers to.
fn put_references(session: &mut Session, bibliography: &Bibliography) {
    let references = bibliography.references(session.alloc);
    let Some(references) = session.allocated(references) else {
        return;
    };
    session.begin_list("references");
    for indices in &references {
        put_indices(session, indices.as_slice());
    }
    session.end_array();
}

fn put_indices(session: &mut Session, indices: &[usize]) {
    session.begin_array();
    for index in indices {
        session.unsigned(*index as u64);
    }
    session.end_array();
}
