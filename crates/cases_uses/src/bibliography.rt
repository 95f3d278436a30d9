//! Bibliographies of entries, without a document.

use crate::style::style_or_titles;
use cases::{Refusal, Session, Value};
use cases_cite::english;
use cases_rendering::{bibliography_of, bridged, named, put_unknown};
use cite::{Locale, Style};
use driver::{DriverError, Rendered};
use literature::Entry;

/// `bibliography_of`: the bibliography of the entries that are named, or why there is none.
pub(crate) fn answer_bibliography(session: &mut Session, case: &Value<'_>) {
    session.only(
        case,
        &[
            "case", "name", "bib", "entries", "order", "style", "message",
        ],
    );
    let Some(style) = style_or_titles(session, case, "numeric") else {
        return;
    };
    let Some(locale) = english(session) else {
        return;
    };
    let Some(file) = bibliography_of(session, case) else {
        return;
    };
    let Some(library) = bridged(session, case, &file) else {
        return;
    };
    let mut entries = Vec::new(session.alloc);
    for name in session.texts(case, "order") {
        match named(&file, &library, name) {
            Some(entry) => session.push(&mut entries, entry),
            None => return put_unknown(session, name),
        }
    }
    put_bibliography(session, &entries, &style, &locale);
}

/// Writes the bibliography of entries.
fn put_bibliography(session: &mut Session, entries: &[&Entry], style: &Style, locale: &Locale) {
    match cite_uses::bibliography_of(session.alloc, entries, style, locale) {
        Ok(rendered) => put_items(session, &rendered),
        Err(DriverError::Memory) => session.refuse(Refusal::Memory),
        Err(DriverError::Overflow) => session.put_refused("Overflow"),
    }
}

/// Writes the items of a bibliography in plain text, or null where the style has none.
fn put_items(session: &mut Session, rendered: &Rendered) {
    session.key("items");
    let Some(bibliography) = &rendered.bibliography else {
        return session.null();
    };
    session.begin_array();
    for item in &bibliography.items {
        let text = item.content.to_string(session.alloc);
        if let Some(text) = session.allocated(text) {
            session.string(text.as_str());
        }
    }
    session.end_array();
}
