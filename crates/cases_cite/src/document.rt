//! Documents as their texts and markers.

use cases::{Refusal, Session, Value, word_of};
use cases_rendering::{PURPOSES, locator_word};
use cite::{Cite, Document, DocumentError, Piece};

/// The members of a case.
const MEMBERS: [&str; 4] = ["case", "name", "document", "message"];

/// `document`: the pieces of a document, or why it was refused.
pub(crate) fn answer_document(session: &mut Session, case: &Value<'_>) {
    session.only(case, &MEMBERS);
    match Document::parse(session.alloc, session.text(case, "document")) {
        Ok(document) => put_pieces(session, &document),
        Err(error) => put_error(session, case, &error),
    }
}

/// Writes why a document was refused.
fn put_error(session: &mut Session, case: &Value<'_>, error: &DocumentError) {
    let DocumentError::Marker { offset } = error else {
        return session.refuse(Refusal::Memory);
    };
    put_marker_error(session, *offset);
    session.put_message(case, error);
}

/// Writes at which byte an opening stands that no marker follows.
pub fn put_marker_error(session: &mut Session, offset: usize) {
    session.put_refused("Marker");
    session.put_count("offset", offset);
}

/// Writes the pieces of a document, each as an object.
fn put_pieces(session: &mut Session, document: &Document<'_>) {
    session.begin_list("pieces");
    for piece in &document.pieces {
        session.begin_object();
        match piece {
            Piece::Text(text) => session.put_text("text", text),
            Piece::Marker(cites) => put_cites(session, cites),
        }
        session.end_object();
    }
    session.end_array();
}

/// Writes the cites of a marker.
fn put_cites(session: &mut Session, cites: &[Cite<'_>]) {
    session.begin_list("marker");
    for cite in cites {
        put_cite(session, cite);
    }
    session.end_array();
}

/// Writes a cite, as an object without the members that are not set.
fn put_cite(session: &mut Session, cite: &Cite<'_>) {
    session.begin_object();
    session.put_text("entry", cite.name);
    if let Some(locator) = &cite.locator {
        session.key("locator");
        session.begin_object();
        session.put_text("label", locator_word(locator.label));
        session.put_text("text", locator.value);
        session.end_object();
    }
    session.put_if_set("hidden", cite.hidden);
    if let Some(purpose) = cite.purpose {
        session.put_text("purpose", word_of(PURPOSES, purpose));
    }
    session.end_object();
}
