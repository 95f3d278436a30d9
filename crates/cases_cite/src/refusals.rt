//! Why documents are not cited, as members of an answer. Out of memory has no answer.

use crate::document::put_marker_error;
use cases::{Refusal, Session, Value, put_parse_error, put_write_error};
use cases_rendering::{put_faults, put_unknown};
use cite::{BibTextError, CiteError, DocumentTextError, SelectorError};

/// Writes why a document was not cited, with the stage of what several stages refuse.
pub fn put_cite_error(session: &mut Session, case: &Value<'_>, error: &CiteError) {
    match error {
        CiteError::Memory => session.refuse(Refusal::Memory),
        CiteError::BibText(error) => put_bib_error(session, error),
        CiteError::Fields(faults) => put_faults(session, faults),
        CiteError::Document(error) => put_document_error(session, error),
        CiteError::Name(name) => put_unknown(session, name.as_str()),
        CiteError::Selector { index, error } => put_section_error(session, *index, error),
        CiteError::Overflow => session.put_refused("Overflow"),
        CiteError::Write(fault) => put_write_error(session, *fault),
    }
    session.put_message(case, error);
}

/// Writes why the bib text of a document was refused, without the message, which the refusal of the document has.
fn put_bib_error(session: &mut Session, error: &BibTextError) {
    match error {
        BibTextError::Utf8 => session.put_refused("Utf8"),
        BibTextError::Parse(error) => put_parse_error(session, &Value::Null, error),
    }
    session.put_text("stage", "BibText");
}

/// Writes why a document was refused.
fn put_document_error(session: &mut Session, error: &DocumentTextError) {
    match error {
        DocumentTextError::Utf8 => session.put_refused("Utf8"),
        DocumentTextError::Marker { offset } => put_marker_error(session, *offset),
    }
    session.put_text("stage", "Document");
}

/// Writes which section was refused, by its index from zero, and the message for it.
pub fn put_section_error(session: &mut Session, index: usize, error: &SelectorError) {
    session.put_refused("Selector");
    session.put_count("index", index);
    session.put_printed("error", error);
}
