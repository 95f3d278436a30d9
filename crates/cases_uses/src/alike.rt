//! Documents with a file that was changed.

use crate::style::style_or_titles;
use biblatex::Bibliography;
use cases::{Refusal, Session, Value, put_parse_error};
use cases_cite::{put_marker_error, put_section_error};
use cases_rendering::bridged;
use cite::{Document, DocumentError, SelectorError, Style};
use cite_uses::{Works, are_alike};
use literature::Selector;

/// What is asked of a document: how it is cited, and the two files.
#[derive(Clone, Copy)]
struct Asked<'a> {
    style: &'a Style,
    sections: &'a [Selector],
    file: &'a Bibliography,
    other: &'a Bibliography,
}

/// `are_alike`: whether a document comes out the same with either of two files, as far as their works answer to a style and to sections; or why
/// one of the texts was refused.
pub(crate) fn answer_alike(session: &mut Session, case: &Value<'_>) {
    session.only(
        case,
        &[
            "case", "name", "bib", "other", "document", "style", "sections", "message",
        ],
    );
    let Some(style) = style_or_titles(session, case, "numeric") else {
        return;
    };
    let Some(file) = read(session, case, "bib") else {
        return;
    };
    let Some(other) = read(session, case, "other") else {
        return;
    };
    let Some(sections) = sections(session, case) else {
        return;
    };
    let asked = Asked {
        style: &*style,
        sections: sections.as_slice(),
        file: &file,
        other: &other,
    };
    match Document::parse(session.alloc, session.text(case, "document")) {
        Ok(document) => put_alike(session, case, &document, &asked),
        Err(DocumentError::Memory) => session.refuse(Refusal::Memory),
        Err(DocumentError::Marker { offset }) => put_marker_error(session, offset),
    }
}

/// The file that a member of the case has.
fn read(session: &mut Session, case: &Value<'_>, member: &'static str) -> Option<Bibliography> {
    match Bibliography::parse(session.alloc, session.text(case, member)) {
        Ok(file) => Some(file),
        Err(error) => {
            put_parse_error(session, case, &error);
            None
        }
    }
}

/// The sections of the case, unless one is refused.
fn sections(session: &mut Session, case: &Value<'_>) -> Option<Vec<Selector>> {
    let mut sections = Vec::new(session.alloc);
    for text in session.texts(case, "sections") {
        match Selector::parse(session.alloc, text) {
            Ok(section) => session.push(&mut sections, section),
            Err(error) => {
                put_refused_section(session, sections.len(), &error);
                return None;
            }
        }
    }
    Some(sections)
}

/// Writes which section was refused, and why.
fn put_refused_section(session: &mut Session, index: usize, error: &SelectorError) {
    match error {
        SelectorError::Memory => session.refuse(Refusal::Memory),
        error => put_section_error(session, index, error),
    }
}

/// Writes whether the document comes out the same with either file.
fn put_alike(session: &mut Session, case: &Value<'_>, document: &Document<'_>, asked: &Asked<'_>) {
    let Some(library) = bridged(session, case, asked.file) else {
        return;
    };
    let Some(other_library) = bridged(session, case, asked.other) else {
        return;
    };
    let first = Works {
        file: asked.file,
        library: &library,
    };
    let second = Works {
        file: asked.other,
        library: &other_library,
    };
    let alike = are_alike(
        session.alloc,
        document,
        asked.style,
        asked.sections,
        &first,
        &second,
    );
    if let Some(alike) = session.allocated(alike) {
        session.put_bool("alike", alike);
    }
}
