//! Labels of the entries of BibLaTeX files.

use biblatex::Entry;
use cases::{Session, Value};
use cases_literature::boxed;
use cases_rendering::{bibliography_of, put_bridge_error, put_unknown_name};
use interop::entry;
use rendering_entries::Alphanumerical;

/// The members of a case.
const MEMBERS: [&str; 7] = [
    "case", "name", "bib", "entries", "entry", "letters", "message",
];

/// `citation_label`: the label of an entry of a file, with so many letters of one name.
pub(crate) fn answer_label(session: &mut Session, case: &Value<'_>) {
    session.only(case, &MEMBERS);
    let Some(bibliography) = bibliography_of(session, case) else {
        return;
    };
    let name = session.text(case, "entry");
    match bibliography.get(name) {
        Some(read) => put_read(session, case, read),
        None => put_unknown_name(session, name),
    }
}

/// Writes the label of an entry.
fn put_read(session: &mut Session, case: &Value<'_>, read: &Entry) {
    match entry(session.alloc, read) {
        Ok(work) => put_boxed(session, case, work),
        Err(error) => put_bridge_error(session, case, &error),
    }
}

/// Writes the label of an entry that a file comes to.
fn put_boxed(session: &mut Session, case: &Value<'_>, work: literature::Entry) {
    if let Some(work) = boxed(session, work) {
        put_label(session, case, &*work);
    }
}

/// Writes the label of a library's entry: with three letters where the case does not say how many.
fn put_label(session: &mut Session, case: &Value<'_>, work: &literature::Entry) {
    let labels = match session.maybe_count(case, "letters") {
        Some(letters) => Alphanumerical { letters },
        None => Alphanumerical::new(),
    };
    let label = labels.citation(session.alloc, work);
    if let Some(label) = session.allocated(label) {
        session.put_text("text", label.as_str());
    }
}
