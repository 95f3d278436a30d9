//! Documents of cases, from their styles to their citations.

use crate::answers::{put_rendered, put_text_of};
use crate::finishing::{cited_alone, finished};
use crate::sources::{Entries, Sources, read_library, read_styles};
use cases::{Session, Value, member};
use cases_rendering::locale_files;
use std::slice;

/// What is asked of a case.
#[derive(Clone, Copy)]
enum Wanted {
    /// All of a document.
    Finish,
    /// A citation outside of any document.
    Standalone,
}

/// The members of a document.
const MEMBERS: [&str; 13] = [
    "case",
    "name",
    "bib",
    "entries",
    "message",
    "styles",
    "locale",
    "locale_files",
    "requests",
    "bibliography",
    "offset",
    "trees",
    "effort",
];

/// The members of a citation outside of any document.
const MEMBERS_ALONE: [&str; 10] = [
    "case",
    "name",
    "bib",
    "entries",
    "message",
    "style",
    "locale",
    "locale_files",
    "items",
    "trees",
];

/// `finish`: the citations and the bibliography of a document.
pub(crate) fn answer_finish(session: &mut Session, case: &Value<'_>) {
    session.only(case, &MEMBERS);
    match session.items(case, "styles") {
        Some(given) => put_by(session, case, Wanted::Finish, given.as_slice()),
        None => session.want("styles", "a list of styles"),
    }
}

/// `standalone`: a citation outside of any document.
pub(crate) fn answer_standalone(session: &mut Session, case: &Value<'_>) {
    session.only(case, &MEMBERS_ALONE);
    match member(case, "style") {
        Some(given) => put_by(session, case, Wanted::Standalone, slice::from_ref(given)),
        None => session.want("style", "a style"),
    }
}

/// Writes what styles give over the files of a case, or why something is refused.
fn put_by(session: &mut Session, case: &Value<'_>, wanted: Wanted, given: &[Value<'_>]) {
    let Some(styles) = read_styles(session, given) else {
        return;
    };
    let files = locale_files(session, case);
    let Some((bibliography, library)) = read_library(session, case) else {
        return;
    };
    let sources = Sources {
        styles: styles.as_slice(),
        files: files.as_slice(),
        entries: Entries {
            bibliography: &bibliography,
            library: &library,
        },
    };
    match wanted {
        Wanted::Finish => put_finished(session, case, sources),
        Wanted::Standalone => put_cited_alone(session, case, sources),
    }
}

/// Writes the citations and the bibliography of a document.
fn put_finished(session: &mut Session, case: &Value<'_>, sources: Sources<'_>) {
    if let Some(rendered) = finished(session, case, sources) {
        put_rendered(session, case, &rendered);
    }
}

/// Writes a citation outside of any document.
fn put_cited_alone(session: &mut Session, case: &Value<'_>, sources: Sources<'_>) {
    if let Some(tree) = cited_alone(session, case, sources) {
        let has_trees = session.is_set(case, "trees");
        put_text_of(session, has_trees, &tree);
    }
}
