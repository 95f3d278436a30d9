//! Documents with their citations.

use crate::bytes::bytes;
use crate::refusals::put_cite_error;
use crate::setting::{CiteSetting, format, locale, style};
use cases::{Refusal, Session, Taker, Value, put_taken, read_taker};
use cite::{CiteError, Tap, cite, cite_to_string};
use std::alloc::Global;

/// The members of a case.
const MEMBERS: [&str; 11] = [
    "case", "name", "bib", "document", "style", "locale", "format", "sections", "sink", "string",
    "message",
];

/// `cite`: the output of a document, or why it was refused.
pub(crate) fn answer_cite(session: &mut Session, case: &Value<'_>) {
    session.only(case, &MEMBERS);
    let Some(style) = style(session, case, "numeric") else {
        return;
    };
    let Some(locale) = locale(session, case) else {
        return;
    };
    let bib = bytes(session, case, "bib");
    let document = bytes(session, case, "document");
    let sections = session.texts(case, "sections");
    let setting = CiteSetting {
        style: &*style,
        locale: &*locale,
        format: format(session, case),
        bib: &bib,
        document: &document,
        sections: &sections,
    };
    if session.is_set(case, "string") {
        answer_as_text(session, case, &setting);
    } else {
        answer_into_sink(session, case, &setting);
    }
}

/// Cites a document to a text, and writes it, or why the document was refused.
pub(crate) fn answer_as_text(session: &mut Session, case: &Value<'_>, setting: &CiteSetting<'_>) {
    let cited = cite_to_string(
        session.alloc,
        setting.bib,
        setting.document,
        setting.style,
        setting.locale,
        setting.sections,
        setting.format,
    );
    match cited {
        Ok(output) => session.put_text("output", output.as_str()),
        Err(error) => put_cite_error(session, case, &error),
    }
}

/// Cites a document into the sink of a case, and writes what came of it.
fn answer_into_sink(session: &mut Session, case: &Value<'_>, setting: &CiteSetting<'_>) {
    let mut taker = read_taker(session, case, "sink");
    let outcome = into_sink(session.alloc, setting, &mut taker);
    if taker.lacks_memory {
        session.refuse(Refusal::Memory);
    }
    match outcome {
        Ok(()) => put_taken(session, "output", &taker),
        Err(error) => put_failure(session, case, &error, &taker),
    }
}

/// Cites a document into a writer.
fn into_sink(alloc: Global, setting: &CiteSetting<'_>, taker: &mut Taker) -> Result<(), CiteError> {
    cite(
        alloc,
        setting.bib,
        setting.document,
        setting.style,
        setting.locale,
        setting.sections,
        setting.format,
        &mut Tap::new(taker),
    )
}

/// Writes why a document was refused, and what the writer took where it was the one that failed.
fn put_failure(session: &mut Session, case: &Value<'_>, error: &CiteError, taker: &Taker) {
    put_cite_error(session, case, error);
    if matches!(error, CiteError::Write(_)) {
        put_taken(session, "taken", taker);
    }
}
