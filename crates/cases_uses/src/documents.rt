//! Documents with their citations: as a text, and on a page.

use crate::style::style_or_titles;
use cases::{Refusal, Session, Value};
use cases_cite::{english, put_cite_error};
use cite::{CiteError, SinkFault};
use cite_uses::{cited_by_numbers, cited_on_page};

/// `cited_by_numbers`: a document with its citations as numbers, or why it was refused.
pub(crate) fn answer_numbers(session: &mut Session, case: &Value<'_>) {
    session.only(case, &["case", "name", "bib", "document", "message"]);
    let bib = session.text(case, "bib").as_bytes();
    let document = session.text(case, "document").as_bytes();
    match cited_by_numbers(session.alloc, bib, document) {
        Ok(output) => session.put_text("output", output.as_str()),
        Err(error) => put_cite_error(session, case, &error),
    }
}

/// `cited_on_page`: what stands on a page with room for so many bytes, or why the document was refused. A write fails only where there is no
/// memory, which has no answer.
pub(crate) fn answer_page(session: &mut Session, case: &Value<'_>) {
    session.only(
        case,
        &[
            "case", "name", "bib", "document", "style", "room", "message",
        ],
    );
    let Some(style) = style_or_titles(session, case, "titles") else {
        return;
    };
    let Some(locale) = english(session) else {
        return;
    };
    let bib = session.text(case, "bib").as_bytes();
    let document = session.text(case, "document").as_bytes();
    let room = session.maybe_count(case, "room").unwrap_or(usize::MAX);
    let page = cited_on_page(session.alloc, bib, document, &style, &locale, room);
    match page {
        Ok(bytes) => session.put_maybe_text("output", str::from_utf8(&bytes).ok()),
        Err(CiteError::Write(SinkFault::Failed)) => session.refuse(Refusal::Memory),
        Err(error) => put_cite_error(session, case, &error),
    }
}
