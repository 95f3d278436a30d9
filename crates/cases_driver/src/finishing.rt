//! What a driver makes of requests. Where there is nothing, the answer says why.

use crate::requests::{cited, request};
use crate::sources::{Entries, Sources, language, style_in};
use cases::{Refusal, Session, Value, member};
use cases_rendering::maybe_code;
use driver::{BibliographyDriver, Rendered, standalone_citation};
use driver_requests::{BibliographyRequest, CitationRequest, DriverError};
use literature::Entry;
use rendering_tree::ElemChildren;

/// The citations and the bibliography of a case.
pub(crate) fn finished<'s>(
    session: &mut Session,
    case: &'s Value<'_>,
    sources: Sources<'s>,
) -> Option<Rendered> {
    match member(case, "bibliography") {
        Some(given) => {
            session.only(given, &["style", "locale", "order"]);
            finished_by(session, case, given, sources)
        }
        None => finished_by(session, case, &Value::Null, sources),
    }
}

/// The citations of a case, and the bibliography that a value asks for.
fn finished_by<'s>(
    session: &mut Session,
    case: &'s Value<'_>,
    given: &Value<'_>,
    sources: Sources<'s>,
) -> Option<Rendered> {
    let Some(driver) = driver_of(session, case, sources) else {
        return None;
    };
    let Some(order) = order(session, given, sources.entries) else {
        return None;
    };
    let Some(style) = style_in(session, given, sources.styles) else {
        return None;
    };
    let locale = language(session, case, given);
    let request = BibliographyRequest::new(style, locale, sources.files);
    finished_in_order(session, driver, request, order.as_slice())
}

/// What a driver makes of a request for a bibliography that begins with these entries.
fn finished_in_order<'s>(
    session: &mut Session,
    driver: BibliographyDriver<'s, Entry, i64>,
    request: BibliographyRequest<'s, Entry>,
    order: &'s [&'s Entry],
) -> Option<Rendered> {
    match driver.finish(request.with_order(order)) {
        Ok(rendered) => return Some(rendered),
        Err(DriverError::Memory) => session.refuse(Refusal::Memory),
        Err(DriverError::Overflow) => session.put_refused("Overflow"),
    }
    None
}

/// A driver with the requests of a case.
fn driver_of<'s>(
    session: &mut Session,
    case: &'s Value<'_>,
    sources: Sources<'s>,
) -> Option<BibliographyDriver<'s, Entry, i64>> {
    let offset = session.index_or_zero(case, "offset");
    let mut driver = BibliographyDriver::new(session.alloc).with_citation_number_offset(offset);
    let Some(requests) = session.items(case, "requests") else {
        return Some(driver);
    };
    for given in requests {
        let Some(request) = request(session, case, given, sources) else {
            return None;
        };
        session.check(driver.citation(request));
    }
    Some(driver)
}

/// The entries with which a bibliography begins, so far as they are cited.
fn order<'s>(
    session: &mut Session,
    given: &Value<'_>,
    entries: Entries<'s>,
) -> Option<Vec<&'s Entry>> {
    let mut order = Vec::new(session.alloc);
    for name in session.texts(given, "order") {
        let Some(entry) = entries.entry(session, name) else {
            return None;
        };
        session.push(&mut order, entry);
    }
    Some(order)
}

/// The citation of a case outside of any document.
pub(crate) fn cited_alone<'s>(
    session: &mut Session,
    case: &'s Value<'_>,
    sources: Sources<'s>,
) -> Option<ElemChildren> {
    let Some(cited) = cited(session, case, sources.entries) else {
        return None;
    };
    let locale = maybe_code(session, case, "locale");
    let Some(style) = style_in(session, &Value::Null, sources.styles) else {
        return None;
    };
    let request = CitationRequest::new(cited, style, locale, sources.files, None);
    let cited = standalone_citation(session.alloc, request);
    session.allocated(cited)
}
