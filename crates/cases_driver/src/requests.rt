//! Requests as values of cases. Where there is none, the answer says why.

use crate::sources::{Entries, Sources, language, style_in};
use cases::{Session, Value, member};
use cases_rendering::{PURPOSES, maybe_code, maybe_locator};
use driver_requests::{CitationItem, CitationRequest};
use literature::Entry;

/// A request for the items of a value, in its style and language.
pub(crate) fn request<'s>(
    session: &mut Session,
    case: &Value<'_>,
    given: &'s Value<'_>,
    sources: Sources<'s>,
) -> Option<CitationRequest<'s, Entry, i64>> {
    session.only(given, &["items", "style", "locale", "note_number"]);
    let Some(cited) = cited(session, given, sources.entries) else {
        return None;
    };
    let Some(style) = style_in(session, given, sources.styles) else {
        return None;
    };
    let locale = language(session, case, given);
    let note_number = session.maybe_count(given, "note_number");
    Some(CitationRequest::new(cited, style, locale, sources.files, note_number))
}

/// The items of a value.
pub(crate) fn cited<'s>(
    session: &mut Session,
    given: &'s Value<'_>,
    entries: Entries<'s>,
) -> Option<Vec<CitationItem<'s, Entry, i64>>> {
    let mut cited = Vec::new(session.alloc);
    let Some(items) = session.items(given, "items") else {
        return Some(cited);
    };
    for given in items {
        let Some(item) = item(session, given, entries) else {
            return None;
        };
        session.push(&mut cited, item);
    }
    Some(cited)
}

fn item<'s>(
    session: &mut Session,
    given: &'s Value<'_>,
    entries: Entries<'s>,
) -> Option<CitationItem<'s, Entry, i64>> {
    session.only(given, &["entry", "locator", "hidden", "purpose", "locale"]);
    let name = session.text(given, "entry");
    let Some(entry) = entries.entry(session, name) else {
        return None;
    };
    let own = own_locator(session, given);
    let purpose = session.maybe_word(given, "purpose", PURPOSES);
    let hidden = session.is_set(given, "hidden");
    let locator = maybe_locator(session, given, own);
    let locale = maybe_code(session, given, "locale");
    Some(CitationItem::new(entry, locator, locale, hidden, purpose))
}

/// The number of the locator that the caller prints; 0 where there is none.
fn own_locator(session: &mut Session, given: &Value<'_>) -> i64 {
    match member(given, "locator") {
        Some(locator) if member(locator, "text").is_none() => {
            session.number(locator, "transparent")
        }
        _ => 0,
    }
}
