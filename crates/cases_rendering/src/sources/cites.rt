//! What a case says of a cite: its purpose and its locator; and how many calls it took.

use crate::styles::locator;
use cases::{Session, Value, member};
use rendering_context::{LocatorPayload, SpecificLocator, TransparentLocator};
use rendering_taxonomy::{CitePurpose, Locator};

/// The words of the purposes of cites.
pub const PURPOSES: &[(&str, CitePurpose)] = &[
    ("author", CitePurpose::Author),
    ("year", CitePurpose::Year),
    ("full", CitePurpose::Full),
    ("prose", CitePurpose::Prose),
];

/// The locator of the member `locator`, where there is one, with what the caller prints it from where it has no text.
pub fn maybe_locator<'a, P: Drop>(
    session: &mut Session,
    object: &Value<'a>,
    own: P,
) -> Option<SpecificLocator<'a, P>> {
    let Some(given) = member(object, "locator") else {
        return None;
    };
    session.only(given, &["label", "text", "transparent"]);
    let label = session.maybe_text(given, "label").and_then(locator);
    let label = session.required(label, "label", "the label of a locator", Locator::Page);
    let payload = match session.maybe_text(given, "text") {
        Some(text) => LocatorPayload::Str(text),
        None => LocatorPayload::Transparent(TransparentLocator { payload: own }),
    };
    Some(SpecificLocator { label, payload })
}

/// Writes how many calls were made, where the case asks for it.
pub fn put_effort(session: &mut Session, case: &Value<'_>, calls: u64) {
    if session.is_set(case, "effort") {
        session.key("effort");
        session.unsigned(calls);
    }
}
