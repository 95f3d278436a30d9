//! What is known of a cite beside its entry, as a value of a case.

use crate::states::state;
use cases::{Session, Value, member};
use cases_rendering::maybe_locator;
use literature::Entry;
use rendering::{CiteProperties, DisambiguateState, IbidState, IdentifierUsage, StyleContext};

const IBIDS: &[(&str, IbidState)] = &[
    ("different", IbidState::Different),
    ("ibid-with-locator", IbidState::IbidWithLocator),
    ("ibid", IbidState::Ibid),
];

/// The words of which identifiers were printed.
pub(crate) const USAGES: &[(&str, IdentifierUsage)] = &[
    ("none", IdentifierUsage::None),
    ("only-citation-label", IdentifierUsage::OnlyCitationLabel),
    ("only-citation-number", IdentifierUsage::OnlyCitationNumber),
    ("mixed", IdentifierUsage::Mixed),
];

/// The members of properties.
const MEMBERS: [&str; 10] = [
    "note_number",
    "first_note_number",
    "is_near_note",
    "is_first",
    "initial_idx",
    "locator",
    "citation_number",
    "ibid",
    "disambiguation",
    "identifier_usage",
];

/// What is known of the cite of a case, with what disambiguates it; of a case without properties nothing.
pub(crate) fn properties_of<'a>(
    session: &mut Session,
    case: &Value<'a>,
    context: &StyleContext<'_>,
    entry: &Entry,
) -> CiteProperties<'a> {
    let Some(given) = member(case, "properties") else {
        return properties(session, &Value::Null);
    };
    session.only(given, &MEMBERS);
    let mut known = properties(session, given);
    known.disambiguation = state(session, given, context, entry, &known);
    known
}

/// What is known of a cite that is not disambiguated.
fn properties<'a>(session: &mut Session, given: &Value<'a>) -> CiteProperties<'a> {
    CiteProperties {
        note_number: session.maybe_count(given, "note_number"),
        first_note_number: session.maybe_count(given, "first_note_number"),
        is_near_note: session.is_set(given, "is_near_note"),
        is_first: session.is_set(given, "is_first"),
        initial_idx: session.index_or_zero(given, "initial_idx"),
        locator: maybe_locator(session, given, ()),
        citation_number: session.index_or_zero(given, "citation_number"),
        ibid: session.word_or(given, "ibid", IBIDS, IbidState::Different),
        disambiguation: DisambiguateState::None,
        identifier_usage: session.word_or(given, "identifier_usage", USAGES, IdentifierUsage::None),
        first_names: None,
    }
}
