//! Cites and items of a bibliography as a style prints them.

use crate::properties::USAGES;
use cases::{Session, Value, word_of};
use cases_rendering::{NAME_FORMS, PURPOSES, put_effort, put_written_tree};
use literature::Entry;
use rendering::{
    CiteProperties, CollapseVerdict, Effort, LocaleCode, NameDisambiguationProperties, Rendering,
    StyleContext,
};

const VERDICTS: &[(&str, CollapseVerdict)] = &[
    ("first", CollapseVerdict::First),
    ("year-suffix", CollapseVerdict::YearSuffix),
];

/// `citation`: a cite, by its purpose and what collapsing leaves of it, and the three facts of its call.
pub(crate) fn put_citation(
    session: &mut Session,
    case: &Value<'_>,
    context: &StyleContext<'_>,
    entry: &Entry,
    properties: &CiteProperties<'_>,
    code: Option<&LocaleCode>,
) {
    let purpose = session.maybe_word(case, "purpose", PURPOSES);
    let verdict = session.maybe_word(case, "verdict", VERDICTS);
    let mut effort = Effort::default();
    let made = context.citation(entry, properties, code, purpose, verdict, &mut effort);
    if let Some(rendering) = session.allocated(made) {
        put_written_tree(session, &rendering.tree);
        put_facts(session, &rendering);
        put_effort(session, case, effort.count());
    }
}

/// Writes the three facts of a call.
fn put_facts(session: &mut Session, rendering: &Rendering) {
    session.put_bool("met_disambiguate", rendering.met_disambiguate);
    session.key("name_forms");
    match &rendering.names {
        Some(names) => put_forms(session, names),
        None => session.null(),
    }
    session.put_text(
        "identifier_usage",
        word_of(USAGES, rendering.identifier_usage),
    );
}

/// Writes the forms of names as a list.
fn put_forms(session: &mut Session, names: &NameDisambiguationProperties) {
    session.begin_array();
    for form in names.forms() {
        session.string(word_of(NAME_FORMS, *form));
    }
    session.end_array();
}

/// `item`: an item, or null where the style has no bibliography.
pub(crate) fn put_item(
    session: &mut Session,
    case: &Value<'_>,
    context: &StyleContext<'_>,
    entry: &Entry,
    properties: &CiteProperties<'_>,
    code: Option<&LocaleCode>,
) {
    let mut effort = Effort::default();
    let made = context.bibliography(entry, properties, code, &mut effort);
    let Some(rendering) = session.allocated(made) else {
        return;
    };
    session.key("item");
    match &rendering {
        Some(rendering) => {
            session.begin_object();
            put_written_tree(session, &rendering.tree);
            session.end_object();
        }
        None => session.null(),
    }
    put_effort(session, case, effort.count());
}
