//! What a caller prints by itself with a style.

use crate::steps::take_all;
use cases::{Refusal, Session, Value};
use cases_rendering::put_written_tree;
use literature::Entry;
use rendering::{CiteProperties, LocaleCode, StyleContext, Words, YearSuffixText};
use rendering_writing::{Context, WritingContext};

/// `writing`: what is asked of nodes on the way, and what the steps append.
pub(crate) fn put_writing(
    session: &mut Session,
    case: &Value<'_>,
    context: &StyleContext<'_>,
    entry: &Entry,
    properties: &CiteProperties<'_>,
    code: Option<&LocaleCode>,
) {
    match YearSuffixText::new(session.alloc, &properties.disambiguation) {
        Ok(year_suffix) => put_with_suffix(
            session,
            case,
            context,
            &year_suffix,
            entry,
            properties,
            code,
        ),
        Err(_) => session.refuse(Refusal::Memory),
    }
}

/// Writes what is asked and appended with this year suffix.
fn put_with_suffix<'c>(
    session: &mut Session,
    case: &'c Value<'_>,
    context: &'c StyleContext<'_>,
    year_suffix: &'c YearSuffixText,
    entry: &'c Entry,
    properties: &'c CiteProperties<'c>,
    code: Option<&LocaleCode>,
) {
    match context.words(code) {
        Ok(words) => put_in_words(
            session,
            case,
            context,
            &words,
            year_suffix,
            entry,
            properties,
        ),
        Err(_) => session.refuse(Refusal::Memory),
    }
}

/// Writes what is asked and appended in these words, with this year suffix.
fn put_in_words<'s, 'c>(
    session: &mut Session,
    case: &'c Value<'_>,
    context: &'c StyleContext<'_>,
    words: &'s Words<'c>,
    year_suffix: &'c YearSuffixText,
    entry: &'c Entry,
    properties: &'s CiteProperties<'c>,
) {
    let is_item = session.is_set(case, "bibliography");
    let mut writing = WritingContext::new(session.alloc);
    let mut printed = Context {
        walk: context.walk(words, year_suffix, properties, is_item),
        entry,
        writing: &mut writing,
    };
    take_all(session, case, &mut printed);
    if let Some(tree) = session.allocated(writing.into_tree()) {
        put_written_tree(session, &tree);
    }
}
