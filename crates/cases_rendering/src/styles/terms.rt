//! The words of terms, of their forms and of the labels of locators.

use crate::styles::variables::any;
use cases::{Session, Value, value_of, word_of};
use csl_words::{DATE_TERMS, KINDS, LENGTHS, LOCATORS, OTHER_TERMS};
use rendering_taxonomy::{Locator, LongShortForm, OtherTerm, Term};

/// The label of a locator that a word is: a label of CSL, or `custom`.
pub fn locator(word: &str) -> Option<Locator> {
    match word {
        "custom" => Some(Locator::Custom),
        _ => value_of(LOCATORS, word),
    }
}

/// The word of the label of a locator.
pub fn locator_word(label: Locator) -> &'static str {
    match label {
        Locator::Custom => "custom",
        _ => word_of(LOCATORS, label),
    }
}

/// The terms whose names have spaces in CSL, for which cases write hyphens.
const NAMES_WITH_SPACES: &[(&str, &str)] = &[
    ("and-others", "and others"),
    ("available-at", "available at"),
    ("in-press", "in press"),
    ("no-date", "no date"),
    ("presented-at", "presented at"),
];

/// The name in CSL of a term of words of its own.
fn name_in_csl(word: &str) -> &str {
    match value_of(NAMES_WITH_SPACES, word) {
        Some(name) => name,
        None => word,
    }
}

/// The term of a word: of a variable, of a label, of a kind, or of words of its own.
fn term(word: &str) -> Option<Term> {
    if let Some(variable) = any(word) {
        return Some(Term::Variable(variable));
    }
    if let Some(label) = locator(word) {
        return Some(Term::Locator(label));
    }
    if let Some(kind) = value_of(KINDS, word) {
        return Some(Term::Kind(kind));
    }
    match value_of(OTHER_TERMS, name_in_csl(word)) {
        Some(other) => Some(Term::Other(other)),
        None => value_of(DATE_TERMS, word),
    }
}

/// The term of the word of a member.
pub(crate) fn term_of(session: &mut Session, object: &Value<'_>, name: &'static str) -> Term {
    let found = term(session.text(object, name));
    session.required(
        found,
        name,
        "the word of a term",
        Term::Other(OtherTerm::In),
    )
}

/// A long or a short form; the long one where it is left out.
pub fn form_of(session: &mut Session, object: &Value<'_>) -> LongShortForm {
    session.word_or(object, "form", LENGTHS, LongShortForm::Long)
}
