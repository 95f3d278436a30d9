//! The words of variables.

use cases::{Session, Value, value_of};
use csl_words::{DATE_VARIABLES, NAME_VARIABLES, NUMBER_VARIABLES, TEXT_VARIABLES};
use rendering_taxonomy::{DateVariable, Variable};

/// The variables whose names CSL writes in capitals, and cases in small letters as all names.
const NAMES_IN_CAPITALS: &[(&str, &str)] = &[
    ("doi", "DOI"),
    ("isbn", "ISBN"),
    ("issn", "ISSN"),
    ("pmcid", "PMCID"),
    ("pmid", "PMID"),
    ("url", "URL"),
];

/// The name in CSL of a variable whose answer is a text.
fn name_in_csl(word: &str) -> &str {
    match value_of(NAMES_IN_CAPITALS, word) {
        Some(name) => name,
        None => word,
    }
}

/// The variable of a word whose answer is a text, a number, or the pages.
pub(crate) fn printed(word: &str) -> Option<Variable> {
    match value_of(TEXT_VARIABLES, name_in_csl(word)) {
        Some(text) => Some(Variable::Standard(text)),
        None => value_of(NUMBER_VARIABLES, word),
    }
}

/// The variable of a word.
pub(crate) fn any(word: &str) -> Option<Variable> {
    if let Some(variable) = printed(word) {
        return Some(variable);
    }
    match value_of(NAME_VARIABLES, word) {
        Some(name) => Some(Variable::Name(name)),
        None => value_of(DATE_VARIABLES, word).map(Variable::Date),
    }
}

/// The number or page variable of a node.
pub(crate) fn numbered_of(session: &mut Session, node: &Value<'_>) -> Variable {
    let found = value_of(NUMBER_VARIABLES, session.text(node, "variable"));
    session.required(
        found,
        "variable",
        "one of a number or of pages",
        Variable::Page,
    )
}

/// The variable of a text node.
pub(crate) fn printed_of(session: &mut Session, node: &Value<'_>) -> Variable {
    let found = printed(session.text(node, "variable"));
    let what = "one of a text, of a number or of pages";
    session.required(found, "variable", what, Variable::Page)
}

/// The date variable of a node.
pub(crate) fn date_of(session: &mut Session, node: &Value<'_>) -> DateVariable {
    let found = value_of(DATE_VARIABLES, session.text(node, "variable"));
    session.required(found, "variable", "one of a date", DateVariable::Issued)
}

/// The variable of a case.
pub fn variable_of(session: &mut Session, case: &Value<'_>) -> Variable {
    let found = any(session.text(case, "variable"));
    session.required(found, "variable", "a variable", Variable::Page)
}
