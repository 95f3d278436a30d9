//! Conditions of branches.

use crate::styles::terms::locator;
use crate::styles::variables::{any, printed};
use cases::{Session, Value, value_of};
use csl_words::{DATE_VARIABLES, KINDS, MATCHES, POSITIONS};
use rendering_style::{ChooseTest, Condition};
use rendering_taxonomy::ChooseMatch;

/// The lists of tests of a branch, in the order in which they are tried.
const TESTS: &[&str] = &[
    "type",
    "variable",
    "is_numeric",
    "is_uncertain_date",
    "locator",
    "position",
];

/// The test that a word of the list asks for.
fn test(name: &str, word: &str) -> Option<ChooseTest> {
    match name {
        "type" => value_of(KINDS, word).map(ChooseTest::Type),
        "variable" => any(word).map(ChooseTest::Variable),
        "is_numeric" => printed(word).map(ChooseTest::IsNumeric),
        "is_uncertain_date" => value_of(DATE_VARIABLES, word).map(ChooseTest::IsUncertainDate),
        "locator" => locator(word).map(ChooseTest::Locator),
        _ => value_of(POSITIONS, word).map(ChooseTest::Position),
    }
}

/// Appends the tests of the list.
fn push_tests(
    session: &mut Session,
    branch: &Value<'_>,
    name: &'static str,
    tests: &mut Vec<ChooseTest>,
) {
    let Some(items) = session.items(branch, name) else {
        return;
    };
    for item in items {
        match test(name, item.as_str().unwrap_or("")) {
            Some(test) => session.push(tests, test),
            None => session.want(name, "a list of its words"),
        }
    }
}

/// The condition of a branch.
pub(crate) fn condition(session: &mut Session, branch: &Value<'_>) -> Condition {
    let required = session.word_or(branch, "match", MATCHES, ChooseMatch::All);
    let mut tests = Vec::new(session.alloc);
    for name in TESTS {
        push_tests(session, branch, *name, &mut tests);
    }
    if session.is_set(branch, "disambiguate") {
        session.push(&mut tests, ChooseTest::Disambiguate);
    }
    Condition { required, tests }
}
