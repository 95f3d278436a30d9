//! What the branches of a choose ask.

ghost use Rattle.std.specs.Prelude.{◌≡◌, ◌++◌, map, filter_map, flat_map, IfOk, OnOk};
ghost use Rattle.std.specs.Option.{option_map};
ghost use Rattle.laws.specs.Borrowed.{borrowed};
ghost use Rattle.rendering_style.specs.Nodes.{has_answer, is_numeric};
ghost use Rattle.rendering_style.specs.Views.{test_view, condition_view};
ghost use Rattle.xml_tree.specs.Views.{element_view};
ghost use Rattle.csl_words.specs.Looking.{row_view, table_view};
ghost use Rattle.csl_nodes.specs.Terms as terms;
ghost use Rattle.csl_nodes.specs.Conditions.{kind_test, date_test, locator_test, position_test, test_of, tests_by, alike, condition};

use crate::pushing::push_if;
use crate::terms::variable_of;
use csl_words::{
    DATE_VARIABLES, KINDS, LOCATORS, MATCHES, POSITIONS, in_table, is_true, value_by, words_in,
};
use rendering_style::{ChooseTest, Condition};
use rendering_taxonomy::ChooseMatch;
use std::alloc::{AllocError, Global};
use xml_tree::Element;

/// What a word in an attribute asks.
#[derive(Clone, Copy)]
pub(crate) enum Question {
    /// Whether the entry is of the kind.
    IsOfKind,
    /// Whether the variable has an answer.
    HasAnswer,
    /// Whether its answer is a number.
    IsNumeric,
    /// Whether its answer is an uncertain date.
    IsUncertain,
    /// Whether the locator has the label.
    HasLocator,
    /// Whether the cite is at the position.
    StandsAt,
}

/// The attributes whose words ask something, in the order in which it is asked.
pub(crate) const QUESTIONS: &[(&str, Question)] = &[
    ("type", Question::IsOfKind),
    ("variable", Question::HasAnswer),
    ("is-numeric", Question::IsNumeric),
    ("is-uncertain-date", Question::IsUncertain),
    ("locator", Question::HasLocator),
    ("position", Question::StandsAt),
];

/// Whether the entry is of the kind of that word.
fn kind_test(word: &str) -> Option<ChooseTest>
    ensures { option_map test_view result ≡ kind_test word.now }
{
    match in_table(KINDS, word) {
        Some(kind) => Some(ChooseTest::Type(kind)),
        None => None,
    }
}

/// Whether the variable of that word has an answer.
fn answer_test(word: &str) -> Option<ChooseTest>
    ensures { option_map test_view result ≡ option_map has_answer (terms.variable_of word.now) }
{
    match variable_of(word) {
        Some(variable) => Some(ChooseTest::Variable(variable)),
        None => None,
    }
}

/// Whether the answer to the variable of that word is a number.
fn number_test(word: &str) -> Option<ChooseTest>
    ensures { option_map test_view result ≡ option_map is_numeric (terms.variable_of word.now) }
{
    match variable_of(word) {
        Some(variable) => Some(ChooseTest::IsNumeric(variable)),
        None => None,
    }
}

/// Whether the answer to the variable of that word is an uncertain date.
fn date_test(word: &str) -> Option<ChooseTest>
    ensures { option_map test_view result ≡ date_test word.now }
{
    match in_table(DATE_VARIABLES, word) {
        Some(variable) => Some(ChooseTest::IsUncertainDate(variable)),
        None => None,
    }
}

/// Whether the locator has the label of that word.
fn locator_test(word: &str) -> Option<ChooseTest>
    ensures { option_map test_view result
        ≡ locator_test word.now }
{
    match in_table(LOCATORS, word) {
        Some(locator) => Some(ChooseTest::Locator(locator)),
        None => None,
    }
}

/// Whether the cite is at the position of that word.
fn position_test(word: &str) -> Option<ChooseTest>
    ensures { option_map test_view result
        ≡ position_test word.now }
{
    match in_table(POSITIONS, word) {
        Some(position) => Some(ChooseTest::Position(position)),
        None => None,
    }
}

/// The test of a word under a question.
fn test_of(question: Question, word: &str) -> Option<ChooseTest>
    ensures { option_map test_view result ≡ test_of question word.now }
{
    match question {
        Question::IsOfKind => kind_test(word),
        Question::HasAnswer => answer_test(word),
        Question::IsNumeric => number_test(word),
        Question::IsUncertain => date_test(word),
        Question::HasLocator => locator_test(word),
        Question::StandsAt => position_test(word),
    }
}

/// Appends the tests of words under a question.
fn push_tests(
    question: Question,
    words: &[&str],
    tests: &mut Vec<ChooseTest>,
) -> Result<(), AllocError>
    ensures { OnOk result (map test_view tests.new.items ≡ map test_view tests.old.items
        ++ filter_map (test_of question) (borrowed words.now)) }
{
    for word in words {
        push_if(tests, test_of(question, *word))?;
    }
    Ok(())
}

/// Appends the tests of the words in an attribute that asks such a question.
fn push_asked(
    alloc: Global,
    element: &Element<'_>,
    row: &(&str, Question),
    tests: &mut Vec<ChooseTest>,
) -> Result<(), AllocError>
    ensures { OnOk result (map test_view tests.new.items ≡ map test_view tests.old.items
        ++ tests_by (element_view element.now) (row_view row.now)) }
{
    let words = words_in(alloc, row.0, element)?;
    push_tests(row.1, words.as_slice(), tests)
}

/// The tests of the words in attributes that ask something.
fn tests_of(
    alloc: Global,
    element: &Element<'_>,
    rows: &[(&str, Question)],
) -> Result<Vec<ChooseTest>, AllocError>
    ensures { IfOk result (λ v. map test_view v.items
        ≡ flat_map (tests_by (element_view element.now)) (table_view rows.now)) }
{
    let mut tests = Vec::new(alloc);
    for row in rows {
        push_asked(alloc, element, row, &mut tests)?;
    }
    Ok(tests)
}

/// Appends the test whether cites are alike, where it is asked.
fn push_alike(element: &Element<'_>, tests: &mut Vec<ChooseTest>) -> Result<(), AllocError>
    ensures { OnOk result (map test_view tests.new.items
        ≡ map test_view tests.old.items ++ alike (element_view element.now)) }
{
    if is_true("disambiguate", element) {
        tests.push(ChooseTest::Disambiguate)?;
    }
    Ok(())
}

/// All tests of a branch, and how many of them have to hold.
pub(crate) fn condition(alloc: Global, element: &Element<'_>) -> Result<Condition, AllocError>
    ensures { IfOk result (λ c. condition_view c ≡ condition (element_view element.now)) }
{
    let mut tests = tests_of(alloc, element, QUESTIONS)?;
    push_alike(element, &mut tests)?;
    Ok(Condition {
        required: value_by(MATCHES, "match", element).unwrap_or(ChooseMatch::All),
        tests,
    })
}
