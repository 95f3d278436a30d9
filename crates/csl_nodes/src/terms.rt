//! The variables and the terms that words name.

ghost use Rattle.std.specs.Prelude.{◌≡◌};
ghost use Rattle.std.specs.Option.{option_map, option_or};
ghost use Rattle.csl_nodes.specs.Terms.{text_variable, name_variable, date_variable, number_variable, printed_variable, variable_of, locator_term, kind_term, other_term, date_term, listed_term, term_of};
ghost use Rattle.csl_nodes.specs.Views.{words_view};
ghost use Rattle.rendering_taxonomy.specs.declared.term.Term.TheVariants as terms;

use crate::words::Words;
use csl_words::{
    DATE_TERMS, DATE_VARIABLES, KINDS, LOCATORS, NAME_VARIABLES, NUMBER_VARIABLES, OTHER_TERMS,
    TEXT_VARIABLES, in_table,
};
use rendering_taxonomy::{Term, Variable};

/// The variable of a text.
fn text_variable(word: &str) -> Option<Variable>
    ensures { result ≡ text_variable word.now }
{
    match in_table(TEXT_VARIABLES, word) {
        Some(variable) => Some(Variable::Standard(variable)),
        None => None,
    }
}

/// The variable of a number, or the page.
fn number_variable(word: &str) -> Option<Variable>
    ensures { result ≡ number_variable word.now }
{
    in_table(NUMBER_VARIABLES, word)
}

/// The variable of a text or of a number.
pub(crate) fn printed_variable(word: &str) -> Option<Variable>
    ensures { result ≡ printed_variable word.now }
{
    match text_variable(word) {
        Some(variable) => Some(variable),
        None => number_variable(word),
    }
}

/// The variable of people.
fn name_variable(word: &str) -> Option<Variable>
    ensures { result ≡ name_variable word.now }
{
    match in_table(NAME_VARIABLES, word) {
        Some(variable) => Some(Variable::Name(variable)),
        None => None,
    }
}

/// The variable of a date.
fn date_variable(word: &str) -> Option<Variable>
    ensures { result ≡ date_variable word.now }
{
    match in_table(DATE_VARIABLES, word) {
        Some(variable) => Some(Variable::Date(variable)),
        None => None,
    }
}

/// The variable of people or of a date.
fn other_variable(word: &str) -> Option<Variable>
    ensures { result ≡ option_or (name_variable word.now) (date_variable word.now) }
{
    match name_variable(word) {
        Some(variable) => Some(variable),
        None => date_variable(word),
    }
}

/// The variable of a word.
pub fn variable_of(word: &str) -> Option<Variable>
    ensures { result ≡ variable_of word.now }
{
    match printed_variable(word) {
        Some(variable) => Some(variable),
        None => other_variable(word),
    }
}

/// The term of a variable.
fn variable_term(word: &str) -> Option<Term>
    ensures { result ≡ option_map terms.Variable (variable_of word.now) }
{
    match variable_of(word) {
        Some(variable) => Some(Term::Variable(variable)),
        None => None,
    }
}

/// The term of the label of a locator.
fn locator_term(word: &str) -> Option<Term>
    ensures { result ≡ locator_term word.now }
{
    match in_table(LOCATORS, word) {
        Some(locator) => Some(Term::Locator(locator)),
        None => None,
    }
}

/// The term of a kind.
fn kind_term(word: &str) -> Option<Term>
    ensures { result ≡ kind_term word.now }
{
    match in_table(KINDS, word) {
        Some(kind) => Some(Term::Kind(kind)),
        None => None,
    }
}

/// The term of another word.
fn other_term(word: &str) -> Option<Term>
    ensures { result ≡ other_term word.now }
{
    match in_table(OTHER_TERMS, word) {
        Some(term) => Some(Term::Other(term)),
        None => None,
    }
}

/// The term of a month or of a season.
fn date_term(word: &str) -> Option<Term>
    ensures { result ≡ date_term word.now }
{
    in_table(DATE_TERMS, word)
}

/// The term of another word, of a month or of a season.
fn last_term(word: &str) -> Option<Term>
    ensures { result ≡ option_or (other_term word.now) (date_term word.now) }
{
    match other_term(word) {
        Some(term) => Some(term),
        None => date_term(word),
    }
}

/// The term of a kind, or of those.
fn later_term(word: &str) -> Option<Term>
    ensures { result ≡ option_or (kind_term word.now)
        (option_or (other_term word.now) (date_term word.now)) }
{
    match kind_term(word) {
        Some(term) => Some(term),
        None => last_term(word),
    }
}

/// The term of a word that names no variable.
fn plain_term(word: &str) -> Option<Term>
    ensures { result ≡ option_or (locator_term word.now) (option_or (kind_term word.now)
        (option_or (other_term word.now) (date_term word.now))) }
{
    match locator_term(word) {
        Some(term) => Some(term),
        None => later_term(word),
    }
}

/// The term of a word that some list has. The lists are looked through up to the one that has it.
pub fn listed_term(word: &str) -> Option<Term>
    ensures { result ≡ listed_term word.now }
{
    match variable_term(word) {
        Some(term) => Some(term),
        None => plain_term(word),
    }
}

/// The term of a word, where these are the words of terms that no list has: such a word is known by its place among them. The words of a
/// style and of its locales have to stand in one list.
pub fn term_of(unlisted: &Words, word: &str) -> Term
    ensures { result ≡ term_of (words_view unlisted.now) word.now }
{
    match listed_term(word) {
        Some(term) => term,
        None => Term::Word(unlisted.place(word)),
    }
}
