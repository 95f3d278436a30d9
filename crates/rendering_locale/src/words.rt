//! Which terms are the same, and which forms of a term stand for another. A term is known by its word.

ghost use Rattle.std.specs.Prelude.{◌≡◌, ◌+◌};
ghost use Rattle.rendering_taxonomy.specs.Variables.{standard_index, number_index, name_index, date_index, variable_index};
ghost use Rattle.rendering_taxonomy.specs.Kinds.{locator_index, kind_index};
ghost use Rattle.rendering_taxonomy.specs.Terms.{other_index, canonical, term_index, form_index, forms_from};
ghost use Rattle.rendering_locale.specs.Indexed.{term_key};

use rendering_taxonomy::{
    DateVariable, Kind, Locator, NameVariable, NumberVariable, OtherTerm, StandardVariable, Term,
    TermForm, Variable,
};

/// What a term in a form is looked up by: the index of its word, and the index of the form.
pub(crate) type TermKey = (u64, u8);

/// What a term of that name in that form is looked up by.
pub(crate) fn term_key(name: Term, form: TermForm) -> TermKey
    ensures { result ≡ term_key name form }
{
    (term_index(canonical(name)), form_index(form))
}

/// Of the terms that have one word the one that stands for all of them: a variable, or else a label.
fn canonical(term: Term) -> Term
    ensures { result ≡ canonical term }
{
    match term {
        Term::Locator(Locator::Issue) => Term::Variable(Variable::Number(NumberVariable::Issue)),
        Term::Locator(Locator::Note) => Term::Variable(Variable::Standard(StandardVariable::Note)),
        Term::Locator(Locator::Page) => Term::Variable(Variable::Page),
        Term::Locator(Locator::Section) => Term::Variable(Variable::Number(
            NumberVariable::Section,
        )),
        Term::Locator(Locator::Version) => Term::Variable(Variable::Number(
            NumberVariable::Version,
        )),
        Term::Locator(Locator::Volume) => Term::Variable(Variable::Number(NumberVariable::Volume)),
        Term::Kind(Kind::Book) => Term::Locator(Locator::Book),
        Term::Kind(Kind::Chapter) => Term::Locator(Locator::Chapter),
        Term::Kind(Kind::Event) => Term::Variable(Variable::Standard(StandardVariable::Event)),
        Term::Kind(Kind::Figure) => Term::Locator(Locator::Figure),
        _ => term,
    }
}

/// The index of the term among all of them.
fn term_index(term: Term) -> u64
    ensures { result ≡ term_index term }
{
    match term {
        Term::Variable(variable) => variable_index(variable),
        Term::Locator(locator) => 200 + locator_index(locator) as u64,
        Term::Kind(kind) => 300 + kind_index(kind) as u64,
        Term::Other(other) => 400 + other_index(other) as u64,
        Term::Month(month) => 500 + month as u64,
        Term::Season(season) => 800 + season as u64,
        Term::Word(number) => 2000 + number as u64,
    }
}

fn variable_index(variable: Variable) -> u64
    ensures { result ≡ variable_index variable }
{
    match variable {
        Variable::Standard(variable) => standard_index(variable) as u64,
        Variable::Number(variable) => 50 + number_index(variable) as u64,
        Variable::Name(variable) => 70 + name_index(variable) as u64,
        Variable::Date(variable) => 100 + date_index(variable) as u64,
        Variable::Page => 110,
    }
}

/// The index of a variable that is a text in its list.
fn standard_index(variable: StandardVariable) -> u8
    ensures { result ≡ standard_index variable }
{
    variable as u8
}

fn number_index(variable: NumberVariable) -> u8
    ensures { result ≡ number_index variable }
{
    variable as u8
}

/// The index of a variable that is people in its list.
fn name_index(variable: NameVariable) -> u8
    ensures { result ≡ name_index variable }
{
    variable as u8
}

fn date_index(variable: DateVariable) -> u8
    ensures { result ≡ date_index variable }
{
    variable as u8
}

/// The index of a kind in its list.
fn kind_index(kind: Kind) -> u8
    ensures { result ≡ kind_index kind }
{
    kind as u8
}

/// The index of a label in its list.
fn locator_index(locator: Locator) -> u8
    ensures { result ≡ locator_index locator }
{
    locator as u8
}

/// The index of another word in its list.
fn other_index(term: OtherTerm) -> u8
    ensures { result ≡ other_index term }
{
    term as u8
}

fn form_index(form: TermForm) -> u8
    ensures { result ≡ form_index form }
{
    match form {
        TermForm::Long => 0,
        TermForm::Short => 1,
        TermForm::Verb => 2,
        TermForm::VerbShort => 3,
        TermForm::Symbol => 4,
    }
}

/// The forms in which a term is looked up, one after the other.
pub(crate) fn forms_from(form: TermForm) -> &'static [TermForm]
    ensures { result.now ≡ forms_from form }
{
    match form {
        TermForm::Long => &[TermForm::Long],
        TermForm::Short => &[TermForm::Short, TermForm::Long],
        TermForm::Verb => &[TermForm::Verb, TermForm::Long],
        TermForm::VerbShort => &[TermForm::VerbShort, TermForm::Verb, TermForm::Long],
        TermForm::Symbol => &[TermForm::Symbol, TermForm::Short, TermForm::Long],
    }
}
