//! The terms of English.

ghost use Rattle.std.specs.Prelude.{◌≡◌, map};
ghost use Rattle.cite_styles.specs.English.{words, counted, labels, months};
ghost use Rattle.cite_styles.specs.Rows.{term_row_view};

use rendering_taxonomy::Term::{Locator as Label, Month, Other};
use rendering_taxonomy::TermForm::{Long, Short};
use rendering_taxonomy::{
    Locator, NameVariable, NumberVariable, OtherTerm, Term, TermForm, Variable,
};

/// A term in a form, with its texts for one and for more than one.
pub(crate) type Row = (Term, TermForm, &'static str, &'static str);

/// The editor.
const EDITOR: Term = Term::Variable(Variable::Name(NameVariable::Editor));

/// The translator.
const TRANSLATOR: Term = Term::Variable(Variable::Name(NameVariable::Translator));

/// The edition.
const EDITION: Term = Term::Variable(Variable::Number(NumberVariable::Edition));

/// The label of supplements.
const SUPPLEMENT: Term = Label(Locator::Supplement);

/// Words that are not counted.
const WORDS: &[Row] = &[
    (Other(OtherTerm::And), Long, "and", "and"),
    (Other(OtherTerm::EtAl), Long, "et al.", "et al."),
    (Other(OtherTerm::Ibid), Long, "ibid.", "ibid."),
    (Other(OtherTerm::In), Long, "in", "in"),
    (Other(OtherTerm::NoDate), Long, "no date", "no date"),
    (Other(OtherTerm::Ad), Long, "AD", "AD"),
    (Other(OtherTerm::Bc), Long, "BC", "BC"),
    (Other(OtherTerm::OpenQuote), Long, "“", "“"),
    (Other(OtherTerm::CloseQuote), Long, "”", "”"),
    (Other(OtherTerm::OpenInnerQuote), Long, "‘", "‘"),
    (Other(OtherTerm::CloseInnerQuote), Long, "’", "’"),
    (Other(OtherTerm::NoDate), Short, "n.d.", "n.d."),
];

/// What is counted, and people, in long and in short.
const COUNTED: &[Row] = &[
    (EDITOR, Long, "editor", "editors"),
    (EDITOR, Short, "ed.", "eds."),
    (TRANSLATOR, Long, "translator", "translators"),
    (TRANSLATOR, Short, "trans.", "trans."),
    (Label(Locator::Page), Long, "page", "pages"),
    (Label(Locator::Page), Short, "p.", "pp."),
    (Label(Locator::Chapter), Long, "chapter", "chapters"),
    (Label(Locator::Chapter), Short, "chap.", "chaps."),
    (Label(Locator::Volume), Long, "volume", "volumes"),
    (Label(Locator::Volume), Short, "vol.", "vols."),
    (EDITION, Long, "edition", "editions"),
    (EDITION, Short, "ed.", "eds."),
    (Label(Locator::Issue), Long, "issue", "issues"),
    (Label(Locator::Issue), Short, "no.", "nos."),
];

/// The other labels of locators.
const LABELS: &[Row] = &[
    (Label(Locator::Opus), Long, "opus", "opera"),
    (Label(Locator::SubVerbo), Long, "sub verbo", "sub verbis"),
    (Label(Locator::Book), Long, "book", "books"),
    (Label(Locator::Column), Long, "column", "columns"),
    (Label(Locator::Figure), Long, "figure", "figures"),
    (Label(Locator::Folio), Long, "folio", "folios"),
    (Label(Locator::Line), Long, "line", "lines"),
    (Label(Locator::Note), Long, "note", "notes"),
    (Label(Locator::Paragraph), Long, "paragraph", "paragraphs"),
    (Label(Locator::Part), Long, "part", "parts"),
    (Label(Locator::Section), Long, "section", "sections"),
    (Label(Locator::Verse), Long, "verse", "verses"),
    (SUPPLEMENT, Long, "supplement", "supplements"),
];

/// The months.
const MONTHS: &[Row] = &[
    (Month(0), Long, "January", "January"),
    (Month(0), Short, "Jan.", "Jan."),
    (Month(1), Long, "February", "February"),
    (Month(1), Short, "Feb.", "Feb."),
    (Month(2), Long, "March", "March"),
    (Month(2), Short, "Mar.", "Mar."),
    (Month(3), Long, "April", "April"),
    (Month(3), Short, "Apr.", "Apr."),
    (Month(4), Long, "May", "May"),
    (Month(4), Short, "May", "May"),
    (Month(5), Long, "June", "June"),
    (Month(5), Short, "June", "June"),
    (Month(6), Long, "July", "July"),
    (Month(6), Short, "July", "July"),
    (Month(7), Long, "August", "August"),
    (Month(7), Short, "Aug.", "Aug."),
    (Month(8), Long, "September", "September"),
    (Month(8), Short, "Sep.", "Sep."),
    (Month(9), Long, "October", "October"),
    (Month(9), Short, "Oct.", "Oct."),
    (Month(10), Long, "November", "November"),
    (Month(10), Short, "Nov.", "Nov."),
    (Month(11), Long, "December", "December"),
    (Month(11), Short, "Dec.", "Dec."),
];

/// The words that are not counted.
pub(crate) fn words() -> &'static [Row]
    ensures { map term_row_view result.now ≡ words }
{
    WORDS
}

/// What is counted, and people.
pub(crate) fn counted() -> &'static [Row]
    ensures { map term_row_view result.now ≡ counted }
{
    COUNTED
}

/// The other labels of locators.
pub(crate) fn labels() -> &'static [Row]
    ensures { map term_row_view result.now ≡ labels }
{
    LABELS
}

pub(crate) fn months() -> &'static [Row]
    ensures { map term_row_view result.now ≡ months }
{
    MONTHS
}
