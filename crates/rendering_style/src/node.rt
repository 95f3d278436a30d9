//! The nodes of a style: what is printed, one after the other.

use crate::options::NameOptions;
use rendering_locale::DatePart;
use rendering_taxonomy::{
    ChooseMatch, DateDayForm, DateForm, DateMonthForm, DateParts, DateVariable, Display, EtAlTerm,
    FormattingChanges, Kind, LabelPluralize, Locator, LongShortForm, NameVariable, NumberForm,
    Term, TermForm, TestPosition, TextCase, Variable,
};
use std::alloc::Global;
use texts::empty_text;

/// How a node looks, what stands before and after what it prints, and where it stands.
#[derive(Debug, PartialEq, Eq, Drop)]
pub struct Look {
    pub formatting: FormattingChanges,
    pub prefix: String,
    pub suffix: String,
    pub display: Option<Display>,
}

impl Look {
    ghost use Rattle.std.specs.Prelude.{◌≡◌};
    ghost use Rattle.rendering_style.specs.Nodes.{plain_look};
    ghost use Rattle.rendering_style.specs.Views.{look_view};

    /// A look for which nothing is specified.
    pub fn plain(alloc: Global) -> Look
        ensures { look_view result ≡ plain_look }
    {
        Look {
            formatting: FormattingChanges::default(),
            prefix: empty_text(alloc),
            suffix: empty_text(alloc),
            display: None,
        }
    }
}

/// How a text node looks.
#[derive(Debug, PartialEq, Eq, Drop)]
pub struct TextLook {
    pub look: Look,
    /// Whether what it prints stands in quotes.
    pub quotes: bool,
    /// Whether its full stops are left out.
    pub strip_periods: bool,
    /// Which letters of what it prints are made small or capitals.
    pub text_case: Option<TextCase>,
}

/// What a text node prints.
#[derive(Debug, PartialEq, Eq, Drop)]
pub enum TextTarget {
    /// The answer to a variable.
    Variable(Variable, LongShortForm),
    /// The nodes of the first macro of that name; nothing where there is none.
    Macro(String),
    /// A term in a form, for more than one or not.
    Term(Term, TermForm, bool),
    /// This text.
    Value(String),
}

/// A text.
#[derive(Debug, PartialEq, Eq, Drop)]
pub struct Text {
    pub target: TextTarget,
    pub look: TextLook,
}

/// The answer to a number or page variable.
#[derive(Debug, PartialEq, Eq, Drop)]
pub struct Number {
    pub variable: Variable,
    pub form: NumberForm,
    /// Which letters of what it prints are made small or capitals.
    pub text_case: Option<TextCase>,
    pub look: Look,
}

/// How a label looks.
#[derive(Debug, PartialEq, Eq, Drop)]
pub struct LabelLook {
    pub form: TermForm,
    /// When it stands in the plural.
    pub plural: LabelPluralize,
    /// Whether its full stops are left out.
    pub strip_periods: bool,
    /// Which letters of what it prints are made small or capitals.
    pub text_case: Option<TextCase>,
    pub look: Look,
}

/// The term of a variable.
#[derive(Debug, PartialEq, Eq, Drop)]
pub struct Label {
    pub variable: Variable,
    pub label: LabelLook,
}

/// Which part of a date is changed, and the form in which it is printed then, if one is said.
#[derive(Clone, Copy, Debug, PartialEq, Eq)]
pub enum ChangedDatePart {
    Day(Option<DateDayForm>),
    Month(Option<DateMonthForm>),
    Year(Option<LongShortForm>),
}

/// What changes of a part of a date. What is left open stays as it is, and so do the affixes of the part.
#[derive(Debug, PartialEq, Eq, Drop)]
pub struct DatePartChange {
    pub part: ChangedDatePart,
    /// Whether its full stops are left out.
    pub strip_periods: Option<bool>,
    /// Which letters of what it prints are made small or capitals.
    pub text_case: Option<TextCase>,
    pub formatting: FormattingChanges,
    /// The text between the sides of a range that differ in it.
    pub range_delimiter: Option<String>,
}

/// The answer to a date variable.
#[derive(Debug, PartialEq, Eq, Drop)]
pub struct Date {
    pub variable: DateVariable,
    /// The form of the locale's dates in which it is printed.
    pub form: Option<DateForm>,
    /// How much of it is printed in that form.
    pub parts: DateParts,
    /// The parts that are printed instead of the locale's, where there are any.
    pub own_parts: Vec<DatePart>,
    /// What changes of the parts that are printed. Of several changes of a part the first counts.
    pub part_changes: Vec<DatePartChange>,
    /// The text between its parts.
    pub delimiter: Option<String>,
    /// Which letters of what it prints are made small or capitals.
    pub text_case: Option<TextCase>,
    /// Whether the sides of a range print once what they share, as in `3–6 May 2014`.
    pub merges_ranges: bool,
    pub look: Look,
}

/// What is specified for a part of single names.
#[derive(Debug, PartialEq, Eq, Drop)]
pub struct NamePart {
    pub formatting: FormattingChanges,
    pub text_case: Option<TextCase>,
    pub prefix: String,
    pub suffix: String,
}

/// What is specified for single names.
#[derive(Debug, PartialEq, Eq, Drop)]
pub struct Name {
    pub options: NameOptions,
    pub formatting: FormattingChanges,
    pub prefix: String,
    pub suffix: String,
    /// What is specified for given names and for family names by themselves.
    pub given: Option<NamePart>,
    pub family: Option<NamePart>,
}

/// The term for the names left out.
#[derive(Debug, PartialEq, Eq, Drop)]
pub struct EtAl {
    pub term: EtAlTerm,
    pub formatting: FormattingChanges,
}

/// The people of variables.
#[derive(Debug, PartialEq, Eq, Drop)]
pub struct Names {
    pub variables: Vec<NameVariable>,
    pub name: Option<Name>,
    pub et_al: Option<EtAl>,
    pub label: Option<LabelLook>,
    /// Whether the label stands before the names.
    pub label_is_first: bool,
    /// Whether editors who are the translators too are printed once.
    pub merges_editor_translator: bool,
    /// The text between the people of two variables.
    pub delimiter: Option<String>,
    pub look: Look,
}

/// A group of nodes.
#[derive(Debug, PartialEq, Eq, Drop)]
pub struct Group {
    /// The text between what its children print.
    pub delimiter: Option<String>,
    pub look: Look,
}

/// What may be asked in a choose.
#[derive(Clone, Copy, Debug, PartialEq, Eq)]
pub enum ChooseTest {
    /// Whether the entry is of a kind.
    Type(Kind),
    /// Whether the variable has an answer.
    Variable(Variable),
    /// Whether its answer is a number.
    IsNumeric(Variable),
    /// Whether its answer is an uncertain date.
    IsUncertainDate(DateVariable),
    /// Whether the locator has this label.
    Locator(Locator),
    /// Whether the cite is at the position.
    Position(TestPosition),
    /// Whether the cite is to be disambiguated by this branch, as one that prints like another.
    Disambiguate,
}

/// Tests, and how many of them have to hold.
#[derive(Debug, PartialEq, Eq, Drop)]
pub struct Condition {
    pub required: ChooseMatch,
    pub tests: Vec<ChooseTest>,
}

/// A node. Comparing, dropping and `Debug` recurse as deep as nodes are nested.
#[cycle(node)]
#[derive(Debug, PartialEq, Eq)]
pub enum Node {
    Text(Text),
    Number(Number),
    Label(Label),
    Date(Date),
    /// Names, and the nodes of their substitute: the first that prints anything, where there are no names.
    Names(Names, Vec<Node>),
    /// The first branch whose condition is met, or else the last nodes.
    Choose(Vec<ChooseBranch>, Vec<Node>),
    /// A group, and its children.
    Group(Group, Vec<Node>),
}

impl Drop for Node {
    #[cycle(dropping)]
    fn drop(self) {
        match self {
            Node::Text(_) => {}
            Node::Number(_) => {}
            Node::Label(_) => {}
            Node::Date(_) => {}
            Node::Names(_, _) => {}
            Node::Choose(_, _) => {}
            Node::Group(_, _) => {}
        }
    }
}

/// Nodes that stand where a condition is met.
#[cycle(node)]
#[derive(Debug, PartialEq, Eq, Drop)]
pub struct ChooseBranch {
    pub condition: Condition,
    pub children: Vec<Node>,
}
