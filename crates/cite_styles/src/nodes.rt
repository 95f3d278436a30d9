//! The nodes that the styles have in common.

ghost use Rattle.std.specs.Prelude.{◌≡◌, IfOk, map};
ghost use Rattle.std.specs.Str.{chars};
ghost use Rattle.rendering_locale.specs.Views.{part_view};
ghost use Rattle.rendering_style.specs.Views.{look_view, text_look_view, node_view};
ghost use Rattle.cite_styles.specs.Nodes.{plain_text, italic_text, answer, grouped, citation_number, item_number, title, ibid, locator_label, locator, year_part, year, source};

use rendering_locale::DatePart;
use rendering_style::{
    Date, Group, Label, LabelLook, Look, Node, Number, Text, TextLook, TextTarget,
};
use rendering_taxonomy::{
    DatePartForm, DateParts, DateVariable, FontStyle, FormattingChanges, LabelPluralize,
    LongShortForm, NumberForm, NumberVariable, OtherTerm, StandardVariable, Term, TermForm,
    Variable,
};
use std::alloc::{AllocError, Global};
use texts::{empty_text, owned};

/// The locator of a cite.
const LOCATOR: Variable = Variable::Number(NumberVariable::Locator);

/// A text for whose look nothing is specified.
fn plain_text(alloc: Global) -> TextLook
    ensures { text_look_view result ≡ plain_text }
{
    TextLook {
        look: Look::plain(alloc),
        quotes: false,
        strip_periods: false,
        text_case: None,
    }
}

fn italic_text(alloc: Global) -> TextLook
    ensures { text_look_view result ≡ italic_text }
{
    let mut look = plain_text(alloc);
    look.look.formatting.font_style = Some(FontStyle::Italic);
    look
}

fn answer(variable: Variable, look: TextLook) -> Node
    ensures { node_view result ≡ answer variable (text_look_view look) }
{
    Node::Text(Text {
        target: TextTarget::Variable(variable, LongShortForm::Long),
        look,
    })
}

/// The number of the entry among those cited.
pub(crate) fn citation_number(look: Look) -> Node
    ensures { node_view result ≡ citation_number (look_view look) }
{
    Node::Number(Number {
        variable: Variable::Number(NumberVariable::CitationNumber),
        form: NumberForm::Numeric,
        text_case: None,
        look,
    })
}

/// The number of an item, in square brackets.
#[tactic(auto, unfolding(crate::specs::Nodes::item_number), using(crate::proofs::Literals::open_square, crate::proofs::Literals::close_square_space))]
pub(crate) fn item_number(alloc: Global) -> Result<Node, AllocError>
    ensures { IfOk result (λ n. node_view n ≡ item_number) }
{
    let prefix = owned(alloc, "[")?;
    let suffix = owned(alloc, "] ")?;
    Ok(citation_number(Look {
        prefix,
        suffix,
        ..Look::plain(alloc)
    }))
}

pub(crate) fn title(alloc: Global) -> Node
    ensures { node_view result ≡ title }
{
    answer(
        Variable::Standard(StandardVariable::Title),
        plain_text(alloc),
    )
}

/// The word for a cite with the same locator.
pub(crate) fn ibid(alloc: Global) -> Node
    ensures { node_view result ≡ ibid }
{
    Node::Text(Text {
        target: TextTarget::Term(Term::Other(OtherTerm::Ibid), TermForm::Long, false),
        look: plain_text(alloc),
    })
}

/// A group of nodes with a text between them.
pub(crate) fn grouped(alloc: Global, delimiter: &str, nodes: Vec<Node>) -> Result<Node, AllocError>
    ensures { IfOk result (λ n. node_view n
        ≡ grouped (chars delimiter.now) (map node_view nodes.items)) }
{
    let delimiter = owned(alloc, delimiter)?;
    let group = Group {
        delimiter: Some(delimiter),
        look: Look::plain(alloc),
    };
    Ok(Node::Group(group, nodes))
}

/// The short term for the label of the locator.
fn locator_label(alloc: Global) -> Node
    ensures { node_view result ≡ locator_label }
{
    Node::Label(Label {
        variable: LOCATOR,
        label: LabelLook {
            form: TermForm::Short,
            plural: LabelPluralize::Contextual,
            strip_periods: false,
            text_case: None,
            look: Look::plain(alloc),
        },
    })
}

/// The locator after its label.
#[tactic(auto, unfolding(crate::specs::Nodes::locator), using(crate::proofs::Literals::space))]
pub(crate) fn locator(alloc: Global) -> Result<Node, AllocError>
    ensures { IfOk result (λ n. node_view n ≡ locator) }
{
    let nodes = vec![in alloc; locator_label(alloc), answer(LOCATOR, plain_text(alloc))]?;
    grouped(alloc, " ", nodes)
}

fn year_part(alloc: Global) -> DatePart
    ensures { part_view result ≡ year_part }
{
    DatePart {
        form: DatePartForm::Year(LongShortForm::Long),
        strip_periods: false,
        text_case: None,
        formatting: FormattingChanges::default(),
        prefix: empty_text(alloc),
        suffix: empty_text(alloc),
        range_delimiter: None,
    }
}

/// The year in which the entry appeared.
#[tactic(auto, unfolding(crate::specs::Nodes::year))]
pub(crate) fn year(alloc: Global) -> Result<Node, AllocError>
    ensures { IfOk result (λ n. node_view n ≡ year) }
{
    let own_parts = vec![in alloc; year_part(alloc)]?;
    Ok(Node::Date(Date {
        variable: DateVariable::Issued,
        form: None,
        parts: DateParts::YearMonthDay,
        own_parts,
        part_changes: Vec::new(alloc),
        delimiter: None,
        text_case: None,
        merges_ranges: false,
        look: Look::plain(alloc),
    }))
}

/// Where the entry appeared: the work that it is in, the volume, the pages, and who published it.
#[tactic(auto, unfolding(crate::specs::Nodes::source), using(crate::proofs::Literals::comma))]
pub(crate) fn source(alloc: Global) -> Result<Node, AllocError>
    ensures { IfOk result (λ n. node_view n ≡ source) }
{
    let nodes = vec![in alloc;
        answer(
            Variable::Standard(StandardVariable::ContainerTitle),
            italic_text(alloc)
        ),
        answer(Variable::Number(NumberVariable::Volume), plain_text(alloc)),
        answer(Variable::Page, plain_text(alloc)),
        answer(
            Variable::Standard(StandardVariable::Publisher),
            plain_text(alloc)
        ),
    ]?;
    grouped(alloc, ", ", nodes)
}
