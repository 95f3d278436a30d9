//! Elements without nodes in them: texts, numbers, labels and dates.

ghost use Rattle.std.specs.Prelude.{◌≡◌, map, IfOk, codes};
ghost use Rattle.std.specs.Option.{option_map};
ghost use Rattle.std.specs.Str.{chars};
ghost use Rattle.laws.specs.Text.{text};
ghost use Rattle.rendering_locale.specs.Views.{part_view};
ghost use Rattle.rendering_taxonomy.specs.Variables.{is_variable};
ghost use Rattle.rendering_style.specs.Nodes.{leaf, call, number, label, date, node, no_nodes};
ghost use Rattle.rendering_style.specs.Views.{node_view, part_change_view, text_node_view, branch_view, condition_view};
ghost use Rattle.xml_tree.specs.Views.{element_view};
ghost use Rattle.csl_words.specs.Looking.{attribute};
ghost use Rattle.csl_nodes.specs.Looks.{text_look, label_look};
ghost use Rattle.csl_nodes.specs.Terms as terms;
ghost use Rattle.csl_nodes.specs.Leaves.{year_suffix, has_suffix, where_suffixed, answered, variable_text, term_text, text_by, text_node, number_of, number_node, label_node, own_parts, form_changes, date_of, date_node};
ghost use Rattle.csl_nodes.specs.Views.{words_view};

use crate::dates::{date_parts, part_changes};
use crate::looks::{label_look, look, term_form, text_case, text_look};
use crate::terms::{printed_variable, term_of};
use crate::words::Words;
use csl_words::{
    DATE_FORMS, DATE_PARTS, DATE_VARIABLES, LENGTHS, NUMBER_FORMS, NUMBER_VARIABLES, attribute,
    is_true, printed, printed_text, value_by,
};
use rendering_locale::DatePart;
use rendering_style::{
    ChooseBranch, ChooseTest, Condition, Date, DatePartChange, Label, Node, Number, Text,
    TextTarget,
};
use rendering_taxonomy::{
    ChooseMatch, DateParts, DateVariable, LongShortForm, NumberForm, StandardVariable, Variable,
};
use std::alloc::{AllocError, Global};
use texts::owned;
use xml_tree::Element;

/// Whether a variable is the year suffix.
fn is_year_suffix(variable: Variable) -> bool
    ensures { result ≡ is_variable variable year_suffix }
{
    match variable {
        Variable::Standard(StandardVariable::YearSuffix) => true,
        _ => false,
    }
}

/// The condition that there is a year suffix.
fn has_suffix(alloc: Global) -> Result<Condition, AllocError>
    ensures { IfOk result (λ c. condition_view c ≡ has_suffix) }
{
    let suffix = Variable::Standard(StandardVariable::YearSuffix);
    let tests = vec![in alloc; ChooseTest::Variable(suffix)]?;
    Ok(Condition {
        required: ChooseMatch::All,
        tests,
    })
}

/// A branch for a node where there is a year suffix.
fn suffixed_branch(alloc: Global, inner: Node) -> Result<ChooseBranch, AllocError>
    ensures { IfOk result (λ b. branch_view b ≡ (has_suffix, node (node_view inner) no_nodes)) }
{
    let condition = has_suffix(alloc)?;
    let children = vec![in alloc; inner]?;
    Ok(ChooseBranch {
        condition,
        children,
    })
}

/// A node that stands where there is a year suffix.
fn where_suffixed(alloc: Global, inner: Node) -> Result<Node, AllocError>
    ensures { IfOk result (λ n. node_view n ≡ where_suffixed (node_view inner)) }
{
    let branch = suffixed_branch(alloc, inner)?;
    let branches = vec![in alloc; branch]?;
    Ok(Node::Choose(branches, Vec::new(alloc)))
}

/// The node of a text of a variable: that of the year suffix stands where there is one.
fn answered(alloc: Global, variable: Variable, inner: Node) -> Result<Node, AllocError>
    ensures { IfOk result (λ n. node_view n ≡ answered variable (node_view inner)) }
{
    if is_year_suffix(variable) {
        where_suffixed(alloc, inner)
    } else {
        Ok(inner)
    }
}

/// A text that prints this.
fn text_of_target(
    alloc: Global,
    element: &Element<'_>,
    target: TextTarget,
) -> Result<Node, AllocError>
    ensures { IfOk result (λ n. node_view n
        ≡ text_node_view target (text_look (element_view element.now))) }
{
    let look = text_look(alloc, element)?;
    Ok(Node::Text(Text { target, look }))
}

/// The answer to a variable.
fn variable_text(
    alloc: Global,
    element: &Element<'_>,
    variable: Variable,
) -> Result<Node, AllocError>
    ensures { IfOk result (λ n. node_view n
        ≡ variable_text (element_view element.now) variable) }
{
    let form = value_by(LENGTHS, "form", element).unwrap_or(LongShortForm::Long);
    let inner = text_of_target(alloc, element, TextTarget::Variable(variable, form))?;
    answered(alloc, variable, inner)
}

/// The answer to the variable of that word, if it is one of a text or of a number.
#[tactic(auto, using(laws::proofs::Text::text_of_chars))]
fn variable_node(
    alloc: Global,
    element: &Element<'_>,
    word: &str,
) -> Result<Option<Node>, AllocError>
    ensures { IfOk result (λ n. option_map node_view n
        ≡ option_map (variable_text (element_view element.now))
        (terms.printed_variable (text (chars word.now)))) }
{
    match printed_variable(word) {
        Some(variable) => Ok(Some(variable_text(alloc, element, variable)?)),
        None => Ok(None),
    }
}

/// A call of the macro of that name.
fn call(alloc: Global, element: &Element<'_>, name: &str) -> Result<Node, AllocError>
    ensures { IfOk result (λ n. node_view n
        ≡ call (text (chars name.now)) (text_look (element_view element.now))) }
{
    let name = owned(alloc, name)?;
    text_of_target(alloc, element, TextTarget::Macro(name))
}

/// The term of that word.
#[tactic(auto, using(laws::proofs::Text::text_of_chars))]
fn term_text(
    alloc: Global,
    unlisted: &Words,
    element: &Element<'_>,
    word: &str,
) -> Result<Node, AllocError>
    ensures { IfOk result (λ n. node_view n ≡ term_text (words_view unlisted.now)
        (element_view element.now) (text (chars word.now))) }
{
    let term = term_of(unlisted, word);
    let target = TextTarget::Term(term, term_form(element), is_true("plural", element));
    text_of_target(alloc, element, target)
}

/// A term, or else words of the style.
fn words_text(alloc: Global, unlisted: &Words, element: &Element<'_>) -> Result<Node, AllocError>
    ensures { IfOk result (λ n. text_by (words_view unlisted.now) (element_view element.now)
        None None (attribute (codes "term") (element_view element.now)) ≡ Some (node_view n)) }
{
    match attribute("term", element) {
        Some(word) => term_text(alloc, unlisted, element, word),
        None => {
            let value = printed_text(alloc, "value", element)?;
            text_of_target(alloc, element, TextTarget::Value(value))
        }
    }
}

/// A call of a macro, or else a term or words of the style.
fn unanswered_text(
    alloc: Global,
    unlisted: &Words,
    element: &Element<'_>,
) -> Result<Node, AllocError>
    ensures { IfOk result (λ n. text_by (words_view unlisted.now) (element_view element.now)
        None (attribute (codes "macro") (element_view element.now))
        (attribute (codes "term") (element_view element.now)) ≡ Some (node_view n)) }
{
    match attribute("macro", element) {
        Some(name) => call(alloc, element, name),
        None => words_text(alloc, unlisted, element),
    }
}

/// A text.
pub(crate) fn text_node(
    alloc: Global,
    unlisted: &Words,
    element: &Element<'_>,
) -> Result<Option<Node>, AllocError>
    ensures { IfOk result (λ n. option_map node_view n
        ≡ text_node (words_view unlisted.now) (element_view element.now)) }
{
    match attribute("variable", element) {
        Some(word) => variable_node(alloc, element, word),
        None => Ok(Some(unanswered_text(alloc, unlisted, element)?)),
    }
}

/// The answer to a variable of a number.
fn number_of(alloc: Global, element: &Element<'_>, variable: Variable) -> Result<Node, AllocError>
    ensures { IfOk result (λ n. node_view n
        ≡ leaf (number (number_of (element_view element.now) variable))) }
{
    let look = look(alloc, element)?;
    Ok(Node::Number(Number {
        variable,
        form: value_by(NUMBER_FORMS, "form", element).unwrap_or(NumberForm::Numeric),
        text_case: text_case(element),
        look,
    }))
}

/// A number, if it is of a variable.
pub(crate) fn number_node(alloc: Global, element: &Element<'_>) -> Result<Option<Node>, AllocError>
    ensures { IfOk result (λ n. option_map node_view n
        ≡ number_node (element_view element.now)) }
{
    match value_by(NUMBER_VARIABLES, "variable", element) {
        Some(variable) => Ok(Some(number_of(alloc, element, variable)?)),
        None => Ok(None),
    }
}

/// The term of a variable.
fn label_of(alloc: Global, element: &Element<'_>, variable: Variable) -> Result<Node, AllocError>
    ensures { IfOk result (λ n. node_view n
        ≡ leaf (label variable (label_look (element_view element.now)))) }
{
    let label = label_look(alloc, element)?;
    Ok(Node::Label(Label { variable, label }))
}

/// A label, if it is of a variable.
pub(crate) fn label_node(alloc: Global, element: &Element<'_>) -> Result<Option<Node>, AllocError>
    ensures { IfOk result (λ n. option_map node_view n
        ≡ label_node (element_view element.now)) }
{
    match value_by(NUMBER_VARIABLES, "variable", element) {
        Some(variable) => Ok(Some(label_of(alloc, element, variable)?)),
        None => Ok(None),
    }
}

/// The parts of a date: none of its own, where it is printed in a form of the locale's.
fn own_parts(alloc: Global, element: &Element<'_>) -> Result<Vec<DatePart>, AllocError>
    ensures { IfOk result (λ v. map part_view v.items ≡ own_parts (element_view element.now)) }
{
    match value_by(DATE_FORMS, "form", element) {
        Some(_) => Ok(Vec::new(alloc)),
        None => date_parts(alloc, element),
    }
}

/// What a date changes of the parts of the locale: nothing, where it is printed in no form of the locale's.
fn form_changes(alloc: Global, element: &Element<'_>) -> Result<Vec<DatePartChange>, AllocError>
    ensures { IfOk result (λ v. map part_change_view v.items
        ≡ form_changes (element_view element.now)) }
{
    match value_by(DATE_FORMS, "form", element) {
        Some(_) => part_changes(alloc, element),
        None => Ok(Vec::new(alloc)),
    }
}

/// The answer to a variable of a date.
fn date_of(alloc: Global, element: &Element<'_>, variable: DateVariable) -> Result<Node, AllocError>
    ensures { IfOk result (λ n. node_view n
        ≡ leaf (date (date_of (element_view element.now) variable))) }
{
    let form = value_by(DATE_FORMS, "form", element);
    let own_parts = own_parts(alloc, element)?;
    let part_changes = form_changes(alloc, element)?;
    let delimiter = printed(alloc, "delimiter", element)?;
    let look = look(alloc, element)?;
    Ok(Node::Date(Date {
        variable,
        form,
        parts: value_by(DATE_PARTS, "date-parts", element).unwrap_or(DateParts::YearMonthDay),
        own_parts,
        part_changes,
        delimiter,
        text_case: text_case(element),
        merges_ranges: true,
        look,
    }))
}

/// A date, if it is of a variable.
pub(crate) fn date_node(alloc: Global, element: &Element<'_>) -> Result<Option<Node>, AllocError>
    ensures { IfOk result (λ n. option_map node_view n
        ≡ date_node (element_view element.now)) }
{
    match value_by(DATE_VARIABLES, "variable", element) {
        Some(variable) => Ok(Some(date_of(alloc, element, variable)?)),
        None => Ok(None),
    }
}
