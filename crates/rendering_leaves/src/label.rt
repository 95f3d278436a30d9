//! Label nodes.

ghost use Rattle.std.specs.Prelude.{◌≡◌, OnOk};
ghost use Rattle.rendering_context.specs.Views.{context_view};
ghost use Rattle.rendering_entries.specs.Answers.{Answers};
ghost use Rattle.rendering_leaves.specs.Parts.{in_label};
ghost use Rattle.rendering_leaves.specs.Values.{label_term, append_leaf};
ghost use Rattle.rendering_leaves.specs.Views.{setting_view};
ghost use Rattle.rendering_page.specs.Pieces.{append_pieces};
ghost use Rattle.rendering_page.specs.Views.{quotes_view};
ghost use Rattle.rendering_style.specs.Nodes as nodes;
ghost use Rattle.rendering_style.specs.Views.{label_look_view};

use crate::node_frame::frame_of;
use crate::node_setting::NodeSetting;
use crate::state::State;
use rendering_context::Context;
use rendering_entries::EntryLike;
use rendering_names::{label_manner, pluralizes};
use rendering_page::Page;
use rendering_style::Label;
use rendering_taxonomy::{NumberVariable, Term, Variable};
use rendering_tree::ElemMeta;
use std::alloc::AllocError;

/// Appends a label: the term of its variable, of a locator that of what it counts.
///
/// # Errors
/// Out of memory.
pub fn push_label<'a, E: EntryLike>(
    context: &Context<'_, 'a>,
    entry: &'a E,
    setting: &NodeSetting<'a>,
    node: &'a Label,
    state: &mut State<'a>,
) -> Result<(), AllocError>
    ensures { OnOk result (state.new
        ≡ append_leaf (context_view (E.answers entry.now) context.now) (setting_view setting.now)
        (nodes.label node.now.variable (label_look_view node.now.label)) state.old) }
{
    let is_plural = context.is_plural(entry, node.variable)?;
    append_label(context, setting, node, is_plural, &mut state.page)
}

/// Appends a label, for one or for more than one.
fn append_label<'a>(
    context: &Context<'_, 'a>,
    setting: &NodeSetting<'a>,
    node: &'a Label,
    is_plural: bool,
    page: &mut Page<'a>,
) -> Result<(), AllocError>
    ensures { (a : Answers)
        → OnOk result (page.new ≡ append_pieces (quotes_view context.now.quotes.now)
        (in_label (context_view a context.now) (setting_view setting.now) node.now.variable
        (label_look_view node.now.label) is_plural) page.old) }
{
    let label = &node.label;
    let frame = frame_of(setting.manner, &label.look);
    let plural = pluralizes(label.plural, is_plural);
    let term = label_term(context, node.variable);
    let text = context.locales.term_text(term, label.form, plural);
    page.begin_element(&frame, ElemMeta::Label)?;
    page.push_text(context.quotes, label_manner(setting.manner, label), text)?;
    page.end_element(context.quotes, &frame)?;
    Ok(())
}

/// The term of a variable; of a locator that of what it counts.
fn label_term(context: &Context<'_, '_>, variable: Variable) -> Term
    ensures { (a : Answers) → result ≡ label_term (context_view a context.now) variable }
{
    match variable {
        Variable::Number(number) => number_term(context, number),
        _ => Term::Variable(variable),
    }
}

/// The term of a variable that is a number; of a locator that of what it counts.
fn number_term(context: &Context<'_, '_>, number: NumberVariable) -> Term
    ensures { (a : Answers)
        → result ≡ label_term (context_view a context.now) (Variable.Number number) }
{
    match number {
        NumberVariable::Locator => locator_term(context),
        _ => Term::Variable(Variable::Number(number)),
    }
}

/// The term of what the locator counts, where there is a locator.
fn locator_term(context: &Context<'_, '_>) -> Term
    ensures { (a : Answers) → result
        ≡ label_term (context_view a context.now) (Variable.Number NumberVariable.Locator) }
{
    match &context.properties.locator {
        Some(locator) => Term::Locator(locator.label),
        None => Term::Variable(Variable::Number(NumberVariable::Locator)),
    }
}
