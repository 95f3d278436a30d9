//! The variables that identify entries: their answers stand in elements of their own, and a label has the year suffix.

ghost use Rattle.std.specs.Prelude.{◌≡◌, OnOk, Some};
ghost use Rattle.laws.specs.Text.{spelled};
ghost use Rattle.rendering_context.specs.Views.{answer_if, context_view};
ghost use Rattle.rendering_entries.specs.Answers.{Answers};
ghost use Rattle.rendering_leaves.specs.Values.{answer_pieces, identified, is_label_variable, is_number_variable, label_suffix, meaning, own_year_suffix};
ghost use Rattle.rendering_page.specs.Pieces.{append_pieces};
ghost use Rattle.rendering_page.specs.Views.{quotes_view, manner_view};
ghost use Rattle.rendering_tree.specs.Views.{meta_view};

use crate::node_frame::bare_frame;
use crate::printed_answers::append_answer;
use rendering_context::{Answer, Context};
use rendering_page::{Manner, Page};
use rendering_taxonomy::{NumberForm, NumberVariable, StandardVariable, Variable};
use rendering_tree::ElemMeta;
use std::alloc::AllocError;
use texts::no_text;

/// Appends the answer to a variable. The label and the number of an entry stand in an element of their own.
pub(crate) fn append_identified<'a>(
    context: &Context<'_, 'a>,
    manner: Manner,
    variable: Variable,
    form: NumberForm,
    answer: Option<Answer<'a>>,
    page: &mut Page<'a>,
) -> Result<(), AllocError>
    ensures { (a : Answers)
        → OnOk result (page.new ≡ append_pieces (quotes_view context.now.quotes.now)
        (identified (manner_view manner) variable (answer_pieces (context_view a context.now)
        (manner_view manner) form (answer_if answer.entry))) page.old) }
{
    match variable {
        Variable::Number(NumberVariable::CitationNumber) => {
            append_meaning(
                context,
                manner,
                ElemMeta::CitationNumber,
                form,
                answer,
                page,
            )
        }
        Variable::Standard(StandardVariable::CitationLabel) => {
            append_meaning(context, manner, ElemMeta::CitationLabel, form, answer, page)
        }
        _ => append_answer(context, manner, form, answer, page),
    }
}

/// Appends an answer in an element that says what it stands for.
fn append_meaning<'a>(
    context: &Context<'_, 'a>,
    manner: Manner,
    meta: ElemMeta,
    form: NumberForm,
    answer: Option<Answer<'a>>,
    page: &mut Page<'a>,
) -> Result<(), AllocError>
    ensures { (a : Answers)
        → OnOk result (page.new ≡ append_pieces (quotes_view context.now.quotes.now)
        (meaning (manner_view manner) (meta_view meta) (answer_pieces (context_view a context.now)
        (manner_view manner) form (answer_if answer.entry))) page.old) }
{
    let frame = bare_frame(manner);
    page.begin_element(&frame, meta)?;
    append_answer(context, manner, form, answer, page)?;
    page.end_element(context.quotes, &frame)?;
    Ok(())
}

/// Appends the year suffix after a label.
pub(crate) fn append_label_suffix<'a>(
    context: &Context<'_, 'a>,
    manner: Manner,
    variable: Variable,
    page: &mut Page<'a>,
) -> Result<(), AllocError>
    ensures { (a : Answers)
        → OnOk result (page.new ≡ append_pieces (quotes_view context.now.quotes.now)
        (label_suffix (context_view a context.now) (manner_view manner) variable) page.old) }
{
    if !is_label_variable(variable) {
        return Ok(());
    }
    page.push_text(context.quotes, manner, own_year_suffix(context))
}

/// The year suffix, unless a layout prints it by itself.
pub(crate) fn own_year_suffix<'a>(context: &Context<'_, 'a>) -> &'a str
    ensures { (a : Answers) → spelled result ≡ own_year_suffix (context_view a context.now) }
{
    if context.has_suffix_node {
        no_text()
    } else {
        context.year_suffix
    }
}

/// Whether a variable is the label of entries.
pub(crate) fn is_label_variable(variable: Variable) -> bool
    ensures { result ≡ is_label_variable variable }
{
    match variable {
        Variable::Standard(StandardVariable::CitationLabel) => true,
        _ => false,
    }
}

/// Whether a variable is the number of entries.
pub(crate) fn is_number_variable(variable: Variable) -> bool
    ensures { result ≡ is_number_variable variable }
{
    match variable {
        Variable::Number(NumberVariable::CitationNumber) => true,
        _ => false,
    }
}
