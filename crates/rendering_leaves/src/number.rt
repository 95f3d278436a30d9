//! Number nodes.

ghost use Rattle.std.specs.Prelude.{◌≡◌, OnOk};
ghost use Rattle.rendering_context.specs.Views.{answer_if, context_view};
ghost use Rattle.rendering_entries.specs.Answers.{Answers};
ghost use Rattle.rendering_leaves.specs.Parts.{in_number};
ghost use Rattle.rendering_leaves.specs.Values.{append_leaf};
ghost use Rattle.rendering_leaves.specs.Views.{setting_view};
ghost use Rattle.rendering_page.specs.Pieces.{append_pieces};
ghost use Rattle.rendering_page.specs.Views.{quotes_view};
ghost use Rattle.rendering_style.specs.Nodes as nodes;
ghost use Rattle.rendering_style.specs.Views.{number_node_view};

use crate::entry_identifiers::append_identified;
use crate::node_frame::{frame_of, number_manner};
use crate::node_setting::NodeSetting;
use crate::state::State;
use crate::suppression::after_variable;
use rendering_context::{Answer, Context};
use rendering_entries::EntryLike;
use rendering_page::Page;
use rendering_style::Number;
use rendering_taxonomy::LongShortForm;
use rendering_tree::ElemMeta;
use std::alloc::AllocError;

/// Appends a number node: the answer to its variable, with numbers in its form.
///
/// # Errors
/// Out of memory.
pub fn push_number<'a, E: EntryLike>(
    context: &Context<'_, 'a>,
    entry: &'a E,
    setting: &NodeSetting<'a>,
    node: &'a Number,
    state: &mut State<'a>,
) -> Result<(), AllocError>
    ensures { OnOk result (state.new ≡ append_leaf (context_view (E.answers entry.now) context.now)
        (setting_view setting.now) (nodes.number (number_node_view node.now)) state.old) }
{
    let answer = context.answer(entry, &state.suppressed, LongShortForm::Long, node.variable)?;
    append_number(context, setting, node, answer, &mut state.page)?;
    after_variable(context, setting, node.variable, state)
}

fn append_number<'a>(
    context: &Context<'_, 'a>,
    setting: &NodeSetting<'a>,
    node: &'a Number,
    answer: Option<Answer<'a>>,
    page: &mut Page<'a>,
) -> Result<(), AllocError>
    ensures { (a : Answers) → OnOk result (page.new
        ≡ append_pieces (quotes_view context.now.quotes.now) (in_number (context_view a context.now)
        (setting_view setting.now) (number_node_view node.now) (answer_if answer.entry)) page.old) }
{
    let frame = frame_of(setting.manner, &node.look);
    let manner = number_manner(setting.manner, node);
    page.begin_element(&frame, ElemMeta::Number)?;
    append_identified(context, manner, node.variable, node.form, answer, page)?;
    page.end_element(context.quotes, &frame)?;
    Ok(())
}
