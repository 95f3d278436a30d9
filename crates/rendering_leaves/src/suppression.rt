//! What a state remembers after a node.

ghost use Rattle.std.specs.Prelude.{◌≡◌, OnOk, if◌then◌else◌};
ghost use Rattle.rendering_context.specs.Answering.{asked_for};
ghost use Rattle.rendering_context.specs.Views.{context_view};
ghost use Rattle.rendering_entries.specs.Answers.{Answers};
ghost use Rattle.rendering_leaves.specs.Values.{after_variable, suppressing, using};
ghost use Rattle.rendering_leaves.specs.Views.{setting_view};
ghost use Rattle.rendering_taxonomy.specs.Variables.{is_variable};

use crate::entry_identifiers::{is_label_variable, is_number_variable};
use crate::node_setting::NodeSetting;
use crate::state::State;
use crate::suppressed::is_variable;
use rendering_context::Context;
use rendering_taxonomy::Variable;
use std::alloc::AllocError;

/// What is remembered after a node of a variable: that it is not printed again, where a substitute printed it, and that an identifier
/// was printed.
pub(crate) fn after_variable<'a>(
    context: &Context<'_, 'a>,
    setting: &NodeSetting<'a>,
    variable: Variable,
    state: &mut State<'a>,
) -> Result<(), AllocError>
    ensures { (a : Answers) → OnOk result (state.new ≡ after_variable
        (context_view a context.now) (setting_view setting.now) variable state.old) }
{
    suppress_answered(context, setting, variable, state)?;
    remember_use(context, variable, state);
    Ok(())
}

/// In a substitute, adds a variable to those that are not printed again, unless another one was asked instead.
fn suppress_answered<'a>(
    context: &Context<'_, 'a>,
    setting: &NodeSetting<'a>,
    variable: Variable,
    state: &mut State<'a>,
) -> Result<(), AllocError>
    ensures { (a : Answers) → OnOk result (state.new
        ≡ (if is_variable variable (asked_for (context_view a context.now) variable)
        then suppressing (setting_view setting.now) variable state.old else state.old)) }
{
    if !is_variable(variable, context.asked_for(variable)) {
        return Ok(());
    }
    suppress_in_substitute(setting, variable, state)
}

/// In a substitute, adds a variable to those that are not printed again.
pub(crate) fn suppress_in_substitute<'a>(
    setting: &NodeSetting<'a>,
    variable: Variable,
    state: &mut State<'a>,
) -> Result<(), AllocError>
    ensures { OnOk result (state.new ≡ suppressing (setting_view setting.now) variable state.old) }
{
    if !setting.in_substitute {
        return Ok(());
    }
    state.suppress(variable)
}

/// Remembers that an identifier was printed, if the variable is one.
fn remember_use<'a>(context: &Context<'_, 'a>, variable: Variable, state: &mut State<'a>)
    ensures { (a : Answers) → state.new ≡ using (context_view a context.now) variable state.old }
{
    if context.is_bibliography {
        return;
    }
    let is_label = is_label_variable(variable);
    let is_number = is_number_variable(variable);
    state.used_label = state.used_label || is_label;
    state.used_number = state.used_number || is_number;
}
