//! The variables that are not printed again.

ghost use Rattle.std.specs.Prelude.{◌≡◌, OnOk};
ghost use Rattle.rendering_leaves.specs.NodeSettings.{with_variable};
ghost use Rattle.rendering_taxonomy.specs.Variables.{is_among, is_variable};

use rendering_taxonomy::Variable;
use std::alloc::AllocError;

/// Adds a variable to those that are not printed again, each once.
pub(crate) fn add_variable(
    variables: &mut Vec<Variable>,
    variable: Variable,
) -> Result<(), AllocError>
    ensures { OnOk result (variables.new.items ≡ with_variable variables.old.items variable) }
{
    if is_among(variables, variable) {
        return Ok(());
    }
    variables.push(variable)?;
    Ok(())
}

/// Makes variables the same as others.
pub(crate) fn set_variables(
    variables: &mut Vec<Variable>,
    others: &Vec<Variable>,
) -> Result<(), AllocError>
    ensures { OnOk result (variables.new.items ≡ others.now.items) }
{
    *variables = others.clone()?;
    Ok(())
}

fn is_among(variables: &[Variable], variable: Variable) -> bool
    ensures { result ≡ is_among variables.now variable }
{
    variables.contains(&variable)
}

/// Whether two variables are one.
pub(crate) fn is_variable(variable: Variable, other: Variable) -> bool
    ensures { result ≡ is_variable variable other }
{
    other == variable
}
