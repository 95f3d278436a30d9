//! Which nodes are printed in a form of a layout.

ghost use Rattle.std.specs.Prelude.{◌≡◌};
ghost use Rattle.std.specs.List.{list_any};
ghost use Rattle.rendering_leaves.specs.Views.{form_view};
ghost use Rattle.rendering_nodes.specs.Admission as admission;
ghost use Rattle.rendering_style.specs.Views.{names_node_view};
ghost use Rattle.rendering_taxonomy.specs.Variables.{is_name_variable};

use rendering_leaves::SpecialForm;
use rendering_style::Names;
use rendering_taxonomy::{NameVariable, NumberVariable, StandardVariable, Variable};

/// Whether the form allows the node of a variable that is no date and no names.
pub(crate) fn allows_variable(form: SpecialForm, variable: Variable) -> bool
    ensures { result ≡ admission.allows_variable (form_view form) variable }
{
    match form {
        SpecialForm::Whole | SpecialForm::WithoutAuthor | SpecialForm::WithoutNames(_) => true,
        SpecialForm::AuthorOnly(_) | SpecialForm::AuthorsAlone(_) => false,
        SpecialForm::FirstDateOnly | SpecialForm::SuffixOnly => is_with_suffix(variable),
    }
}

/// Whether the variable is a locator or the year suffix.
fn is_with_suffix(variable: Variable) -> bool
    ensures { result ≡ admission.is_with_suffix variable }
{
    is_locator_variable(variable) || is_suffix_variable(variable)
}

fn is_locator_variable(variable: Variable) -> bool
    ensures { result ≡ admission.is_locator_variable variable }
{
    match variable {
        Variable::Number(NumberVariable::Locator) => true,
        _ => false,
    }
}

/// Whether the variable is the year suffix.
pub(crate) fn is_suffix_variable(variable: Variable) -> bool
    ensures { result ≡ admission.is_suffix_variable variable }
{
    match variable {
        Variable::Standard(StandardVariable::YearSuffix) => true,
        _ => false,
    }
}

/// Whether the form allows words of the style.
pub(crate) fn allows_words(form: SpecialForm) -> bool
    ensures { result ≡ admission.allows_words (form_view form) }
{
    match form {
        SpecialForm::Whole | SpecialForm::WithoutAuthor | SpecialForm::WithoutNames(_) => true,
        SpecialForm::AuthorOnly(_) | SpecialForm::FirstDateOnly | SpecialForm::SuffixOnly => false,
        SpecialForm::AuthorsAlone(_) => false,
    }
}

/// Whether the form allows names.
pub(crate) fn allows_names(form: SpecialForm, names: &Names) -> bool
    ensures { result ≡ admission.allows_names (form_view form) (names_node_view names.now) }
{
    match form {
        SpecialForm::Whole => true,
        SpecialForm::AuthorOnly(variable) => is_of(variable, names),
        SpecialForm::WithoutAuthor => !is_of(NameVariable::Author, names),
        SpecialForm::FirstDateOnly | SpecialForm::SuffixOnly => false,
        SpecialForm::AuthorsAlone(variable) => is_of(variable, names),
        SpecialForm::WithoutNames(variable) => !is_of(variable, names),
    }
}

/// Whether the variable is among those of the names.
pub(crate) fn is_of(variable: NameVariable, names: &Names) -> bool
    ensures { result ≡ admission.is_of variable (names_node_view names.now) }
{
    is_among_names(variable, names.variables.as_slice())
}

/// Whether a variable is among some.
pub(crate) fn is_among_names(variable: NameVariable, variables: &[NameVariable]) -> bool
    ensures { result ≡ list_any (is_name_variable variable) variables.now }
{
    for other in variables {
        if is_name_variable(variable, *other) {
            return true;
        }
    }
    false
}

/// Whether two variables are one.
fn is_name_variable(variable: NameVariable, other: NameVariable) -> bool
    ensures { result ≡ is_name_variable variable other }
{
    variable == other
}
