//! Which variables are one, and which stands for another.

ghost use Rattle.std.specs.Prelude.{◌≡◌};
ghost use Rattle.rendering_taxonomy.specs.Kinds.{is_locator};
ghost use Rattle.rendering_taxonomy.specs.Variables.{is_among};
ghost use Rattle.rendering_context.specs.Answering as answering;

use rendering_taxonomy::{IdentifierUsage, Locator, NumberVariable, StandardVariable, Variable};

/// Whether a variable is among some. Mostly there are none.
pub(crate) fn is_among(variables: &[Variable], variable: Variable) -> bool
    ensures { result ≡ is_among variables.now variable }
{
    !variables.is_empty() && variables.contains(&variable)
}

/// Whether two labels of locators are one.
pub(crate) fn is_locator(label: Locator, other: Locator) -> bool
    ensures { result ≡ is_locator label other }
{
    label == other
}

/// The one of the two variables that identify entries that stands for the other, where cites printed only one of them.
pub(crate) fn exchanged_for(usage: IdentifierUsage, variable: Variable) -> Variable
    ensures { result ≡ answering.exchanged_for usage variable }
{
    match (usage, variable) {
        (IdentifierUsage::OnlyCitationLabel, Variable::Number(NumberVariable::CitationNumber)) => {
            Variable::Standard(StandardVariable::CitationLabel)
        }
        (
            IdentifierUsage::OnlyCitationNumber,
            Variable::Standard(StandardVariable::CitationLabel),
        ) => { Variable::Number(NumberVariable::CitationNumber) }
        _ => variable,
    }
}
