//! What stands for names that are compared as elements.

ghost use Rattle.driver_bibliography.specs.AsElements.{AllIsReplaced, NamesAreElements};

/// Where the text does not stand for names alone, single names are the same where their elements are.
#[tactic(auto, using(crate::proofs::AsElementsHolds::names_as_elements))]
pub fn names_are_elements()
    ensures { NamesAreElements }
{}

/// The text then stands for the whole names element, with its labels and affixes.
#[tactic(auto, using(crate::proofs::AsElementsHolds::all_replaced))]
pub fn all_is_replaced()
    ensures { AllIsReplaced }
{}
