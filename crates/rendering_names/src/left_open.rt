//! What is left open changes nothing of how names are printed.

ghost use Rattle.rendering_names.specs.LeftOpen.{HyphensStay, NamesAreOneText, NodeDelimitsPeople, NodesSayTheirOwn, RolesArePrintedEach, RunsAreCut, TermIsDelimitedFromTwo};

/// Where nothing is specified of the delimiter before the term for those left out, it stands there where two or more are shown.
#[tactic(auto, using(crate::proofs::LeftOpenHolds::term_delimited))]
pub fn term_is_delimited_from_two()
    ensures { TermIsDelimitedFromTwo }
{}

/// Where nothing is specified of hyphens between initials, they stay.
#[tactic(auto, using(crate::proofs::LeftOpenHolds::hyphens_stay))]
pub fn hyphens_stay()
    ensures { HyphensStay }
{}

/// Where nothing is specified of pieces of given names, and names are not kept from being cut, initials are those of runs.
#[tactic(auto, using(crate::proofs::LeftOpenHolds::runs_cut))]
pub fn runs_are_cut()
    ensures { RunsAreCut }
{}

/// Where the options say nothing of what stands between the people of two variables, the node alone does.
#[tactic(auto, using(crate::proofs::LeftOpenHolds::node_delimits))]
pub fn node_delimits_people()
    ensures { NodeDelimitsPeople }
{}

/// Where nothing overrides what a node says of names, that goes over what is said around it.
#[tactic(auto, using(crate::proofs::LeftOpenHolds::nodes_say))]
pub fn nodes_say_their_own()
    ensures { NodesSayTheirOwn }
{}

/// Where nothing is specified for the parts of a name, it is one text.
#[tactic(auto, using(crate::proofs::LeftOpenHolds::one_text))]
pub fn names_are_one_text()
    ensures { NamesAreOneText }
{}

/// Where a node does not print editors and translators once, it prints the people of each of its
/// variables, with a label of their own.
#[tactic(auto, using(crate::proofs::LeftOpenHolds::roles_each))]
pub fn roles_are_printed_each()
    ensures { RolesArePrintedEach }
{}
