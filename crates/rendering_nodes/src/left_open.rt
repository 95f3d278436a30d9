//! What published styles ask for changes nothing of what others print.

ghost use Rattle.rendering_nodes.specs.LeftOpen.{AcceptedSubstitutesEnd, AdmittedNodesAreDelimited, NodesHaveTheirAffixes, SubstitutesAloneTake, SubstitutesKeepTheForm, SubstitutesSuppressAtOnce};

/// In a style that is no published one a delimiter stands before each node that is admitted, but the first.
#[tactic(auto, using(crate::proofs::LeftOpenHolds::admitted_delimited))]
pub fn admitted_nodes_are_delimited()
    ensures { AdmittedNodesAreDelimited }
{}

/// In such a style what a substitute prints is not printed again from then on.
#[tactic(auto, using(crate::proofs::LeftOpenHolds::suppress_at_once))]
pub fn substitutes_suppress_at_once()
    ensures { SubstitutesSuppressAtOnce }
{}

/// In such a style only its element ends where a substitute stands.
#[tactic(auto, using(crate::proofs::LeftOpenHolds::accepted_end))]
pub fn accepted_substitutes_end()
    ensures { AcceptedSubstitutesEnd }
{}

/// In all forms but the one of authors alone nodes have their affixes.
#[tactic(auto, using(crate::proofs::LeftOpenHolds::affixes_stay))]
pub fn nodes_have_their_affixes()
    ensures { NodesHaveTheirAffixes }
{}

/// In a style that is no published one names take what is said of names from those alone whose substitute they are themselves.
#[tactic(auto, using(crate::proofs::LeftOpenHolds::substitutes_take))]
pub fn substitutes_alone_take()
    ensures { SubstitutesAloneTake }
{}

/// In all forms but the one of authors alone a substitute is printed in the form of its names, and is an answer where it calls one.
#[tactic(auto, using(crate::proofs::LeftOpenHolds::form_stays))]
pub fn substitutes_keep_the_form()
    ensures { SubstitutesKeepTheForm }
{}
