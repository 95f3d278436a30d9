//! What opening macros means.

ghost use Rattle.rendering_style.specs.Opening.{OpeningDeeperChangesNothing};

/// Nodes that have so many levels are the same nodes, however much deeper their macros are opened.
#[tactic(auto, using(crate::proofs::OpeningDeeper::deeper))]
pub fn opening_deeper_changes_nothing()
    ensures { OpeningDeeperChangesNothing }
{}
