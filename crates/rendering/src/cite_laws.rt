//! When two cites, or two items of a bibliography, are the same, and what no published style asks for.

ghost use Rattle.rendering.specs.Alike.{AlikeCitesAreOne, AlikeItemsAreOne};
ghost use Rattle.rendering.specs.LeftOpen.{StylesEncloseAsWritten};

/// Cites of entries that answer alike to all that a style names are one tree with the same facts.
pub fn alike_cites_are_one()
    ensures { AlikeCitesAreOne }
{}

/// Items of a bibliography of entries that answer alike to all that its style names are one tree with the same facts.
#[tactic(auto, using(crate::proofs::CitesAlike::items_alike))]
pub fn alike_items_are_one()
    ensures { AlikeItemsAreOne }
{}

/// What published styles ask for changes nothing of the prose of others.
#[tactic(auto, using(crate::proofs::LeftOpenHolds::enclose_as_written))]
pub fn styles_enclose_as_written()
    ensures { StylesEncloseAsWritten }
{}
