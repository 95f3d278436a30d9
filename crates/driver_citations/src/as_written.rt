//! Citations of styles whose texts stand as they are written.

ghost use Rattle.driver_citations.specs.AsWritten.{AllCitesArePrinted, CitesAreAsWritten, SuffixesAreNotRepeated, TreesAreAsWritten};

/// Where no texts are joined, cites and their delimiters stand as they are.
#[tactic(auto, using(crate::proofs::AsWrittenHolds::cites_as_written))]
pub fn cites_are_as_written()
    ensures { CitesAreAsWritten }
{}

/// All cites that are shown are printed then.
#[tactic(auto, using(crate::proofs::AsWrittenHolds::all_printed))]
pub fn all_cites_are_printed()
    ensures { AllCitesArePrinted }
{}

/// So do the trees of a citation outside of any document, with the delimiter of the layout between them.
#[tactic(auto, using(crate::proofs::AsWrittenHolds::trees_as_written))]
pub fn trees_are_as_written()
    ensures { TreesAreAsWritten }
{}

/// A suffix then stands after what does not end in it.
#[tactic(auto, using(crate::proofs::AsWrittenHolds::suffix_not_repeated))]
pub fn suffixes_are_not_repeated()
    ensures { SuffixesAreNotRepeated }
{}
