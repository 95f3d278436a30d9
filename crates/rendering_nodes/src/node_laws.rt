//! What holds of all that nodes print.

ghost use Rattle.rendering_nodes.specs.Laws.{AlikeEntriesPrintAlike, ContentsAreNested, UnansweredGroupsAddNothing};

/// A group without words of its own, none of whose variables has an answer, adds nothing to any page.
#[tactic(auto, using(crate::proofs::Unanswered::unanswered_groups))]
pub fn unanswered_groups_add_nothing()
    ensures { UnansweredGroupsAddNothing }
{}

/// What is appended to a properly nested page leaves it so.
#[tactic(auto, using(crate::proofs::ContentsNested::contents_nested))]
pub fn contents_are_nested()
    ensures { ContentsAreNested }
{}

/// Entries that answer alike to all that nodes name, and to what every style names, print alike.
#[tactic(auto, using(crate::proofs::EntriesAlike::entries_alike))]
pub fn alike_entries_print_alike()
    ensures { AlikeEntriesPrintAlike }
{}
