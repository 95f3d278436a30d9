//! Laws of trees. The functions do nothing.

ghost use Rattle.rendering_tree.specs.Same.{SameTreesAreOne, SameElementsAreOne};
ghost use Rattle.rendering_tree.specs.Writing.{TagsAreNested};
ghost use Rattle.rendering_tree.specs.Laws.{SimplifyingKeepsTokens, SimplifiedIsNormal, TreeOfNestedIsNormal, NormalTreesAreOne};

/// Simplifying keeps what is printed.
#[tactic(auto, using(crate::proofs::TreesReading::keeps_tokens))]
pub fn simplifying_keeps_tokens()
    ensures { SimplifyingKeepsTokens }
{}

/// A simplified tree is in its normal form.
#[tactic(auto, using(crate::proofs::LawsNormal::simplified_normal))]
pub fn simplified_is_normal()
    ensures { SimplifiedIsNormal }
{}

/// The tree of what is properly nested is in its normal form.
#[tactic(auto, using(crate::proofs::LawsNormal::handed_out))]
pub fn tree_of_nested_is_normal()
    ensures { TreeOfNestedIsNormal }
{}

/// Two trees in their normal form that print the same are equal.
#[tactic(auto, using(crate::proofs::LawsNormal::one_tree))]
pub fn normal_trees_are_one()
    ensures { NormalTreesAreOne }
{}

/// Trees are the same by all that they contain exactly where they are equal.
#[tactic(auto, using(crate::proofs::SameDecided::trees_are_one))]
pub fn same_trees_are_one()
    ensures { SameTreesAreOne }
{}

/// Elements are the same by all that they contain exactly where they are equal.
#[tactic(auto, using(crate::proofs::SameDecided::elements_are_one))]
pub fn same_elements_are_one()
    ensures { SameElementsAreOne }
{}

/// The tags that a tree is written with are properly nested.
#[tactic(auto, using(crate::proofs::WritingNested::tags_nested))]
pub fn tags_are_nested()
    ensures { TagsAreNested }
{}
