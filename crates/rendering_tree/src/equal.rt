//! When trees are equal: `==` is true exactly where their views are the same by all that they contain, and so exactly where their views
//! are equal.

ghost use Rattle.std.specs.Prelude.{◌≡◌, ◌↔◌, IsTrue};
ghost use Rattle.rendering_tree.specs.Same.{are_children, is_element};
ghost use Rattle.rendering_tree.specs.Views.{element_view, tree_view};

use crate::{Elem, ElemChildren};

/// Whether two lists are equal.
pub fn are_equal_trees(a: &ElemChildren, b: &ElemChildren) -> bool
    ensures same { result ≡ are_children (tree_view a.now) (tree_view b.now) }
    ensures equal { IsTrue result ↔ (tree_view a.now ≡ tree_view b.now) }
{
    *a == *b
}

/// Whether two elements are equal.
pub fn are_equal_elements(a: &Elem, b: &Elem) -> bool
    ensures same { result ≡ is_element (element_view a.now) (element_view b.now) }
    ensures equal { IsTrue result ↔ (element_view a.now ≡ element_view b.now) }
{
    *a == *b
}
