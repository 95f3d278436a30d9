//! Whether trees are more than white space.

ghost use Rattle.std.specs.Prelude.{◌≡◌};
ghost use Rattle.laws.specs.Text.{characters};
ghost use Rattle.rendering_tree.specs.Views.{child_view, tree_view};
ghost use Rattle.driver_citations.specs.Contents.{child_has_content, children_have_content, is_visible};
ghost use Rattle.driver_citations.specs.Standalone as standalone;

use rendering_tree::{ElemChild, ElemChildren};

/// Whether a tree is more than white space.
pub(crate) fn has_content(parts: &ElemChildren) -> bool
    ensures { result ≡ standalone.has_content (tree_view parts.now) }
{
    children_have_content(parts)
}

/// Whether one of the children is more than white space.
#[cycle(content)]
fn children_have_content(parts: &ElemChildren) -> bool
    ensures { result ≡ children_have_content (tree_view parts.now) }
{
    for part in &parts.0 {
        if child_has_content(part) {
            return true;
        }
    }
    false
}

/// Whether a child is more than white space.
#[cycle(content)]
fn child_has_content(part: &ElemChild) -> bool
    ensures { result ≡ child_has_content (child_view part.now) }
{
    match part {
        ElemChild::Text(text) => is_visible(&text.text),
        ElemChild::Elem(elem) => children_have_content(&elem.children),
        _ => true,
    }
}

/// Whether a text is more than white space.
fn is_visible(text: &String) -> bool
    ensures { result ≡ is_visible (characters text.now) }
{
    text.as_str().chars().any(|c| !c.is_whitespace())
}
