//! Trees without the white space at their ends.

ghost use Rattle.std.specs.Prelude.{◌≡◌, [], IfOk};
ghost use Rattle.laws.specs.Text.{characters};
ghost use Rattle.rendering_tree.specs.Tokens.{with_letters};
ghost use Rattle.rendering_tree.specs.Trees.{flat, flat_child};
ghost use Rattle.rendering_tree.specs.Views.{child_view, children_view, tree_view};
ghost use Rattle.rendering.specs.Ends.{has_end, trimmed, trimmed_tree};

use rendering_page::trim_made;
use rendering_tree::{Elem, ElemChild, ElemChildren, Formatted, simplify_children};
use std::alloc::AllocError;
use texts::has_text;

/// A tree in its normal form without the white space at its end, whatever it looks like and in whatever elements it stands. A link, a
/// formula and a locator of the caller's own stay as they are.
///
/// # Errors
/// Out of memory.
pub fn trim_end(mut tree: ElemChildren) -> Result<ElemChildren, AllocError>
    ensures { IfOk result (λ t. tree_view t ≡ trimmed_tree (tree_view tree)) }
{
    trim(&mut tree.0);
    simplify_children(tree)
}

/// Takes the white space off the end of what children print. Returns whether anything is left of that.
#[cycle(trimming)]
fn trim(parts: &mut Vec<ElemChild>) -> bool
    ensures left { result ≡ has_end (trimmed (flat (children_view parts.old.items))) }
    ensures cut { flat (children_view parts.new.items)
        ≡ trimmed (flat (children_view parts.old.items)) }
{
    for index in (0..parts.len()).rev() {
        if trim_child(&mut parts[index]) {
            return true;
        }
    }
    false
}

/// Takes the white space off the end of what a child prints. Returns whether anything is left of that.
#[cycle(trimming)]
fn trim_child(part: &mut ElemChild) -> bool
    ensures left { result ≡ has_end (trimmed (flat_child (child_view part.old))) }
    ensures cut { flat_child (child_view part.new)
        ≡ trimmed (flat_child (child_view part.old)) }
{
    match part {
        ElemChild::Text(text) => trim_text(text),
        ElemChild::Elem(elem) => trim_element(elem),
        ElemChild::Markup(_) | ElemChild::Link { .. } | ElemChild::Transparent { .. } => true,
    }
}

/// Takes the white space off the end of what an element prints. Returns whether anything is left of that.
#[cycle(trimming)]
fn trim_element(elem: &mut Elem) -> bool
    ensures left { result ≡ has_end (trimmed (flat (tree_view elem.old.children))) }
    ensures cut { flat (tree_view elem.new.children)
        ≡ trimmed (flat (tree_view elem.old.children)) }
    ensures same { (elem.new.display ≡ elem.old.display) × (elem.new.meta ≡ elem.old.meta) }
{
    trim(&mut elem.children.0)
}

/// Takes the white space off the end of a text. Returns whether anything is left of that.
fn trim_text(text: &mut Formatted) -> bool
    ensures left { result ≡ has_end (trimmed
        (with_letters text.old.formatting (characters text.old.text) [])) }
    ensures cut { with_letters text.new.formatting (characters text.new.text) []
        ≡ trimmed (with_letters text.old.formatting (characters text.old.text) []) }
{
    trim_made(&mut text.text);
    has_text(text.text.as_str())
}
