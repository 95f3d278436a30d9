//! Takes elements out.

ghost use Rattle.std.specs.Prelude.{◌≡◌, false};
ghost use Rattle.std.specs.Option.{option_map};
ghost use Rattle.rendering_tree.specs.Parting.{element_of, has_meta, left, taken, with_children};
ghost use Rattle.rendering_tree.specs.Trees.{nothing, before, parted, parted_in};
ghost use Rattle.rendering_tree.specs.Views.{child_view, element_view, children_view, tree_view};

use crate::{Elem, ElemChild, ElemChildren};

impl ElemChildren {
    /// Takes out the first element that stands for something, with what it contains. The elements that contained it remain.
    pub fn remove_any_meta(&mut self) -> Option<Elem>
        ensures taken { option_map (λ e. element_view e) result
            ≡ taken (parted (tree_view self.old)) }
        ensures left { tree_view self.new
            ≡ left (parted (tree_view self.old)) (tree_view self.old) }
    {
        remove_first(&mut self.0)
    }
}

/// Takes out the first element of a list of children, and of what they contain, that stands for something.
#[cycle(removing)]
fn remove_first(parts: &mut Vec<ElemChild>) -> Option<Elem>
    ensures taken { option_map (λ e. element_view e) result
        ≡ taken (parted (children_view parts.old.items)) }
    ensures left { children_view parts.new.items
        ≡ left (parted (children_view parts.old.items)) (children_view parts.old.items) }
{
    for index in 0..parts.len() {
        if has_meta(&parts[index]) {
            return elem_of(parts.remove(index));
        }
        let elem = remove_within(&mut parts[index]);
        if elem.is_some() {
            return elem;
        }
    }
    None
}

/// Takes out the first element that stands for something of what a child contains that stands for nothing itself.
#[cycle(removing)]
fn remove_within(part: &mut ElemChild) -> Option<Elem>
    requires { has_meta (child_view part.old) ≡ false }
    ensures taken { option_map (λ e. element_view e) result
        ≡ taken (parted_in (child_view part.old)) }
    ensures left { before (child_view part.new) nothing
        ≡ left (parted_in (child_view part.old)) (before (child_view part.old) nothing) }
{
    match part {
        ElemChild::Elem(elem) => remove_in(elem),
        _ => None,
    }
}

/// Takes out the first element that stands for something of what an element contains.
#[cycle(removing)]
fn remove_in(elem: &mut Elem) -> Option<Elem>
    ensures taken { option_map (λ e. element_view e) result
        ≡ taken (parted (tree_view elem.old.children)) }
    ensures left { element_view elem.new
        ≡ with_children (left (parted (tree_view elem.old.children)) (tree_view elem.old.children))
        (element_view elem.old) }
{
    remove_first(&mut elem.children.0)
}

/// Whether a child is an element that stands for something.
fn has_meta(part: &ElemChild) -> bool
    ensures { result ≡ has_meta (child_view part.now) }
{
    match part {
        ElemChild::Elem(elem) => elem.meta.is_some(),
        _ => false,
    }
}

/// The element that a child is.
fn elem_of(part: ElemChild) -> Option<Elem>
    ensures { option_map (λ e. element_view e) result ≡ element_of (child_view part) }
{
    match part {
        ElemChild::Elem(elem) => Some(elem),
        _ => None,
    }
}
