//! Looks for elements, depth first, an element before its children.

ghost use Rattle.std.specs.Prelude.{◌≡◌, Bool, false};
ghost use Rattle.std.specs.List.{find};
ghost use Rattle.std.specs.Option.{option_map, option_map_or};
ghost use Rattle.rendering_tree.specs.Metas.{is_meta, is_names};
ghost use Rattle.rendering_tree.specs.Trees.{Element, element_by, element_with, elements_in, names_element};
ghost use Rattle.rendering_tree.specs.Views.{child_view, element_view, meta_view, tree_view};

use crate::{Elem, ElemChild, ElemChildren, ElemMeta};

impl ElemChildren {
    /// The first element for which the closure is true.
    #[cycle(find)]
    pub fn find_elem_by<F: Fn(&Elem) -> bool>(&self, f: &F) -> Option<&Elem>
        requires { F.IsAlwaysCallable f.now }
        // This holds for each test that the closure makes of the view of an element.
        ensures { (test : Element → Bool)
            → ((e : _) (b : Bool) → F.post f.now e b → b ≡ test (element_view e.now))
            → option_map (λ e. element_view e.now) result ≡ element_by test (tree_view self.now) }
    {
        for part in &self.0 {
            if let Some(found) = part.find_elem_by(f) {
                return Some(found);
            }
        }
        None
    }

    /// The first element that stands for that.
    pub fn find_meta(&self, meta: &ElemMeta) -> Option<&Elem>
        ensures { option_map (λ e. element_view e.now) result
            ≡ element_with (meta_view meta.now) (tree_view self.now) }
    {
        self.find_elem_by(&|elem: &Elem| stands_for(elem, meta))
    }

    /// The first element that stands for a names node.
    pub fn find_names(&self) -> Option<&Elem>
        ensures { option_map (λ e. element_view e.now) result ≡ names_element (tree_view self.now) }
    {
        self.find_elem_by(&|elem: &Elem| is_names(elem))
    }

    /// The first element that stands for a names node, to be changed.
    #[cycle(find_mut)]
    pub fn find_names_mut(&mut self) -> Option<&mut Elem>
        ensures { option_map (λ e. element_view e.now) result ≡ names_element (tree_view self.old) }
    {
        for part in self.0.iter_mut() {
            if let Some(found) = part.find_names_mut() {
                return Some(found);
            }
        }
        None
    }
}

impl ElemChild {
    /// The first element for which the closure is true, among the child and what it contains.
    #[cycle(find)]
    fn find_elem_by<F: Fn(&Elem) -> bool>(&self, f: &F) -> Option<&Elem>
        requires { F.IsAlwaysCallable f.now }
        ensures { (test : Element → Bool)
            → ((e : _) (b : Bool) → F.post f.now e b → b ≡ test (element_view e.now))
            → option_map (λ e. element_view e.now) result
            ≡ find test (elements_in (child_view self.now)) }
    {
        match self {
            ElemChild::Elem(elem) => {
                if f(elem) {
                    Some(elem)
                } else {
                    elem.children.find_elem_by(f)
                }
            }
            _ => None,
        }
    }

    /// The first element that stands for a names node, in the child and what it contains.
    #[cycle(find_mut)]
    fn find_names_mut(&mut self) -> Option<&mut Elem>
        ensures { option_map (λ e. element_view e.now) result
            ≡ find (λ e. option_map_or is_names e.meta false) (elements_in (child_view self.old)) }
    {
        match self {
            ElemChild::Elem(elem) => {
                if is_names(elem) {
                    Some(elem)
                } else {
                    elem.children.find_names_mut()
                }
            }
            _ => None,
        }
    }
}

/// Whether an element stands for that.
fn stands_for(elem: &Elem, meta: &ElemMeta) -> bool
    ensures { result
        ≡ option_map_or (is_meta (meta_view meta.now)) (element_view elem.now).meta false }
{
    match &elem.meta {
        Some(own) => *meta == *own,
        None => false,
    }
}

/// Whether an element stands for a names node.
fn is_names(elem: &Elem) -> bool
    ensures { result ≡ option_map_or is_names (element_view elem.now).meta false }
{
    matches!(elem.meta, Some(ElemMeta::Names(_)))
}
