//! What names print and whom they name, under which blocks are looked up.

ghost use Rattle.std.specs.Prelude.{◌≡◌, ◌++◌, IfOk, OnOk, false, string_bytes};
ghost use Rattle.std.specs.Str.{chars};
ghost use Rattle.laws.specs.Text.{characters};
ghost use Rattle.rendering_tree.specs.Trees.{Markup};
ghost use Rattle.rendering_tree.specs.Views.{child_view, element_view, tree_view};
ghost use Rattle.driver_blocks.specs.Key.{child_key, children_key, element_key, names_key};

use crate::people::push_people_of;
use crate::shown::names_text;
use rendering_tree::{Elem, ElemChild, ElemChildren};
use std::alloc::{AllocError, Global};
use texts::{empty_text, push_character, push_text};

/// What a names element prints of whom, where cites are gathered by the text, and else that and whom it names.
pub(crate) fn names_key(alloc: Global, by_text: bool, names: &Elem) -> Result<String, AllocError>
    ensures { IfOk result (λ s. string_bytes s ≡ names_key by_text (element_view names.now)) }
{
    if by_text {
        names_text(alloc, names)
    } else {
        whole_key(alloc, names)
    }
}

/// All texts of a names element, with the names of the people before each element that stands for some.
fn whole_key(alloc: Global, names: &Elem) -> Result<String, AllocError>
    ensures { IfOk result (λ s. string_bytes s ≡ names_key false (element_view names.now)) }
{
    let mut key = empty_text(alloc);
    push_element(&mut key, names)?;
    Ok(key)
}

/// Appends the people that an element stands for and the texts in it.
#[cycle(key)]
fn push_element(key: &mut String, elem: &Elem) -> Result<(), AllocError>
    ensures { OnOk result (characters key.new
        ≡ characters key.old ++ element_key (element_view elem.now)) }
{
    push_people_of(key, &elem.meta)?;
    push_children(key, &elem.children)
}

/// Appends the texts of children and the people that they name.
#[cycle(key)]
fn push_children(key: &mut String, parts: &ElemChildren) -> Result<(), AllocError>
    ensures { OnOk result (characters key.new
        ≡ characters key.old ++ children_key (tree_view parts.now)) }
{
    for part in &parts.0 {
        push_child(key, part)?;
    }
    Ok(())
}

/// Appends the texts of a child and the people that it names.
#[cycle(key)]
fn push_child(key: &mut String, part: &ElemChild) -> Result<(), AllocError>
    ensures { OnOk result (characters key.new
        ≡ characters key.old ++ child_key (child_view part.now)) }
{
    match part {
        ElemChild::Text(text) => push_text(key, text.text.as_str()),
        ElemChild::Elem(elem) => push_element(key, elem),
        ElemChild::Markup(formula) => push_formula(key, formula.as_str()),
        ElemChild::Link { text, url } => push_link(key, text.text.as_str(), url.as_str()),
        ElemChild::Transparent { .. } => Ok(()),
    }
}

/// Appends a formula between two dollar signs, by which it is not a text.
fn push_formula(key: &mut String, formula: &str) -> Result<(), AllocError>
    ensures { OnOk result (characters key.new
        ≡ characters key.old ++ child_key (Markup (chars formula.now))) }
{
    push_character(key, '$')?;
    push_text(key, formula)?;
    push_character(key, '$')
}

/// Appends a text and the address to which it leads.
fn push_link(key: &mut String, text: &str, url: &str) -> Result<(), AllocError>
    ensures { OnOk result (characters key.new
        ≡ characters key.old ++ chars text.now ++ chars url.now) }
{
    push_text(key, text)?;
    push_text(key, url)
}
