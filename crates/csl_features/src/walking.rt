//! The elements of a style that may ask for something.

ghost use Rattle.std.specs.Prelude.{◌≡◌, ◌++◌, ◌∷◌, [], ℕ, List, IfOk, OnOk};
ghost use Rattle.xml_tree.specs.Trees.{content_of};
ghost use Rattle.xml_tree.specs.Views as views;
ghost use Rattle.xml_tree.specs.Views.{element_view};
ghost use Rattle.csl_locales.specs.Called.{elements_of};
ghost use Rattle.csl_features.specs.Features as specs;
ghost use Rattle.csl_features.specs.Features.{elements_in};

use csl_locales::is_passed;
use csl_words::children_of;
use std::alloc::{AllocError, Global};
use xml_tree::Element;

/// Appends an element.
fn push_element<'e, 's>(
    found: &mut Vec<&'e Element<'s>>,
    element: &'e Element<'s>,
) -> Result<(), AllocError>
    ensures { OnOk result (elements_of found.new.items
        ≡ elements_of found.old.items ++ element_view element.entry.now ∷ []) }
{
    found.push(element)?;
    Ok(())
}

/// Appends an element and those in it.
#[cycle(walk)]
fn push_elements<'e, 's>(
    found: &mut Vec<&'e Element<'s>>,
    element: &'e Element<'s>,
) -> Result<(), AllocError>
    ensures { OnOk result (elements_of found.new.items
        ≡ elements_of found.old.items ++ specs.elements (element_view element.entry.now)) }
{
    if is_passed(element) {
        return Ok(());
    }
    push_element(found, element)?;
    push_elements_in(found, children_of(element))
}

/// Appends those of elements.
#[cycle(walk)]
fn push_elements_in<'e, 's>(
    found: &mut Vec<&'e Element<'s>>,
    children: &'e [(String, Element<'s>)],
) -> Result<(), AllocError>
    ensures { OnOk result ((t : List ℕ) → elements_of found.new.items
        ≡ elements_of found.old.items
        ++ elements_in (content_of (views.children_of children.entry.now) t)) }
{
    for child in children {
        push_elements(found, &child.1)?;
    }
    Ok(())
}

/// An element and those in it, in the order of the text, but for `info` and elements of other namespaces with all that is in these. It
/// recurses as deep as elements are nested.
///
/// # Errors
/// Where a request for memory was refused.
pub(crate) fn elements<'e, 's>(
    alloc: Global,
    root: &'e Element<'s>,
) -> Result<Vec<&'e Element<'s>>, AllocError>
    ensures { IfOk result (λ v. elements_of v.items ≡ specs.elements (element_view root.now)) }
{
    let mut found = Vec::new(alloc);
    push_elements(&mut found, root)?;
    Ok(found)
}
