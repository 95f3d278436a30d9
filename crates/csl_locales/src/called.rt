//! The elements of a name that stand in an element.

ghost use Rattle.std.specs.Prelude.{◌≡◌, ◌∷◌, ◌++◌, [], ℕ, List, if◌then◌else◌, IfOk, OnOk};
ghost use Rattle.xml_tree.specs.Trees.{content_of};
ghost use Rattle.xml_tree.specs.Views as views;
ghost use Rattle.xml_tree.specs.Views.{element_view};
ghost use Rattle.xml_schema.specs.Faults.{name_of};
ghost use Rattle.csl_words.specs.Elements as words;
ghost use Rattle.csl_locales.specs.Called as specs;
ghost use Rattle.csl_locales.specs.Called.{elements_of};

use csl_words::{children_of, is_called};
use std::alloc::{AllocError, Global};
use xml_tree::Element;

/// Appends an element, if it is one of CSL and has that name.
fn push_called<'e, 's>(
    found: &mut Vec<&'e Element<'s>>,
    name: &str,
    element: &'e Element<'s>,
) -> Result<(), AllocError>
    ensures { OnOk result (elements_of found.new.items ≡ elements_of found.old.items
        ++ (if words.is_called name.now (name_of (element_view element.entry.now))
        then element_view element.entry.now ∷ [] else [])) }
{
    if is_called(name, element) {
        found.push(element)?;
    }
    Ok(())
}

/// Those of these elements that are of CSL and have that name.
fn called_among<'e, 's>(
    alloc: Global,
    name: &str,
    children: &'e [(String, Element<'s>)],
) -> Result<Vec<&'e Element<'s>>, AllocError>
    ensures { (t : List ℕ) → IfOk result (λ v. elements_of v.items
        ≡ specs.all_called name.now (content_of (views.children_of children.now) t)) }
{
    let mut found = Vec::new(alloc);
    for child in children {
        push_called(&mut found, name, &child.1)?;
    }
    Ok(found)
}

/// The elements in an element that are of CSL and have that name.
///
/// # Errors
/// Where a request for memory was refused.
pub fn all_called<'e, 's>(
    alloc: Global,
    name: &str,
    element: &'e Element<'s>,
) -> Result<Vec<&'e Element<'s>>, AllocError>
    ensures { IfOk result (λ v. elements_of v.items
        ≡ specs.called name.now (element_view element.now)) }
{
    called_among(alloc, name, children_of(element))
}
