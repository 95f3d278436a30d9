//! Elements of CSL, by their names, and those that stand in others.

ghost use Rattle.std.specs.Prelude.{◌≡◌, ℕ, List};
ghost use Rattle.std.specs.Option.{option_map};
ghost use Rattle.xml_tree.specs.Trees.{content_of};
ghost use Rattle.xml_tree.specs.Views.{space_view, full_name_view, element_view, children_of};
ghost use Rattle.xml_schema.specs.Faults.{name_of};
ghost use Rattle.csl_words.specs.Looking.{table_view};
ghost use Rattle.csl_words.specs.Elements.{is_csl, is_called, named_by, content_in, first_called, part_called};

use crate::looking::{in_table_of, is_spelled};
use std::rc::RcStr;
use xml_tree::{Element, FullName};

/// Whether a namespace is that of CSL. None counts as it.
fn is_csl(space: &Option<RcStr>) -> bool
    ensures { result ≡ is_csl (space_view space.now) }
{
    match space {
        Some(space) => is_spelled(space.as_str(), "http://purl.org/net/xbiblio/csl"),
        None => true,
    }
}

/// The name of an element.
fn name_of<'e, 's>(element: &'e Element<'s>) -> &'e FullName<'s>
    ensures { full_name_view result.now ≡ name_of (element_view element.now) }
{
    &element.name
}

/// Whether a name is this one of CSL.
fn is_named(name: &str, called: &FullName<'_>) -> bool
    ensures { result ≡ is_called name.now (full_name_view called.now) }
{
    is_csl(&called.space) && is_spelled(called.local, name)
}

/// Whether an element is one of CSL and has that name.
pub fn is_called(name: &str, element: &Element<'_>) -> bool
    ensures { result ≡ is_called name.now (name_of (element_view element.now)) }
{
    is_named(name, name_of(element))
}

/// What a table has for a name, if it is one of CSL.
fn value_of_name<X: Copy>(rows: &[(&str, X)], called: &FullName<'_>) -> Option<X>
    ensures { result ≡ named_by (table_view rows.now) (full_name_view called.now) }
{
    if is_csl(&called.space) {
        in_table_of(rows, called.local)
    } else {
        None
    }
}

/// What a table has for the name of an element of CSL.
pub fn named_by<X: Copy>(rows: &[(&str, X)], element: &Element<'_>) -> Option<X>
    ensures { result ≡ named_by (table_view rows.now) (name_of (element_view element.now)) }
{
    value_of_name(rows, name_of(element))
}

/// The elements in an element, each with the text before it.
pub fn children_of<'e, 's>(element: &'e Element<'s>) -> &'e [(String, Element<'s>)]
    ensures { (t : List ℕ)
        × (content_in (element_view element.now) ≡ content_of (children_of result.now) t) }
{
    element.children.as_slice()
}

/// The first of these elements that is one of CSL and has that name.
fn first_called<'e, 's>(
    name: &str,
    children: &'e [(String, Element<'s>)],
) -> Option<&'e Element<'s>>
    ensures { (t : List ℕ) → option_map (λ e. element_view e.now) result
        ≡ first_called name.now (content_of (children_of children.now) t) }
{
    for child in children {
        if is_called(name, &child.1) {
            return Some(&child.1);
        }
    }
    None
}

/// The first element in an element that is one of CSL and has that name.
pub fn part_called<'e, 's>(name: &str, element: &'e Element<'s>) -> Option<&'e Element<'s>>
    ensures { option_map (λ e. element_view e.now) result
        ≡ part_called name.now (element_view element.now) }
{
    first_called(name, children_of(element))
}
