//! What counts of the `info` of a style.

ghost use Rattle.std.specs.Prelude.{◌≡◌, ◌∷◌, ◌++◌, ◌<◌, ◌==◌, [], ℕ, List, length, IfOk, OnOk, MatchOption, ⊤};
ghost use Rattle.std.specs.List.{slice_split};
ghost use Rattle.std.specs.Option.{option_map, option_to_list};
ghost use Rattle.std.specs.Str.{chars};
ghost use Rattle.laws.specs.Characters.{slash};
ghost use Rattle.laws.specs.Text.{spelled};
ghost use Rattle.xml_tree.specs.Trees.{content_of};
ghost use Rattle.xml_tree.specs.Views as views;
ghost use Rattle.xml_tree.specs.Views.{element_view};
ghost use Rattle.csl_styles.specs.Information.{category_of, categories_in, categories_of, is_parent_link, parent_address, address_in, address_of, last_or, last_segment, parent_of};

use csl_words::{CATEGORIES, attribute, children_of, is_called, part_called, says, value_by};
use rendering_taxonomy::StyleCategory;
use std::alloc::{AllocError, Global};
use xml_tree::Element;

/// The category that an element says, if it is there for one.
fn category_of(element: &Element<'_>) -> Option<StyleCategory>
    ensures { result ≡ category_of (element_view element.now) }
{
    if is_called("category", element) {
        value_by(CATEGORIES, "citation-format", element)
    } else {
        None
    }
}

/// Appends the category that an element says, if it says one.
fn push_category(
    categories: &mut Vec<StyleCategory>,
    element: &Element<'_>,
) -> Result<(), AllocError>
    ensures { OnOk result (categories.new.items ≡ categories.old.items
        ++ option_to_list (category_of (element_view element.now))) }
{
    if let Some(category) = category_of(element) {
        categories.push(category)?;
    }
    Ok(())
}

/// The categories that these elements say.
fn categories_among(
    alloc: Global,
    children: &[(String, Element<'_>)],
) -> Result<Vec<StyleCategory>, AllocError>
    ensures { (t : List ℕ) → IfOk result (λ v. v.items
        ≡ categories_in (content_of (views.children_of children.now) t)) }
{
    let mut categories = Vec::new(alloc);
    for child in children {
        push_category(&mut categories, &child.1)?;
    }
    Ok(categories)
}

/// The categories that a style says it is of.
pub(crate) fn categories_of(
    alloc: Global,
    element: &Element<'_>,
) -> Result<Vec<StyleCategory>, AllocError>
    ensures { IfOk result (λ v. v.items ≡ categories_of (element_view element.now)) }
{
    match part_called("info", element) {
        Some(info) => categories_among(alloc, children_of(info)),
        None => Ok(Vec::new(alloc)),
    }
}

/// Whether an element is the link to the parent of a dependent style.
fn is_parent_link(element: &Element<'_>) -> bool
    ensures { result ≡ is_parent_link (element_view element.now) }
{
    is_called("link", element) && says("rel", "independent-parent", element)
}

/// The address of the parent that an element has, if it is the link to it.
fn parent_address<'e>(element: &'e Element<'_>) -> Option<&'e str>
    ensures { option_map spelled result ≡ parent_address (element_view element.now) }
{
    if is_parent_link(element) {
        attribute("href", element)
    } else {
        None
    }
}

/// The first address of a parent among these elements.
fn address_among<'e>(children: &'e [(String, Element<'_>)]) -> Option<&'e str>
    ensures { (t : List ℕ) → option_map spelled result
        ≡ address_in (content_of (views.children_of children.now) t) }
{
    for child in children {
        match parent_address(&child.1) {
            Some(address) => return Some(address),
            None => {}
        }
    }
    None
}

/// The address of the parent of a style, if it has one.
fn address_of<'e>(element: &'e Element<'_>) -> Option<&'e str>
    ensures { option_map spelled result ≡ address_of (element_view element.now) }
{
    match part_called("info", element) {
        Some(info) => address_among(children_of(info)),
        None => None,
    }
}

/// The text before the first slash, and what follows it.
fn split_slash(text: &str) -> Option<(&str, &str)>
    ensures parts { MatchOption result
        (slice_split (λ b. b == slash) text.now ≡ text.now ∷ [])
        (λ x. slice_split (λ b. b == slash) text.now
        ≡ x.0.now ∷ slice_split (λ b. b == slash) x.1.now) }
    ensures shorter { MatchOption result ⊤ (λ x. length x.1.now < length text.now) }
{
    text.split_once('/')
}

/// What follows the last slash of a text.
#[tactic(auto, using(crate::proofs::Segments::last_on, crate::proofs::Segments::last_alone))]
fn last_part(text: &str) -> &str
    ensures { result.now ≡ last_or [] (slice_split (λ b. b == slash) text.now) }
{
    let mut rest = text;
    while let Some((_, more)) = split_slash(rest) {
        rest = more;
    }
    rest
}

/// What follows the last slash of an address.
#[tactic(auto, using(laws::proofs::Text::text_of_chars))]
fn last_segment(address: &str) -> &str
    ensures { result.now ≡ last_segment (chars address.now) }
{
    last_part(address)
}

/// The name of the parent of a style, if it has one: the last segment of its address.
pub(crate) fn parent_of<'e>(element: &'e Element<'_>) -> Option<&'e str>
    ensures { option_map (λ s. s.now) result ≡ parent_of (element_view element.now) }
{
    match address_of(element) {
        Some(address) => Some(last_segment(address)),
        None => None,
    }
}
