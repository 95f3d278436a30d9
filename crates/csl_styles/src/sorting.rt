//! Sort keys.

ghost use Rattle.std.specs.Prelude.{◌≡◌, map, codes, IfOk};
ghost use Rattle.xml_tree.specs.Views.{element_view};
ghost use Rattle.rendering_style.specs.Views.{sort_target_view, sort_key_view};
ghost use Rattle.csl_locales.specs.Called.{called};
ghost use Rattle.csl_styles.specs.Layouts.{key_variable, sort_target, sort_key, sort_keys};

use csl_locales::{all_called, value_of};
use csl_nodes::variable_of;
use csl_words::{SORT_DIRECTIONS, attribute, is_set, number, part_called, value_by};
use rendering_style::{SortKey, SortTarget};
use rendering_taxonomy::{SortDirection, Variable};
use std::alloc::{AllocError, Global};
use texts::owned;
use xml_tree::Element;

/// The variable that a key names.
#[tactic(auto, using(laws::proofs::Text::text_of_chars))]
fn key_variable(element: &Element<'_>) -> Option<Variable>
    ensures { result ≡ key_variable (element_view element.now) }
{
    match attribute("variable", element) {
        Some(word) => variable_of(word),
        None => None,
    }
}

/// What a key is: the answer to a variable, or else what a macro prints.
fn sort_target(alloc: Global, element: &Element<'_>) -> Result<SortTarget, AllocError>
    ensures { IfOk result (λ t. sort_target_view t ≡ sort_target (element_view element.now)) }
{
    match key_variable(element) {
        Some(variable) => Ok(SortTarget::Variable(variable)),
        None => Ok(SortTarget::Macro(owned(alloc, value_of("macro", element))?)),
    }
}

/// A key.
fn sort_key(alloc: Global, element: &Element<'_>) -> Result<SortKey, AllocError>
    ensures { IfOk result (λ k. sort_key_view k ≡ sort_key (element_view element.now)) }
{
    let target = sort_target(alloc, element)?;
    Ok(SortKey {
        target,
        direction: value_by(SORT_DIRECTIONS, "sort", element).unwrap_or(SortDirection::Ascending),
        names_min: number("names-min", element),
        names_use_first: number("names-use-first", element),
        names_use_last: is_set("names-use-last", element),
    })
}

/// The keys in an element.
fn keys_of(alloc: Global, element: &Element<'_>) -> Result<Vec<SortKey>, AllocError>
    ensures { IfOk result (λ v. map sort_key_view v.items
        ≡ map sort_key (called (codes "key") (element_view element.now))) }
{
    let mut keys = Vec::new(alloc);
    for key in all_called(alloc, "key", element)? {
        keys.push(sort_key(alloc, key)?)?;
    }
    Ok(keys)
}

/// The keys of a citation or of a bibliography.
pub(crate) fn sort_keys(alloc: Global, element: &Element<'_>) -> Result<Vec<SortKey>, AllocError>
    ensures { IfOk result (λ v. map sort_key_view v.items
        ≡ sort_keys (element_view element.now)) }
{
    match part_called("sort", element) {
        Some(sort) => keys_of(alloc, sort),
        None => Ok(Vec::new(alloc)),
    }
}
