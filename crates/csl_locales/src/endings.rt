//! Endings of ordinal numbers.

ghost use Rattle.std.specs.Prelude.{◌≡◌, ◌==◌, ◌++◌, [], length, map, filter_map, IfOk, OnOk};
ghost use Rattle.std.specs.Option.{option_map, option_map_or, option_to_list};
ghost use Rattle.std.specs.Str.{chars};
ghost use Rattle.laws.specs.Text.{characters, text as text_of};
ghost use Rattle.std.specs.List.{find, list_any};
ghost use Rattle.xml_tree.specs.Views.{element_view};
ghost use Rattle.rendering_locale.specs.Views.{ending_view, ordinals_view};
ghost use Rattle.csl_locales.specs.Terms.{terms_of};
ghost use Rattle.csl_locales.specs.Endings.{is_default, number_of, ordinal_number, is_ordinal, ending_text, ending, ordinals_of};

use crate::ordinals::ORDINALS;
use crate::terms::{term_text, terms_of};
use csl_words::{GENDERS, ORDINAL_MATCHES, attribute, in_table, says, value_by};
use rendering_locale::{OrdinalEnding, Ordinals};
use std::alloc::{AllocError, Global};
use texts::empty_text;
use xml_tree::Element;

/// Whether a term is the ending of all numbers that have no other.
fn is_default(element: &Element<'_>) -> bool
    ensures { result ≡ is_default (element_view element.now) }
{
    says("name", "ordinal", element)
}

/// Whether a word is as long as all of those of numbers.
fn is_as_long(word: &str) -> bool
    ensures { result ≡ (length word.now == 10) }
{
    word.len() == 10
}

/// The number of a word.
fn number_of(word: &str) -> Option<u8>
    ensures { result ≡ number_of word.now }
{
    if is_as_long(word) {
        return in_table(ORDINALS, word);
    }
    None
}

/// The same of a text of a tree.
#[tactic(auto, using(laws::proofs::Text::text_of_chars))]
fn number_named(name: &str) -> Option<u8>
    ensures { result ≡ number_of (text_of (chars name.now)) }
{
    number_of(name)
}

/// The number whose ending a term is.
fn ordinal_number(element: &Element<'_>) -> Option<u8>
    ensures { result ≡ ordinal_number (element_view element.now) }
{
    match attribute("name", element) {
        Some(name) => number_named(name),
        None => None,
    }
}

/// Whether a term is an ending.
fn is_ordinal(element: &Element<'_>) -> bool
    ensures { result ≡ is_ordinal (element_view element.now) }
{
    is_default(element) || ordinal_number(element).is_some()
}

/// The text of an ending.
fn ending_text(alloc: Global, element: &Element<'_>) -> Result<String, AllocError>
    ensures { IfOk result (λ s. characters s ≡ ending_text (element_view element.now)) }
{
    match term_text(alloc, "single", element)? {
        Some(text) => Ok(text),
        None => Ok(empty_text(alloc)),
    }
}

/// The ending that a term is of a number, if it is one.
fn ending(alloc: Global, element: &Element<'_>) -> Result<Option<OrdinalEnding>, AllocError>
    ensures { IfOk result (λ e. option_map ending_view e ≡ ending (element_view element.now)) }
{
    match ordinal_number(element) {
        Some(number) => {
            let ending = ending_text(alloc, element)?;
            Ok(Some(OrdinalEnding {
                number,
                ending,
                gender: value_by(GENDERS, "gender-form", element),
                only: value_by(ORDINAL_MATCHES, "match", element),
            }))
        }
        None => Ok(None),
    }
}

/// Appends the ending that a term is of a number, if it is one.
fn push_ending(
    alloc: Global,
    endings: &mut Vec<OrdinalEnding>,
    element: &Element<'_>,
) -> Result<(), AllocError>
    ensures { OnOk result (map ending_view endings.new.items ≡ map ending_view endings.old.items
        ++ option_to_list (ending (element_view element.now))) }
{
    if let Some(ending) = ending(alloc, element)? {
        endings.push(ending)?;
    }
    Ok(())
}

/// Whether some term of a locale is an ending.
fn has_ordinals(alloc: Global, element: &Element<'_>) -> Result<bool, AllocError>
    ensures { IfOk result (λ b. b ≡ list_any is_ordinal (terms_of (element_view element.now))) }
{
    for term in terms_of(alloc, element)? {
        if is_ordinal(term) {
            return Ok(true);
        }
    }
    Ok(false)
}

/// The endings of numbers among the terms of a locale.
fn endings_in(alloc: Global, element: &Element<'_>) -> Result<Vec<OrdinalEnding>, AllocError>
    ensures { IfOk result (λ v. map ending_view v.items
        ≡ filter_map ending (terms_of (element_view element.now))) }
{
    let mut endings = Vec::new(alloc);
    for term in terms_of(alloc, element)? {
        push_ending(alloc, &mut endings, term)?;
    }
    Ok(endings)
}

/// The ending of all numbers that have no other, among the terms of a locale; empty where no term is it.
fn default_in(alloc: Global, element: &Element<'_>) -> Result<String, AllocError>
    ensures { IfOk result (λ s. characters s ≡ option_map_or ending_text
        (find is_default (terms_of (element_view element.now))) []) }
{
    for term in terms_of(alloc, element)? {
        if is_default(term) {
            return ending_text(alloc, term);
        }
    }
    Ok(empty_text(alloc))
}

/// The endings among the terms of a locale, if some term is one.
pub(crate) fn ordinals_of(
    alloc: Global,
    element: &Element<'_>,
) -> Result<Option<Ordinals>, AllocError>
    ensures { IfOk result (λ o. option_map ordinals_view o
        ≡ ordinals_of (terms_of (element_view element.now))) }
{
    if !has_ordinals(alloc, element)? {
        return Ok(None);
    }
    let endings = endings_in(alloc, element)?;
    let default = default_in(alloc, element)?;
    Ok(Some(Ordinals { endings, default }))
}
