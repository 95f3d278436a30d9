//! Which features the elements of a style ask for.

ghost use Rattle.std.specs.Prelude.{◌≡◌, ◌++◌, ◌∷◌, [], map, IfOk, OnOk};
ghost use Rattle.std.specs.List.{list_any};
ghost use Rattle.std.specs.Str.{bytes_eq};
ghost use Rattle.laws.specs.Borrowed.{borrowed};
ghost use Rattle.xml_tree.specs.Views.{element_view};
ghost use Rattle.csl_features.specs.Features as specs;
ghost use Rattle.csl_features.specs.Features.{asks, features_by, own_features};
ghost use Rattle.csl_features.specs.Views.{feature_view, wanted_view, row_view};

use crate::feature::Feature;
use crate::rows::{FEATURES, Row, Wanted};
use crate::walking::elements;
use csl_words::{attribute, is_called, part_called, words_in};
use std::alloc::{AllocError, Global};
use xml_tree::Element;

/// Whether an element has that name, where one is wanted.
fn has_name(name: &str, element: &Element<'_>) -> bool
    ensures { result ≡ specs.has_name name.now (element_view element.now) }
{
    name.is_empty() || is_called(name, element)
}

/// Whether a word is one of these.
fn is_among(word: &str, words: &[&str]) -> bool
    ensures { result ≡ list_any (bytes_eq word.now) (borrowed words.now) }
{
    for each in words {
        if word == *each {
            return true;
        }
    }
    false
}

/// Whether that word is in the value of an attribute, where one is wanted.
fn has_word(
    alloc: Global,
    name: &str,
    word: &str,
    element: &Element<'_>,
) -> Result<bool, AllocError>
    ensures { IfOk result (λ b. b ≡ specs.has_word name.now word.now (element_view element.now)) }
{
    if word.is_empty() {
        return Ok(true);
    }
    let words = words_in(alloc, name, element)?;
    Ok(is_among(word, words.as_slice()))
}

/// Whether an element has that attribute, with that word in its value, where one is wanted.
fn has_wanted(alloc: Global, wanted: Wanted, element: &Element<'_>) -> Result<bool, AllocError>
    ensures { IfOk result (λ b. b
        ≡ specs.has_wanted (wanted_view wanted.entry) (element_view element.now)) }
{
    if wanted.0.is_empty() {
        return Ok(true);
    }
    if attribute(wanted.0, element).is_none() {
        return Ok(false);
    }
    has_word(alloc, wanted.0, wanted.1, element)
}

/// Whether an element of that name is in it, where one is wanted.
fn has_part(name: &str, element: &Element<'_>) -> bool
    ensures { result ≡ specs.has_part name.now (element_view element.now) }
{
    name.is_empty() || part_called(name, element).is_some()
}

/// Whether an element asks for the feature of a row.
fn asks(alloc: Global, row: Row, element: &Element<'_>) -> Result<bool, AllocError>
    ensures { IfOk result (λ b. b ≡ asks (element_view element.now) (row_view row.entry)) }
{
    if !has_name(row.0, element) || !has_part(row.3, element) {
        return Ok(false);
    }
    Ok(has_wanted(alloc, row.1, element)? && has_wanted(alloc, row.2, element)?)
}

/// Appends the feature of a row, if an element asks for it.
fn push_asked(
    alloc: Global,
    found: &mut Vec<Feature<'static>>,
    row: Row,
    element: &Element<'_>,
) -> Result<(), AllocError>
    ensures { OnOk result (map feature_view found.new.items ≡ map feature_view found.old.items
        ++ features_by (element_view element.now) (row_view row.entry ∷ [])) }
{
    if asks(alloc, row, element)? {
        found.push(Feature {
            left: element.left,
            name: row.4,
        })?;
    }
    Ok(())
}

/// Appends the features of rows that an element asks for.
fn push_by(
    alloc: Global,
    found: &mut Vec<Feature<'static>>,
    rows: &[Row],
    element: &Element<'_>,
) -> Result<(), AllocError>
    ensures { OnOk result (map feature_view found.new.items ≡ map feature_view found.old.items
        ++ features_by (element_view element.now) (map row_view rows.now)) }
{
    for row in rows {
        push_asked(alloc, found, *row, element)?;
    }
    Ok(())
}

/// Appends the features that an element asks for by itself.
fn push_own(
    alloc: Global,
    found: &mut Vec<Feature<'static>>,
    element: &Element<'_>,
) -> Result<(), AllocError>
    ensures { OnOk result (map feature_view found.new.items
        ≡ map feature_view found.old.items ++ own_features (element_view element.now)) }
{
    push_by(alloc, found, FEATURES, element)
}

/// What a style asks for and is not carried out, in the order of the text. It recurses as deep as elements are nested.
///
/// # Errors
/// Where a request for memory was refused.
pub fn features(alloc: Global, root: &Element<'_>) -> Result<Vec<Feature<'static>>, AllocError>
    ensures { IfOk result (λ v. map feature_view v.items ≡ specs.features (element_view root.now)) }
{
    let mut found = Vec::new(alloc);
    for element in elements(alloc, root)? {
        push_own(alloc, &mut found, element)?;
    }
    Ok(found)
}
