//! Terms.

ghost use Rattle.std.specs.Prelude.{◌≡◌, ◌++◌, [], map, IfOk, OnOk};
ghost use Rattle.std.specs.Option.{option_map};
ghost use Rattle.laws.specs.Text.{characters};
ghost use Rattle.xml_tree.specs.Trees.{content_of};
ghost use Rattle.xml_tree.specs.Views.{element_view, children_of};
ghost use Rattle.rendering_locale.specs.Views.{term_view};
ghost use Rattle.csl_nodes.specs.Views.{words_view};
ghost use Rattle.csl_locales.specs.Called.{elements_of};
ghost use Rattle.csl_locales.specs.Terms.{texts_in, own_text, text_called, has_one_text, term_text, localized_term, terms_of};

use crate::called::all_called;
use crate::values::value_of;
use csl_nodes::{Words, term_of};
use csl_words::{GENDERS, TERM_FORMS, part_called, value_by};
use rendering_locale::LocalizedTerm;
use rendering_taxonomy::TermForm;
use std::alloc::{AllocError, Global};
use texts::{empty_text, push_text};
use xml_tree::Element;

/// Appends the texts before elements.
fn push_texts(text: &mut String, children: &[(String, Element<'_>)]) -> Result<(), AllocError>
    ensures { OnOk result (characters text.new
        ≡ characters text.old ++ texts_in (content_of (children_of children.now) [])) }
{
    for child in children {
        push_text(text, child.0.as_str())?;
    }
    Ok(())
}

/// The texts in an element, without those of elements in it.
fn own_text(alloc: Global, element: &Element<'_>) -> Result<String, AllocError>
    ensures { IfOk result (λ s. characters s ≡ own_text (element_view element.now)) }
{
    let mut text = empty_text(alloc);
    push_texts(&mut text, element.children.as_slice())?;
    push_text(&mut text, element.text.as_str())?;
    Ok(text)
}

/// The text of the first element of that name in an element.
fn text_called(
    alloc: Global,
    name: &str,
    element: &Element<'_>,
) -> Result<Option<String>, AllocError>
    ensures { IfOk result (λ s. option_map characters s
        ≡ text_called name.now (element_view element.now)) }
{
    match part_called(name, element) {
        Some(part) => Ok(Some(own_text(alloc, part)?)),
        None => Ok(None),
    }
}

/// Whether the text of a term does not tell one from more than one.
fn has_one_text(element: &Element<'_>) -> bool
    ensures { result ≡ has_one_text (element_view element.now) }
{
    part_called("single", element).is_none() && part_called("multiple", element).is_none()
}

/// The text of a term for one, or for more than one, by the name of the element that has it.
pub(crate) fn term_text(
    alloc: Global,
    name: &str,
    element: &Element<'_>,
) -> Result<Option<String>, AllocError>
    ensures { IfOk result (λ s. option_map characters s
        ≡ term_text name.now (element_view element.now)) }
{
    if has_one_text(element) {
        Ok(Some(own_text(alloc, element)?))
    } else {
        text_called(alloc, name, element)
    }
}

/// A term, by the words that no list has.
fn localized_term(
    alloc: Global,
    words: &Words,
    element: &Element<'_>,
) -> Result<LocalizedTerm, AllocError>
    ensures { IfOk result (λ t. term_view t
        ≡ localized_term (words_view words.now) (element_view element.now)) }
{
    let single = term_text(alloc, "single", element)?;
    let multiple = term_text(alloc, "multiple", element)?;
    Ok(LocalizedTerm {
        name: term_of(words, value_of("name", element)),
        form: value_by(TERM_FORMS, "form", element).unwrap_or(TermForm::Long),
        single,
        multiple,
        gender: value_by(GENDERS, "gender", element),
    })
}

/// The terms of a locale, as they follow each other.
pub(crate) fn terms_of<'e, 's>(
    alloc: Global,
    element: &'e Element<'s>,
) -> Result<Vec<&'e Element<'s>>, AllocError>
    ensures { IfOk result (λ v. elements_of v.items ≡ terms_of (element_view element.now)) }
{
    match part_called("terms", element) {
        Some(part) => all_called(alloc, "term", part),
        None => Ok(Vec::new(alloc)),
    }
}

/// The terms of a locale, by the words that no list has.
pub(crate) fn localized_terms(
    alloc: Global,
    words: &Words,
    element: &Element<'_>,
) -> Result<Vec<LocalizedTerm>, AllocError>
    ensures { IfOk result (λ v. map term_view v.items
        ≡ map (localized_term (words_view words.now)) (terms_of (element_view element.now))) }
{
    let mut terms = Vec::new(alloc);
    for term in terms_of(alloc, element)? {
        terms.push(localized_term(alloc, words, term)?)?;
    }
    Ok(terms)
}
