//! The terms that a style prints and no locale has.

ghost use Rattle.std.specs.Prelude.{◌≡◌, ◌++◌, ◌∷◌, [], false, is_none, map, IfOk, OnOk};
ghost use Rattle.std.specs.Option.{option_map};
ghost use Rattle.std.specs.Str.{chars};
ghost use Rattle.laws.specs.Text.{text as text_of, spelled};
ghost use Rattle.rendering_locale.specs.Lookup.{term};
ghost use Rattle.xml_tree.specs.Views.{element_view};
ghost use Rattle.csl_nodes.specs.Views.{words_view};
ghost use Rattle.csl_features.specs.Missing as specs;
ghost use Rattle.csl_features.specs.Missing.{label_word, printed_word, is_missing, missing_at, missing_by};
ghost use Rattle.csl_features.specs.Views.{feature_view};

use crate::feature::Feature;
use crate::walking::elements;
use csl_nodes::{Words, term_form, term_of};
use csl_words::{attribute, is_called, says};
use rendering_locale::AskedLocales;
use rendering_taxonomy::{Term, TermForm};
use std::alloc::{AllocError, Global};
use xml_tree::Element;

/// The variable of a label, whose term it prints. For a locator a cite says which label it has.
fn label_word<'e>(element: &'e Element<'_>) -> Option<&'e str>
    ensures { option_map spelled result ≡ label_word (element_view element.now) }
{
    if says("variable", "locator", element) {
        None
    } else {
        attribute("variable", element)
    }
}

/// The word of the term that a text or a label prints, whatever is cited.
fn printed_word<'e>(element: &'e Element<'_>) -> Option<&'e str>
    ensures { option_map spelled result ≡ printed_word (element_view element.now) }
{
    if is_called("text", element) {
        attribute("term", element)
    } else if is_called("label", element) {
        label_word(element)
    } else {
        None
    }
}

/// Whether none of the locales has a term, in the form or in one that stands for it.
fn lacks(locales: &AskedLocales<'_>, name: Term, form: TermForm) -> bool
    ensures { result ≡ is_none (term locales.now name form false) }
{
    match locales.term(name, form, false) {
        Some(_) => false,
        None => true,
    }
}

/// Whether none of the locales has the term of a word in the form that an element says, where these are the words that no list has.
fn is_missing(words: &Words, locales: &AskedLocales<'_>, element: &Element<'_>, word: &str) -> bool
    ensures { result ≡ is_missing (words_view words.now) locales.now
        (element_view element.now) word.now }
{
    lacks(locales, term_of(words, word), term_form(element))
}

/// Appends the term of an element by its word, if it is missing.
fn push_missing<'e>(
    missing: &mut Vec<Feature<'e>>,
    words: &Words,
    locales: &AskedLocales<'_>,
    element: &Element<'_>,
    word: &'e str,
) -> Result<(), AllocError>
    ensures { OnOk result (map feature_view missing.new.items
        ≡ map feature_view missing.old.items ++ missing_by (words_view words.now) locales.now
        (element_view element.now) (word.entry.now ∷ [])) }
{
    if is_missing(words, locales, element, word) {
        missing.push(Feature {
            left: element.left,
            name: word,
        })?;
    }
    Ok(())
}

/// The same, where the word is as a tree has it.
#[tactic(auto, using(laws::proofs::Text::text_of_chars))]
fn push_spelled<'e>(
    missing: &mut Vec<Feature<'e>>,
    words: &Words,
    locales: &AskedLocales<'_>,
    element: &Element<'_>,
    word: &'e str,
) -> Result<(), AllocError>
    ensures { OnOk result (map feature_view missing.new.items ≡ map feature_view missing.old.items
        ++ missing_by (words_view words.now) locales.now (element_view element.now)
        (text_of (chars word.entry.now) ∷ [])) }
{
    push_missing(missing, words, locales, element, word)
}

/// Appends the term that an element prints, if it is missing.
fn push_at<'e>(
    missing: &mut Vec<Feature<'e>>,
    words: &Words,
    locales: &AskedLocales<'_>,
    element: &'e Element<'_>,
) -> Result<(), AllocError>
    ensures { OnOk result (map feature_view missing.new.items
        ≡ map feature_view missing.old.items ++ missing_at (words_view words.now) locales.now
        (element_view element.entry.now)) }
{
    match printed_word(element) {
        Some(word) => push_spelled(missing, words, locales, element, word),
        None => Ok(()),
    }
}

/// The terms that the texts and labels of a style print and none of the locales has, each by its word, in the order of the text. `words` are
/// the words of the style that no list has. It recurses as deep as elements are nested.
///
/// # Errors
/// Where a request for memory was refused.
pub fn missing_terms<'e>(
    alloc: Global,
    words: &Words,
    locales: &AskedLocales<'_>,
    root: &'e Element<'_>,
) -> Result<Vec<Feature<'e>>, AllocError>
    ensures { IfOk result (λ v. map feature_view v.items
        ≡ specs.missing_terms (words_view words.now) locales.now (element_view root.now)) }
{
    let mut missing = Vec::new(alloc);
    for element in elements(alloc, root)? {
        push_at(&mut missing, words, locales, element)?;
    }
    Ok(missing)
}
