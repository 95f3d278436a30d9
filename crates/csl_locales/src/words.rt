//! The words of terms that no list has.

ghost use Rattle.std.specs.Prelude.{◌≡◌, ◌++◌, ◌∷◌, [], ℕ, List, filter, IfOk, OnOk, option_to_list};
ghost use Rattle.std.specs.Option.{option_map};
ghost use Rattle.std.specs.Str.{chars};
ghost use Rattle.laws.specs.Borrowed.{borrowed};
ghost use Rattle.laws.specs.Text.{text as text_of, spelled};
ghost use Rattle.xml_tree.specs.Trees.{content_of};
ghost use Rattle.xml_tree.specs.Views as views;
ghost use Rattle.xml_tree.specs.Views.{space_view, element_view};
ghost use Rattle.xml_schema.specs.Faults.{name_of};
ghost use Rattle.csl_words.specs.Elements.{is_csl};
ghost use Rattle.csl_nodes.specs.Views.{words_view};
ghost use Rattle.csl_locales.specs.Words as specs;
ghost use Rattle.csl_locales.specs.Words.{own_word, is_unlisted, words_of, words_in};

use crate::language::is_word;
use csl_nodes::{Words, listed_term};
use csl_words::{attribute, children_of, is_called};
use std::alloc::{AllocError, Global};
use std::rc::RcStr;
use xml_tree::Element;

/// Whether a namespace is that of CSL. None counts as it.
fn is_csl(space: &Option<RcStr>) -> bool
    ensures { result ≡ is_csl (space_view space.now) }
{
    match space {
        Some(space) => is_word(space.as_str(), "http://purl.org/net/xbiblio/csl"),
        None => true,
    }
}

/// Whether an element is passed over with all that is in it: `info`, and one of another namespace than CSL's.
pub fn is_passed(element: &Element<'_>) -> bool
    ensures { result ≡ specs.is_passed (name_of (element_view element.now)) }
{
    !is_csl(&element.name.space) || is_called("info", element)
}

/// The word of a term that an element has: of a text that prints a term, or of a term of a locale.
fn own_word<'e>(element: &'e Element<'_>) -> Option<&'e str>
    ensures { option_map spelled result ≡ own_word (element_view element.now) }
{
    if is_called("text", element) {
        attribute("term", element)
    } else if is_called("term", element) {
        attribute("name", element)
    } else {
        None
    }
}

/// Whether no list has the word.
fn is_unlisted(word: &str) -> bool
    ensures { result ≡ is_unlisted word.now }
{
    listed_term(word).is_none()
}

/// Appends a word, if no list has it.
#[tactic(auto, using(laws::proofs::Text::text_of_chars))]
fn push_unlisted<'e>(words: &mut Vec<&'e str>, word: &'e str) -> Result<(), AllocError>
    ensures { OnOk result (borrowed words.new.items ≡ borrowed words.old.items
        ++ filter is_unlisted (text_of (chars word.entry.now) ∷ [])) }
{
    if is_unlisted(word) {
        words.push(word)?;
    }
    Ok(())
}

/// Appends the word that an element has, if no list has it.
fn push_own<'e>(words: &mut Vec<&'e str>, element: &'e Element<'_>) -> Result<(), AllocError>
    ensures { OnOk result (borrowed words.new.items
        ≡ borrowed words.old.items ++ filter is_unlisted
        (option_to_list (option_map text_of (own_word (element_view element.entry.now))))) }
{
    match own_word(element) {
        Some(word) => push_unlisted(words, word),
        None => Ok(()),
    }
}

/// Appends the words that no list has, of an element and of those in it.
#[cycle(words)]
fn push_words<'e>(element: &'e Element<'_>, words: &mut Vec<&'e str>) -> Result<(), AllocError>
    ensures { OnOk result (borrowed words.new.items ≡ borrowed words.old.items
        ++ filter is_unlisted (words_of (element_view element.entry.now))) }
{
    if is_passed(element) {
        return Ok(());
    }
    push_own(words, element)?;
    push_words_in(children_of(element), words)
}

/// Appends those of elements.
#[cycle(words)]
fn push_words_in<'e>(
    children: &'e [(String, Element<'_>)],
    words: &mut Vec<&'e str>,
) -> Result<(), AllocError>
    ensures { OnOk result ((t : List ℕ) → borrowed words.new.items
        ≡ borrowed words.old.items ++ filter is_unlisted
        (words_in (content_of (views.children_of children.entry.now) t))) }
{
    for child in children {
        push_words(&child.1, words)?;
    }
    Ok(())
}

/// The words of terms that no list has, of a style or of a locale, each where it comes first. It recurses as deep as elements are nested.
///
/// # Errors
/// Where a request for memory was refused.
pub fn unlisted_words(alloc: Global, root: &Element<'_>) -> Result<Words, AllocError>
    ensures { IfOk result (λ w. words_view w ≡ specs.unlisted_words (element_view root.now)) }
{
    let mut words = Vec::new(alloc);
    push_words(root, &mut words)?;
    Words::of(alloc, words.as_slice())
}
