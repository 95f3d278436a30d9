//! The words in the value of an attribute.

ghost use Rattle.std.specs.Prelude.{◌≡◌, ◌∷◌, ◌++◌, ◌<◌, ◌==◌, [], length, filter, filter_map, IfOk, OnOk, MatchOption, ⊤};
ghost use Rattle.std.specs.List.{slice_split};
ghost use Rattle.std.specs.Option.{option_to_list};
ghost use Rattle.std.specs.Str.{chars};
ghost use Rattle.laws.specs.Borrowed.{borrowed};
ghost use Rattle.laws.specs.Characters.{space};
ghost use Rattle.laws.specs.Text.{text as text_of_characters};
ghost use Rattle.xml_tree.specs.Views.{element_view};
ghost use Rattle.csl_words.specs.Looking.{table_view, in_table, is_word, words_of, words_in, values_by};

use crate::looking::{in_table, value_of};
use std::alloc::{AllocError, Global};
use xml_tree::Element;

/// The text before the first space, and what follows it.
fn split_space(text: &str) -> Option<(&str, &str)>
    ensures parts { MatchOption result
        (slice_split (λ b. b == space) text.now ≡ text.now ∷ [])
        (λ x. slice_split (λ b. b == space) text.now
        ≡ x.0.now ∷ slice_split (λ b. b == space) x.1.now) }
    ensures shorter { MatchOption result ⊤ (λ x. length x.1.now < length text.now) }
{
    text.split_once(' ')
}

/// Appends a part of a text, if it is a word.
fn push_word<'t>(words: &mut Vec<&'t str>, part: &'t str) -> Result<(), AllocError>
    ensures { OnOk result (borrowed words.new.items
        ≡ borrowed words.old.items ++ filter is_word (part.now ∷ [])) }
{
    if !part.is_empty() {
        words.push(part)?;
    }
    Ok(())
}

/// The words of a text, which spaces part.
#[tactic(auto, using(crate::proofs::Words::words_on, crate::proofs::Words::words_end))]
fn words_of<'t>(alloc: Global, text: &'t str) -> Result<Vec<&'t str>, AllocError>
    ensures { IfOk result (λ v. borrowed v.items ≡ words_of text.now) }
{
    let mut words = Vec::new(alloc);
    let mut rest = text;
    while let Some((part, more)) = split_space(rest) {
        push_word(&mut words, part)?;
        rest = more;
    }
    push_word(&mut words, rest)?;
    Ok(words)
}

/// The words of a text of a tree.
#[tactic(auto, using(laws::proofs::Text::text_of_chars))]
fn spelled_words<'t>(alloc: Global, text: &'t str) -> Result<Vec<&'t str>, AllocError>
    ensures { IfOk result (λ v. borrowed v.items ≡ words_of (text_of_characters (chars text.now))) }
{
    words_of(alloc, text)
}

/// The words in the value of an attribute, which spaces part.
///
/// # Errors
/// Where a request for memory was refused.
pub fn words_in<'e>(
    alloc: Global,
    name: &str,
    element: &'e Element<'_>,
) -> Result<Vec<&'e str>, AllocError>
    ensures { IfOk result (λ v. borrowed v.items
        ≡ words_in name.now (element_view element.now)) }
{
    spelled_words(alloc, value_of(name, element))
}

/// Appends a value, if there is one.
fn push_value<X: Copy>(values: &mut Vec<X>, value: Option<X>) -> Result<(), AllocError>
    ensures { OnOk result (values.new.items ≡ values.old.items ++ option_to_list value) }
{
    if let Some(value) = value {
        values.push(value)?;
    }
    Ok(())
}

/// What a table has for words.
fn values_of<X: Copy>(
    alloc: Global,
    rows: &[(&str, X)],
    words: &[&str],
) -> Result<Vec<X>, AllocError>
    ensures { IfOk result (λ v. v.items
        ≡ filter_map (in_table (table_view rows.now)) (borrowed words.now)) }
{
    let mut values = Vec::new(alloc);
    for word in words {
        push_value(&mut values, in_table(rows, *word))?;
    }
    Ok(values)
}

/// What a table has for the words in the value of an attribute.
///
/// # Errors
/// Where a request for memory was refused.
pub fn values_by<X: Copy>(
    alloc: Global,
    rows: &[(&str, X)],
    name: &str,
    element: &Element<'_>,
) -> Result<Vec<X>, AllocError>
    ensures { IfOk result (λ v. v.items
        ≡ values_by (table_view rows.now) name.now (element_view element.now)) }
{
    let words = words_in(alloc, name, element)?;
    values_of(alloc, rows, words.as_slice())
}
