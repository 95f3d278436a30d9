//! One person's name.

ghost use Rattle.std.specs.Prelude.{◌≡◌, [], IfOk, flat_map};
ghost use Rattle.laws.specs.Borrowed.{borrowed};
ghost use Rattle.biblatex_lists.specs.Reading.{by_parts, by_last_word, by_small_words, person_in, with_commas, without_commas};
ghost use Rattle.biblatex_lists.specs.Views.{named_view};
ghost use Rattle.biblatex_lists.specs.Words.{words};

use crate::pairs::{are_pairs, person_of_pairs};
use crate::person::Person;
use crate::styled_char::StyledChar;
use crate::words::{Mark, cut_at, joined, lead_count, small_at, words_in, words_of};
use std::alloc::{AllocError, Global};
use texts::empty_text;

/// A name without commas and without small words before its last word.
#[tactic(auto, using(crate::proofs::ViewsLists::borrowed_take, crate::proofs::ViewsLists::borrowed_drop, crate::proofs::ViewsLists::borrowed_length))]
fn by_last_word(alloc: Global, words: &[&[StyledChar]]) -> Result<Person, AllocError>
    ensures { IfOk result (λ p. named_view p ≡ by_last_word (borrowed words.now)) }
{
    let (given, name) = words.split_at(words.len().saturating_sub(1));
    Ok(Person {
        name: joined(alloc, name)?,
        given_name: joined(alloc, given)?,
        prefix: empty_text(alloc),
        suffix: empty_text(alloc),
    })
}

/// A name without commas, whose small words end the first part.
#[tactic(auto, using(crate::proofs::ViewsLists::borrowed_take, crate::proofs::ViewsLists::borrowed_drop, crate::proofs::ViewsLists::borrowed_length))]
fn by_small_words(
    alloc: Global,
    leading: &[&[StyledChar]],
    name: &[&[StyledChar]],
) -> Result<Person, AllocError>
    ensures { IfOk result (λ p. named_view p
        ≡ by_small_words (borrowed leading.now) (borrowed name.now)) }
{
    let (given, prefix) = leading.split_at(small_at(leading));
    Ok(Person {
        name: joined(alloc, name)?,
        given_name: joined(alloc, given)?,
        prefix: joined(alloc, prefix)?,
        suffix: empty_text(alloc),
    })
}

/// A name without commas.
#[tactic(auto, using(crate::proofs::ViewsLists::borrowed_take, crate::proofs::ViewsLists::borrowed_drop, crate::proofs::ViewsLists::borrowed_length))]
fn without_commas(alloc: Global, words: &[&[StyledChar]]) -> Result<Person, AllocError>
    ensures { IfOk result (λ p. named_view p ≡ without_commas (borrowed words.now)) }
{
    let end = lead_count(words);
    if end == 0 {
        return by_last_word(alloc, words);
    }
    let (leading, name) = words.split_at(end);
    by_small_words(alloc, leading, name)
}

/// A name with commas: the words of its first part, of the suffix, and of what is given.
#[tactic(auto, using(crate::proofs::ViewsLists::borrowed_take, crate::proofs::ViewsLists::borrowed_drop, crate::proofs::ViewsLists::borrowed_length))]
fn with_commas(
    alloc: Global,
    words: &[&[StyledChar]],
    suffix: &[&[StyledChar]],
    given: &[&[StyledChar]],
) -> Result<Person, AllocError>
    ensures { IfOk result (λ p. named_view p
        ≡ with_commas (borrowed words.now) (borrowed suffix.now) (borrowed given.now)) }
{
    let (prefix, name) = words.split_at(lead_count(words));
    Ok(Person {
        name: joined(alloc, name)?,
        given_name: joined(alloc, given)?,
        prefix: joined(alloc, prefix)?,
        suffix: joined(alloc, suffix)?,
    })
}

/// A name with a comma, from the parts around it.
fn with_given(
    alloc: Global,
    name: &[StyledChar],
    given: &[StyledChar],
) -> Result<Person, AllocError>
    ensures { IfOk result (λ p. named_view p ≡ with_commas (words name.now) [] (words given.now)) }
{
    let words = words_in(alloc, name)?;
    with_commas(alloc, &words, &[], &words_in(alloc, given)?)
}

/// A name with two commas or more, from its first two parts and the others.
fn with_suffix(
    alloc: Global,
    name: &[StyledChar],
    suffix: &[StyledChar],
    given: &[&[StyledChar]],
) -> Result<Person, AllocError>
    ensures { IfOk result (λ p. named_view p
        ≡ with_commas (words name.now) (words suffix.now) (flat_map words (borrowed given.now))) }
{
    let words = words_in(alloc, name)?;
    let suffix = words_in(alloc, suffix)?;
    with_commas(alloc, &words, &suffix, &words_of(alloc, given)?)
}

/// A person, from the parts between commas.
#[tactic(auto, using(crate::proofs::ViewsLists::by_three_parts))]
fn by_parts(alloc: Global, parts: &[&[StyledChar]]) -> Result<Person, AllocError>
    ensures { IfOk result (λ p. named_view p ≡ by_parts (borrowed parts.now)) }
{
    match parts {
        [] => Ok(Person::nobody(alloc)),
        [name] => without_commas(alloc, &words_in(alloc, name)?),
        [name, given] => with_given(alloc, name, given),
        [name, suffix, _, ..] => with_suffix(alloc, name, suffix, parts.split_at(2).1),
    }
}

/// The person whose name the text is.
pub(crate) fn read_person(alloc: Global, text: &[StyledChar]) -> Result<Person, AllocError>
    ensures { IfOk result (λ p. named_view p ≡ person_in text.now) }
{
    let parts = cut_at(alloc, text, Mark::Comma)?;
    if are_pairs(&parts) {
        person_of_pairs(alloc, &parts)
    } else {
        by_parts(alloc, &parts)
    }
}
