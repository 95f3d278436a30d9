//! Lists of people, written as a value.

ghost use Rattle.std.specs.Prelude.{◌≡◌, ◌++◌, ◌∷◌, [], true, flat_map, IfOk, OnOk, map};
ghost use Rattle.std.specs.List.{list_any};
ghost use Rattle.std.specs.Str.{chars};
ghost use Rattle.laws.specs.Borrowed.{borrowed};
ghost use Rattle.laws.specs.Characters.{space, comma};
ghost use Rattle.biblatex_content.specs.Styled.{letters};
ghost use Rattle.biblatex_content.specs.Views.{styled};
ghost use Rattle.biblatex_content.specs.declared.chunk.Kind.TheVariants.{Normal};
ghost use Rattle.biblatex_lists.specs.StyledChars.{of_style};
ghost use Rattle.biblatex_lists.specs.Writing.{after_and, holds, so_far};
ghost use Rattle.biblatex_lists.specs.Views.{named_view};
ghost use Rattle.biblatex_lists.specs.Words.{is_small, words};
ghost use Rattle.biblatex_lists.specs.PeopleWriting.{before_name, after_name, given_after, is_name, is_odd, is_steady, is_unsteady, written_name, written_part, written_people, written_person};

use crate::person::Person;
use crate::styled_char::{StyledChar, push_chars};
use crate::words::{Mark, is_small, words_of};
use crate::writing::{Writing, is_loose, padded};
use biblatex_content::Chunks;
use std::alloc::{AllocError, Global};
use texts::has_text;

/// Whether the character is a comma, an equals sign, or white space other than the space.
fn is_odd(styled: StyledChar) -> bool
    ensures { result ≡ is_odd styled }
{
    Mark::Comma.is(styled) || Mark::Equals.is(styled) || (styled.is_gap() && styled.c != ' ')
}

/// Whether what stands at the start would part a name, or be no space between two words.
fn is_unsteady(text: &[StyledChar]) -> bool
    ensures { result ≡ is_unsteady text.now }
{
    match text {
        [first, ..] => is_odd(*first) || is_loose(text),
        [] => false,
    }
}

/// Whether something in the text is unsteady.
fn holds_unsteady(text: &[StyledChar]) -> bool
    ensures { result ≡ holds is_unsteady text.now }
{
    for i in 0..text.len() {
        if is_unsteady(&text[i..]) {
            return true;
        }
    }
    false
}

/// Whether a Normal text is read as words with one space between them, and no more.
fn is_steady(alloc: Global, text: &str) -> Result<bool, AllocError>
    ensures { IfOk result (λ b. b ≡ is_steady (chars text.now)) }
{
    Ok(!holds_unsteady(&padded(alloc, text)?))
}

/// Whether a word is small.
fn has_small(words: &[&[StyledChar]]) -> bool
    ensures { result ≡ list_any is_small (borrowed words.now) }
{
    for i in 0..words.len() {
        if is_small(words[i]) {
            return true;
        }
    }
    false
}

/// Whether a Normal text has a small word.
fn has_small_word(alloc: Global, text: &str) -> Result<bool, AllocError>
    ensures { IfOk result (λ b. b ≡ list_any is_small (words (of_style true (chars text.now)))) }
{
    let mut list = Vec::new(alloc);
    push_chars(&mut list, text, true)?;
    Ok(has_small(&words_of(alloc, &[&list])?))
}

/// Whether a Normal text is read as words with one space between them, none of them small, and no more.
fn is_name(alloc: Global, text: &str) -> Result<bool, AllocError>
    ensures { IfOk result (λ b. b ≡ is_name (chars text.now)) }
{
    Ok(is_steady(alloc, text)? && !has_small_word(alloc, text)?)
}

/// Appends a part of a name.
fn push_part(alloc: Global, writing: &mut Writing, text: &str) -> Result<(), AllocError>
    ensures { OnOk result (so_far writing.new
        ≡ so_far writing.old ++ written_part (chars text.now)) }
{
    let is_normal = is_steady(alloc, text)?;
    writing.push_str(is_normal, text)
}

/// Appends the name itself.
fn push_name(alloc: Global, writing: &mut Writing, text: &str) -> Result<(), AllocError>
    ensures { OnOk result (so_far writing.new
        ≡ so_far writing.old ++ written_name (chars text.now)) }
{
    let is_normal = is_name(alloc, text)?;
    writing.push_str(is_normal, text)
}

fn push_space(writing: &mut Writing) -> Result<(), AllocError>
    ensures { OnOk result (so_far writing.new ≡ so_far writing.old ++ letters Normal (space ∷ [])) }
{
    writing.push_str(true, " ")
}

fn push_comma(writing: &mut Writing) -> Result<(), AllocError>
    ensures { OnOk result (so_far writing.new ≡ so_far writing.old ++ letters Normal (comma ∷ [])) }
{
    writing.push_str(true, ",")
}

/// Appends a part of a name, after a comma and a space.
fn push_after_comma(alloc: Global, writing: &mut Writing, text: &str) -> Result<(), AllocError>
    ensures { OnOk result (so_far writing.new
        ≡ so_far writing.old
        ++ (letters Normal (comma ∷ space ∷ []) ++ written_part (chars text.now))) }
{
    push_comma(writing)?;
    push_space(writing)?;
    push_part(alloc, writing, text)
}

/// Appends the prefix, and a space.
fn push_prefix(alloc: Global, writing: &mut Writing, text: &str) -> Result<(), AllocError>
    ensures { OnOk result (so_far writing.new
        ≡ so_far writing.old ++ before_name (chars text.now)) }
{
    if !has_text(text) {
        return Ok(());
    }
    push_part(alloc, writing, text)?;
    push_space(writing)
}

/// Appends the suffix, after a comma.
fn push_suffix(alloc: Global, writing: &mut Writing, text: &str) -> Result<(), AllocError>
    ensures { OnOk result (so_far writing.new ≡ so_far writing.old ++ after_name (chars text.now)) }
{
    if !has_text(text) {
        return Ok(());
    }
    push_after_comma(alloc, writing, text)
}

/// Appends the given name, after a comma, which stands there in any case.
fn push_given(alloc: Global, writing: &mut Writing, text: &str) -> Result<(), AllocError>
    ensures { OnOk result (so_far writing.new
        ≡ so_far writing.old ++ given_after (chars text.now)) }
{
    if !has_text(text) {
        return push_comma(writing);
    }
    push_after_comma(alloc, writing, text)
}

fn push_person(alloc: Global, writing: &mut Writing, person: &Person) -> Result<(), AllocError>
    ensures { OnOk result (so_far writing.new
        ≡ so_far writing.old ++ written_person (named_view person.now)) }
{
    push_prefix(alloc, writing, person.prefix.as_str())?;
    push_name(alloc, writing, person.name.as_str())?;
    push_suffix(alloc, writing, person.suffix.as_str())?;
    push_given(alloc, writing, person.given_name.as_str())
}

/// Appends each person, after ` and `.
fn push_others(alloc: Global, writing: &mut Writing, people: &[Person]) -> Result<(), AllocError>
    ensures { OnOk result (so_far writing.new ≡ so_far writing.old
        ++ flat_map after_and (map written_person (map named_view people.now))) }
{
    for person in people {
        writing.push_and()?;
        push_person(alloc, writing, person)?;
    }
    Ok(())
}

/// Appends people, with ` and ` between them.
fn push_people(alloc: Global, writing: &mut Writing, people: &[Person]) -> Result<(), AllocError>
    ensures { OnOk result (so_far writing.new
        ≡ so_far writing.old ++ written_people (map named_view people.now)) }
{
    match people.split_first() {
        Some((first, others)) => {
            push_person(alloc, writing, first)?;
            push_others(alloc, writing, others)
        }
        None => Ok(()),
    }
}

/// The value that holds the people: ` and ` between them, each as `prefix name, suffix, given name`, without the suffix
/// where it is empty. What would be read otherwise than it stands is verbatim.
pub fn write_people(alloc: Global, people: &[Person]) -> Result<Chunks, AllocError>
    ensures { IfOk result (λ cs. styled cs.items ≡ written_people (map named_view people.now)) }
{
    let mut writing = Writing::new(alloc);
    push_people(alloc, &mut writing, people)?;
    writing.finish()
}
