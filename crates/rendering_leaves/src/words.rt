//! The numbers of texts in a form: a word between white space, dashes, commas and ampersands is changed where it is a number in digits
//! alone.

ghost use Rattle.std.specs.Prelude.{◌≡◌, ◌++◌, IfOk, Ok, OnOk};
ghost use Rattle.std.specs.Str.{chars};
ghost use Rattle.laws.specs.Runs.{prefix_of};
ghost use Rattle.laws.specs.Text.{characters};
ghost use Rattle.texts.specs.Reading.{number_at};
ghost use Rattle.texts.specs.Views.{left};
ghost use Rattle.rendering_leaves.specs.Words.{is_of_word, lone_number, printed_at, word_in, words_in};
ghost use Rattle.rendering_locale.specs.Views.{ordinals_view};

use rendering_context::is_range_sign;
use rendering_locale::Ordinals;
use rendering_numbers::push_number;
use rendering_taxonomy::NumberForm;
use std::alloc::{AllocError, Global};
use texts::{
    CharacterClass, Reader, empty_text, push_character, push_text, split_first, split_run,
};

/// A copy of the text, each of whose words that is a number in digits alone is in the form.
pub(crate) fn words_in(
    alloc: Global,
    ordinals: &Ordinals,
    form: NumberForm,
    text: &str,
) -> Result<String, AllocError>
    ensures { IfOk result (λ s. characters s
        ≡ words_in (ordinals_view ordinals.now) form (chars text.now)) }
{
    let mut out = empty_text(alloc);
    let mut is_inside = false;
    let mut rest = text;
    while let Some((c, after)) = split_first(rest) {
        push_printed(&mut out, ordinals, form, is_inside, c, rest)?;
        is_inside = is_of_word(c);
        rest = after;
    }
    Ok(out)
}

/// Appends what is printed at a character with which the rest of the text begins: at the first one of a word the whole word, at the others
/// of it nothing, and any other character itself.
fn push_printed(
    out: &mut String,
    ordinals: &Ordinals,
    form: NumberForm,
    is_inside: bool,
    c: char,
    rest: &str,
) -> Result<(), AllocError>
    ensures { OnOk result (characters out.new ≡ characters out.old
        ++ printed_at (ordinals_view ordinals.now) form is_inside c (chars rest.now)) }
{
    if !is_of_word(c) {
        push_character(out, c)
    } else if is_inside {
        Ok(())
    } else {
        push_word(out, ordinals, form, first_word(rest))
    }
}

/// Appends a word, with its number in the form where it is one in digits alone.
fn push_word(
    out: &mut String,
    ordinals: &Ordinals,
    form: NumberForm,
    word: &str,
) -> Result<(), AllocError>
    ensures { OnOk result (characters out.new
        ≡ characters out.old ++ word_in (ordinals_view ordinals.now) form (chars word.now)) }
{
    match number_of(word) {
        Some(number) => push_number(out, ordinals, form, number),
        None => push_text(out, word),
    }
}

/// The number that the word is, where it is nothing but the digits of one.
fn number_of(word: &str) -> Option<i32>
    ensures { result ≡ lone_number (number_at (chars word.now)) }
{
    let mut reader = Reader::new(word);
    match reader.number() {
        Ok(number) => lone_number(number, reader),
        Err(_) => None,
    }
}

/// The number that was read, where the reader is at its end.
fn lone_number(number: i32, mut reader: Reader<'_>) -> Option<i32>
    ensures { result ≡ lone_number (Ok (number, left reader.entry)) }
{
    match reader.end() {
        Ok(()) => Some(number),
        Err(_) => None,
    }
}

/// The word that the text begins with.
fn first_word(text: &str) -> &str
    ensures { chars result.now ≡ prefix_of is_of_word (chars text.now) }
{
    split_run(text, OfWord).0
}

/// A character of a word: no white space, dash, comma or ampersand.
fn is_of_word(c: char) -> bool
    ensures { result ≡ is_of_word c }
{
    !(c.is_whitespace() || is_range_sign(c))
}

/// The characters of a word.
#[derive(Clone, Copy)]
struct OfWord;

impl CharacterClass for OfWord {
    ghost passes = { λ _ c. is_of_word c };

    fn contains(self, c: char) -> bool {
        is_of_word(c)
    }
}
