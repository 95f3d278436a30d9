//! Words, and texts cut at marks.

ghost use Rattle.std.specs.Prelude.{◌≡◌, ◌+◌, ◌≤◌, ◌++◌, ◌∷◌, [], length, flat_map, IfOk, MatchOption, None, OnOk, Some};
ghost use Rattle.std.specs.List.{filter};
ghost use Rattle.std.specs.Str.{chars};
ghost use Rattle.laws.specs.Text.{characters, is_filled};
ghost use Rattle.laws.specs.Borrowed.{borrowed};
ghost use Rattle.biblatex_lists.specs.StyledChars.{of_style, plain};
ghost use Rattle.biblatex_lists.specs.Words.{past_space, cut_at, is_mark, is_small, joined_words, lead_count, small_at, split_once, words};

use crate::styled_char::StyledChar;
use std::alloc::{AllocError, Global};
use texts::{empty_text, push_character};
use ucd_category::GeneralCategory;

/// What parts a text.
#[derive(Clone, Copy)]
pub(crate) enum Mark {
    /// White space.
    Gap,
    /// A comma.
    Comma,
    /// An equals sign.
    Equals,
}

impl Mark {
    /// Whether the character is the mark.
    pub(crate) fn is(self, styled: StyledChar) -> bool
        ensures { result ≡ is_mark self styled }
    {
        match self {
            Mark::Gap => styled.is_gap(),
            Mark::Comma => styled.is_normal && styled.c == ',',
            Mark::Equals => styled.is_normal && styled.c == '=',
        }
    }
}

/// Appends the characters of a text.
fn push_plain(text: &mut String, word: &[StyledChar]) -> Result<(), AllocError>
    ensures { OnOk result (characters text.new ≡ characters text.old ++ plain word.now) }
{
    for styled in word {
        push_character(text, styled.c)?;
    }
    Ok(())
}

/// Appends words, each after a space.
fn push_others(text: &mut String, words: &[&[StyledChar]]) -> Result<(), AllocError>
    ensures { OnOk result (characters text.new
        ≡ characters text.old ++ flat_map past_space (borrowed words.now)) }
{
    for word in words {
        push_character(text, ' ')?;
        push_plain(text, word)?;
    }
    Ok(())
}

/// Appends words, one space between two of them.
fn push_words(text: &mut String, words: &[&[StyledChar]]) -> Result<(), AllocError>
    ensures { OnOk result (characters text.new
        ≡ characters text.old ++ joined_words (borrowed words.now)) }
{
    match words.split_first() {
        Some((first, others)) => {
            push_plain(text, first)?;
            push_others(text, others)
        }
        None => Ok(()),
    }
}

/// The words, one space between two of them.
pub(crate) fn joined(alloc: Global, words: &[&[StyledChar]]) -> Result<String, AllocError>
    ensures { IfOk result (λ s. characters s ≡ joined_words (borrowed words.now)) }
{
    let mut text = empty_text(alloc);
    push_words(&mut text, words)?;
    Ok(text)
}

/// What stands before and after the first such mark.
pub(crate) fn split_once(text: &[StyledChar], mark: Mark) -> Option<(&[StyledChar], &[StyledChar])>
    ensures pair { MatchOption result (split_once mark text.now ≡ None) (λ p.
        split_once mark text.now ≡ Some (p.0.now, p.1.now)) }
    ensures cut { MatchOption result (cut_at mark text.now ≡ text.now ∷ []) (λ p.
        cut_at mark text.now ≡ p.0.now ∷ cut_at mark p.1.now) }
    ensures shorter { MatchOption result Unit (λ p. length p.1.now + 1 ≤ length text.now) }
{
    for i in 0..text.len() {
        if mark.is(text[i]) {
            return Some((&text[..i], &text[i + 1..]));
        }
    }
    None
}

/// The text cut at each such mark.
pub(crate) fn cut_at<'v>(
    alloc: Global,
    text: &'v [StyledChar],
    mark: Mark,
) -> Result<Vec<&'v [StyledChar]>, AllocError>
    ensures { IfOk result (λ ps. borrowed ps.items ≡ cut_at mark text.now) }
{
    let mut parts = Vec::new(alloc);
    let mut rest = text;
    while let Some((part, following)) = split_once(rest, mark) {
        parts.push(part)?;
        rest = following;
    }
    parts.push(rest)?;
    Ok(parts)
}

/// Appends a word, if it has a character.
fn push_filled<'v>(
    list: &mut Vec<&'v [StyledChar]>,
    word: &'v [StyledChar],
) -> Result<(), AllocError>
    ensures { OnOk result (borrowed list.new.items
        ≡ borrowed list.old.items ++ filter is_filled (word.now ∷ [])) }
{
    if !word.is_empty() {
        list.push(word)?;
    }
    Ok(())
}

/// Appends the words of a text.
fn push_words_of<'v>(
    list: &mut Vec<&'v [StyledChar]>,
    text: &'v [StyledChar],
) -> Result<(), AllocError>
    ensures { OnOk result (borrowed list.new.items ≡ borrowed list.old.items ++ words text.now) }
{
    let mut rest = text;
    while let Some((word, following)) = split_once(rest, Mark::Gap) {
        push_filled(list, word)?;
        rest = following;
    }
    push_filled(list, rest)
}

/// The words of a text, between white space.
pub(crate) fn words_in<'v>(
    alloc: Global,
    text: &'v [StyledChar],
) -> Result<Vec<&'v [StyledChar]>, AllocError>
    ensures { IfOk result (λ ws. borrowed ws.items ≡ words text.now) }
{
    let mut words = Vec::new(alloc);
    push_words_of(&mut words, text)?;
    Ok(words)
}

/// The words of texts, those of one after those of another.
pub(crate) fn words_of<'v>(
    alloc: Global,
    texts: &[&'v [StyledChar]],
) -> Result<Vec<&'v [StyledChar]>, AllocError>
    ensures { IfOk result (λ ws. borrowed ws.items ≡ flat_map words (borrowed texts.now)) }
{
    let mut words = Vec::new(alloc);
    for text in texts {
        push_words_of(&mut words, text)?;
    }
    Ok(words)
}

/// Whether the word begins with a Normal letter of lower case.
pub(crate) fn is_small(word: &[StyledChar]) -> bool
    ensures { result ≡ is_small word.now }
{
    match word {
        [first, ..] => {
            first.is_normal
                && GeneralCategory::for_char(first.c) == GeneralCategory::LowercaseLetter
        }
        [] => false,
    }
}

/// The number of words before the first small one.
pub(crate) fn small_at(words: &[&[StyledChar]]) -> usize
    ensures value { result ≡ small_at (borrowed words.now) }
    ensures bound { result ≤ length words.now }
{
    for i in 0..words.len() {
        if is_small(words[i]) {
            return i;
        }
    }
    words.len()
}

/// The number of words up to the last small one other than the last word.
pub(crate) fn lead_count(words: &[&[StyledChar]]) -> usize
    ensures value { result ≡ lead_count (borrowed words.now) }
    ensures bound { result ≤ length words.now }
{
    for i in (1..words.len()).rev() {
        if is_small(words[i - 1]) {
            return i;
        }
    }
    0
}
