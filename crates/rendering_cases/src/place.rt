//! Places in a text: what is known there of what stands before, and what follows.

ghost use Rattle.std.specs.Prelude.{◌≡◌, ◌++◌, [], OnOk};
ghost use Rattle.std.specs.Str.{chars};
ghost use Rattle.laws.specs.Text.{characters};
ghost use Rattle.rendering_cases.specs.Along.{mark_after, next, past, rest_of, text_start_after, word_start_after};
ghost use Rattle.rendering_cases.specs.Cases.{begins_first_word, begins_small_word, begins_title_word, changed, in_sentence, is_first_letter, is_last_or_no_stop_word};
ghost use Rattle.rendering_cases.specs.Views.{place_view};
ghost use Rattle.rendering_cases.specs.Words.{place_at};

use crate::letter::{push_lowered, push_raised, push_raised_if};
use crate::word::{is_last, is_letter, is_mark, is_small, is_stop_word, parts_words, split_word};
use rendering_taxonomy::TextCase;
use std::alloc::AllocError;
use texts::split_first;

/// A place in a text.
#[derive(Drop)]
pub(crate) struct Place<'t> {
    /// Whether a letter here begins a word.
    begins_word: bool,
    /// Whether it begins the first word.
    begins_text: bool,
    /// Whether a mark stands before it.
    follows_mark: bool,
    /// The text from here on.
    ahead: &'t str,
}

impl<'t> Place<'t> {
    /// The beginning of a text.
    pub(crate) fn new(text: &'t str) -> Place<'t>
        ensures { place_view result ≡ place_at [] (chars text.now) }
    {
        Place {
            begins_word: true,
            begins_text: true,
            follows_mark: false,
            ahead: text,
        }
    }

    /// Goes on past a character.
    pub(crate) fn pass(&mut self, c: char)
        ensures { place_view self.new ≡ next (place_view self.old) c }
    {
        self.begins_word = word_start_after(self.begins_word, c);
        self.begins_text = text_start_after(self.begins_text, c);
        self.follows_mark = mark_after(self.follows_mark, c);
        self.ahead = rest_of(self.ahead);
    }

    /// Goes on past a text.
    pub(crate) fn pass_text(&mut self, text: &str)
        ensures { place_view self.new ≡ past (place_view self.old) (chars text.now) }
    {
        let mut rest = text;
        while let Some((c, after)) = split_first(rest) {
            self.pass(c);
            rest = after;
        }
    }

    /// Whether the character here begins a word without a capital.
    fn begins_small_word(&self, c: char) -> bool
        ensures { result ≡ begins_small_word (place_view self.now) c }
    {
        is_letter(c) && (self.begins_word && is_small(self.ahead))
    }

    /// Whether the character here begins the first word, and the word has no capital.
    fn begins_first_word(&self, c: char) -> bool
        ensures { result ≡ begins_first_word (place_view self.now) c }
    {
        self.begins_text && self.begins_small_word(c)
    }

    /// Whether the character here begins a word that an English title capitalises.
    fn begins_title_word(&self, c: char) -> bool
        ensures { result ≡ begins_title_word (place_view self.now) c }
    {
        self.begins_small_word(c)
            && (self.begins_text || (self.follows_mark || self.is_last_or_no_stop_word()))
    }

    /// Whether the word here is no stop word, or the last word.
    fn is_last_or_no_stop_word(&self) -> bool
        ensures { result ≡ is_last_or_no_stop_word (place_view self.now) }
    {
        let (word, _) = split_word(self.ahead);
        !is_stop_word(word) || is_last(self.ahead)
    }

    /// Whether the character here is the first letter of the text.
    fn is_first_letter(&self, c: char) -> bool
        ensures { result ≡ is_first_letter (place_view self.now) c }
    {
        self.begins_text && is_letter(c)
    }

    /// Appends what stands for the character here in a case.
    pub(crate) fn push_changed(
        &self,
        output: &mut String,
        case: TextCase,
        in_capitals: bool,
        c: char,
    ) -> Result<(), AllocError>
        ensures { OnOk result (characters output.new
            ≡ characters output.old ++ changed case in_capitals (place_view self.now) c) }
    {
        match case {
            TextCase::Lowercase => push_lowered(output, c),
            TextCase::Uppercase => push_raised(output, c),
            TextCase::CapitalizeFirst => push_raised_if(output, self.begins_first_word(c), c),
            TextCase::CapitalizeAll => push_raised_if(output, self.begins_small_word(c), c),
            TextCase::Sentence => self.push_in_sentence(output, in_capitals, c),
            TextCase::Title => push_raised_if(output, self.begins_title_word(c), c),
        }
    }

    /// Appends what stands for the character here in a sentence.
    fn push_in_sentence(
        &self,
        output: &mut String,
        in_capitals: bool,
        c: char,
    ) -> Result<(), AllocError>
        ensures { OnOk result (characters output.new
            ≡ characters output.old ++ in_sentence in_capitals (place_view self.now) c) }
    {
        if in_capitals && !self.is_first_letter(c) {
            push_lowered(output, c)
        } else {
            push_raised_if(output, self.begins_first_word(c), c)
        }
    }
}

/// Whether a letter after a character begins a word.
fn word_start_after(begins: bool, c: char) -> bool
    ensures { result ≡ word_start_after begins c }
{
    parts_words(c) || (!is_letter(c) && begins)
}

/// Whether a letter after a character begins the first word.
fn text_start_after(begins: bool, c: char) -> bool
    ensures { result ≡ text_start_after begins c }
{
    !is_letter(c) && begins
}

/// Whether a mark stands before what follows a character.
fn mark_after(follows: bool, c: char) -> bool
    ensures { result ≡ mark_after follows c }
{
    is_mark(c) || (!is_letter(c) && follows)
}

/// A text without its first character.
fn rest_of(text: &str) -> &str
    ensures { chars result.now ≡ rest_of (chars text.now) }
{
    match split_first(text) {
        Some((_, rest)) => rest,
        None => text,
    }
}
