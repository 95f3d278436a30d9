//! Texts as they are printed.

ghost use Rattle.std.specs.Prelude.{◌≡◌, ◌++◌, ◌≤◌, ◌∷◌, length, IfOk};
ghost use Rattle.std.specs.List.{list_any};
ghost use Rattle.std.specs.Option.{option_map};
ghost use Rattle.std.specs.Str.{chars};
ghost use Rattle.laws.specs.Runs.{after};
ghost use Rattle.laws.specs.Text.{characters, spelled};
ghost use Rattle.biblatex_typography.specs.Typography as specs;
ghost use Rattle.biblatex_typography.specs.Typography.{typographic_text};
ghost use Rattle.biblatex_typography.specs.Changes as changes;
ghost use Rattle.biblatex_typography.specs.Changes.{is_unmarked};

use std::alloc::{AllocError, Global};
use texts::{CharacterClass, empty_text, has_text, push_character, split_first, split_run};

/// Whether the character is a mark as it is typed.
fn is_mark(c: char) -> bool
    ensures { result ≡ specs.is_mark c }
{
    c == '\'' || c == '`'
}

/// What the character prints by itself.
fn single(c: char) -> char
    ensures { result ≡ specs.single c }
{
    if c == '\'' {
        return '\u{2019}';
    }
    if c == '`' {
        return '\u{2018}';
    }
    c
}

/// What two of these marks print.
fn double(c: char) -> char
    ensures { result ≡ specs.double c }
{
    if c == '\'' { '\u{201d}' } else { '\u{201c}' }
}

/// The characters that are no marks.
#[derive(Clone, Copy)]
struct Unmarked;

impl CharacterClass for Unmarked {
    ghost passes = { λ _ c. is_unmarked c };

    fn contains(self, c: char) -> bool {
        !is_mark(c)
    }
}

/// The text from its first mark on.
fn from_mark(text: &str) -> &str
    ensures { chars result.now ≡ after is_unmarked (chars text.now) }
{
    split_run(text, Unmarked).1
}

/// Whether the text has a mark.
pub(crate) fn has_mark(text: &str) -> bool
    ensures { result ≡ list_any specs.is_mark (chars text.now) }
{
    has_text(from_mark(text))
}

/// What follows the second mark of a pair, where the character before the text is the first one of a pair.
fn past_pair(c: char, text: &str) -> Option<&str>
    ensures { option_map spelled result ≡ changes.past_pair c (chars text.now) }
{
    let (next, rest) = split_first(text)?;
    if is_mark(c) && c == next {
        return Some(rest);
    }
    None
}

/// Appends what a character before a text prints, with the mark after it where both are a pair, and returns what follows.
fn push_first<'t>(printed: &mut String, c: char, text: &'t str) -> Result<&'t str, AllocError>
    ensures printed { IfOk result (λ rest. characters printed.new
        ++ typographic_text (chars rest.now)
        ≡ characters printed.old ++ typographic_text (c ∷ chars text.entry.now)) }
    ensures shorter { IfOk result (λ rest. length (chars rest.now)
        ≤ length (chars text.entry.now)) }
{
    match past_pair(c, text) {
        Some(rest) => {
            push_character(printed, double(c))?;
            Ok(rest)
        }
        None => {
            push_character(printed, single(c))?;
            Ok(text)
        }
    }
}

/// The text as it is printed.
pub(crate) fn typographic_text(alloc: Global, text: &str) -> Result<String, AllocError>
    ensures { IfOk result (λ s. characters s ≡ typographic_text (chars text.now)) }
{
    let mut printed = empty_text(alloc);
    let mut rest = text;
    while let Some((c, more)) = split_first(rest) {
        rest = push_first(&mut printed, c, more)?;
    }
    Ok(printed)
}
