//! What a text does to the last text before it is appended.

ghost use Rattle.std.specs.Prelude.{◌≡◌, IfOk, length};
ghost use Rattle.std.specs.List.{list_any};
ghost use Rattle.std.specs.Char.Unicode.Alphabetic.{is_alphabetic};
ghost use Rattle.std.specs.Str.{chars};
ghost use Rattle.laws.specs.Text.{characters};
ghost use Rattle.rendering_page.specs.Tail as specs;
ghost use Rattle.rendering_page.specs.Views.{pieces_view};

use crate::cutting::{cut, trim_end};
use crate::page_end::ends_in;
use crate::piece::{Piece, trimmed};
use std::alloc::{AllocError, Global};
use texts::{empty_text, has_text, push_character, split_first};

/// Cuts from the end of the last text what does not stand before the next one.
pub(crate) fn make_room(pieces: &mut Vec<Piece<'_>>, next: &str)
    ensures { pieces_view pieces.new.items
        ≡ specs.remaining (chars next.now) (pieces_view pieces.old.items) }
{
    close_up(pieces, next);
    drop_repeated(pieces, next);
}

/// Cuts the white space at the end of the last text, where the next one begins with white space or closes something.
fn close_up(pieces: &mut Vec<Piece<'_>>, next: &str)
    ensures { pieces_view pieces.new.items
        ≡ specs.closed_up (chars next.now) (pieces_view pieces.old.items) }
{
    if begins_close(next) {
        trim_end(pieces);
    }
}

/// Cuts the end of the last text that the next one, a text without letters, would repeat.
fn drop_repeated(pieces: &mut Vec<Piece<'_>>, next: &str)
    ensures { pieces_view pieces.new.items
        ≡ specs.unrepeated (chars next.now) (pieces_view pieces.old.items) }
{
    if !has_letters(next) {
        drop_end(pieces, trimmed(next));
    }
}

/// Cuts this end of the last text, where the text ends so.
#[tactic(auto, using(crate::proofs::CutsEnds::no_end))]
fn drop_end(pieces: &mut Vec<Piece<'_>>, end: &str)
    ensures { pieces_view pieces.new.items
        ≡ specs.without_end (chars end.now) (pieces_view pieces.old.items) }
{
    if !has_text(end) {
        return;
    }
    if ends_in(pieces, end) {
        cut(pieces, length(end));
    }
}

/// How many characters a text has.
pub(crate) fn length(text: &str) -> usize
    ensures { result ≡ length (chars text.now) }
{
    text.chars().count()
}

/// Whether it begins with white space or closes something.
fn begins_close(text: &str) -> bool
    ensures { result ≡ specs.begins_close (chars text.now) }
{
    match split_first(text) {
        Some((first, _)) => is_close(first),
        None => false,
    }
}

/// White space, a full stop, a comma, a closing bracket or parenthesis.
fn is_close(c: char) -> bool
    ensures { result ≡ specs.is_close c }
{
    c.is_whitespace() || matches!(c, '.' | ',' | ']' | ')')
}

/// A full stop, a comma, a semicolon, an exclamation mark, a question mark.
pub(crate) fn is_punctuation(c: char) -> bool
    ensures { result ≡ specs.is_punctuation c }
{
    matches!(c, '.' | ',' | ';' | '!' | '?')
}

/// Whether there is a letter, as Unicode tells letters.
fn has_letters(text: &str) -> bool
    ensures { result ≡ list_any is_alphabetic (chars text.now) }
{
    text.chars().any(|c| c.is_alphabetic())
}

/// A text without its full stops, but for those after a full stop.
pub(crate) fn stripped(alloc: Global, text: &str) -> Result<String, AllocError>
    ensures { IfOk result (λ s. characters s ≡ specs.stripped (chars text.now)) }
{
    let mut stripped = empty_text(alloc);
    let mut was_stop = false;
    let mut rest = text;
    while let Some((c, after)) = split_first(rest) {
        if c == '.' && !was_stop {
            was_stop = true;
        } else {
            push_character(&mut stripped, c)?;
            was_stop = c == '.';
        }
        rest = after;
    }
    Ok(stripped)
}
