//! What is cut from the end of the last text, and what is put into it.

ghost use Rattle.std.specs.Prelude.{◌≡◌, ◌<◌, ◌+◌, ◌++◌, IfOk, OnOk, not, reverse, if◌then◌else◌};
ghost use Rattle.std.specs.Str.{chars, drop_trailing_whitespace};
ghost use Rattle.laws.specs.Text.{is_filled};
ghost use Rattle.rendering_tree.specs.Tokens.{last_text, with_letter_before, with_letters, without_letters};
ghost use Rattle.rendering_page.specs.Tail.{trailing};
ghost use Rattle.rendering_page.specs.Views.{words_view, with_piece, pieces_view};
ghost use Rattle.rendering_page.specs.Cuts.{IsCut};
ghost use Rattle.rendering_page.specs.Cursors.{blanks, with_cut, text_of, trimmed_from};

use crate::page_end::text_in;
use crate::piece::{Piece, Words, split_last};
use rendering_taxonomy::Formatting;
use std::alloc::{AllocError, Global};
use texts::{empty_text, has_text, push_character, push_text};

/// Cuts the last characters of a page, so many of them.
pub(crate) fn cut(pieces: &mut Vec<Piece<'_>>, count: usize)
    ensures { pieces_view pieces.new.items ≡ without_letters count (pieces_view pieces.old.items) }
{
    let mut rest = count;
    let mut i = pieces.len();
    while i > 0 {
        if rest == 0 {
            return;
        }
        i -= 1;
        rest = cut_piece(&mut pieces[i], rest);
    }
}

/// Cuts so many characters of a piece, at most all. Returns how many are missing.
fn cut_piece(piece: &mut Piece<'_>, count: usize) -> usize
    ensures { (ts : _) → without_letters count (with_piece ts piece.old)
        ≡ with_piece (without_letters result ts) piece.new }
{
    match piece {
        Piece::Text { words, .. } => words.cut(count),
        _ => count,
    }
}

/// Cuts the white space at the end of the last text.
pub(crate) fn trim_end(pieces: &mut Vec<Piece<'_>>)
    ensures { pieces_view pieces.new.items ≡ without_letters
        (trailing (last_text (pieces_view pieces.old.items))) (pieces_view pieces.old.items) }
{
    let mut met = None;
    let mut i = pieces.len();
    while i > 0 {
        i -= 1;
        if !trim_piece(&mut pieces[i], &mut met) {
            return;
        }
    }
}

/// Cuts the white space at the end of a piece, as far as it is part of the last text. Returns whether more may stand before it;
/// `met` is how the characters of that text look, once one was met.
fn trim_piece(piece: &mut Piece<'_>, met: &mut Option<Formatting>) -> bool
    ensures { (ts : _) → trimmed_from met.old (with_piece ts piece.old)
        ≡ with_piece (if result then trimmed_from met.new ts else ts) piece.new }
{
    if text_in(piece, met).is_none() {
        return false;
    }
    trim_text(piece)
}

/// Cuts the white space at the end of a piece's text. Returns whether nothing of that is left.
fn trim_text(piece: &mut Piece<'_>) -> bool
    ensures { (xs : _) (ts : _)
        → without_letters (blanks (reverse (text_of piece.old) ++ xs)) (with_piece ts piece.old)
        ≡ with_piece (if result then without_letters (blanks xs) ts else ts) piece.new }
{
    match piece {
        Piece::Text { words, .. } => trim_words(words),
        _ => true,
    }
}

/// Cuts the white space at the end of a text. Returns whether nothing of it is left.
fn trim_words(words: &mut Words<'_>) -> bool
    ensures text { words_view words.new ≡ drop_trailing_whitespace (words_view words.old) }
    ensures empty { result ≡ not (is_filled (words_view words.new)) }
{
    words.trim_end();
    !has_text(words.as_str())
}

/// Where a character goes.
#[derive(Drop)]
pub(crate) enum CutPoint<'a> {
    /// Before the last of a piece's characters, which it stands before in a piece of its own.
    Here(Piece<'a>),
    /// Before so many characters of the pieces before.
    Before(usize),
}

/// Puts a character before the last ones of a page, so many of them, looking like the one after it.
pub(crate) fn put_before(
    pieces: &mut Vec<Piece<'_>>,
    count: usize,
    c: char,
) -> Result<(), AllocError>
    ensures { OnOk result (pieces_view pieces.new.items
        ≡ with_letter_before count c (pieces_view pieces.old.items)) }
{
    let alloc = *pieces.allocator();
    let mut rest = count;
    let mut i = pieces.len();
    while i > 0 {
        if rest == 0 {
            return Ok(());
        }
        i -= 1;
        match put_within(alloc, &mut pieces[i], rest, c)? {
            CutPoint::Here(piece) => {
                pieces.insert(i + 1, piece)?;
                return Ok(());
            }
            CutPoint::Before(missing) => rest = missing,
        }
    }
    Ok(())
}

/// Puts a character before the last ones of a piece, where it has so many. They are cut from it and stand in a piece of their
/// own.
fn put_within<'a>(
    alloc: Global,
    piece: &mut Piece<'a>,
    count: usize,
    c: char,
) -> Result<CutPoint<'a>, AllocError>
    requires { 0 < count }
    ensures { IfOk result (λ p. (ts : _) → with_letter_before count c (with_piece ts piece.old)
        ≡ with_cut c p (λ us. with_piece us piece.new) ts) }
{
    let Piece::Text { formatting, .. } = piece else {
        return Ok(CutPoint::Before(count));
    };
    let formatting = *formatting;
    match piece {
        Piece::Text { words, .. } => put_within_words(alloc, formatting, words, count, c),
        _ => Ok(CutPoint::Before(count)),
    }
}

/// Puts a character before the last ones of a text, where it has so many. They are cut from it and stand in a piece of their own.
fn put_within_words<'a>(
    alloc: Global,
    formatting: Formatting,
    words: &mut Words<'a>,
    count: usize,
    c: char,
) -> Result<CutPoint<'a>, AllocError>
    requires { 0 < count }
    ensures { IfOk result (λ p. (ts : _)
        → with_letter_before count c (with_letters formatting (words_view words.old) ts)
        ≡ with_cut c p (λ us. with_letters formatting (words_view words.new) us) ts) }
{
    let (back, missing) = back_of(words.as_str(), count);
    if missing > 0 {
        return Ok(CutPoint::Before(missing));
    }
    let mut text = empty_text(alloc);
    push_character(&mut text, c)?;
    push_text(&mut text, back)?;
    words.cut(count);
    Ok(CutPoint::Here(Piece::Text {
        formatting,
        words: Words::Made(text),
    }))
}

/// The last characters of a text, so many or all of them, and how many are missing.
fn back_of(text: &str, count: usize) -> (&str, usize)
    ensures { (leading : _) × IsCut (chars text.now) count leading (chars result.0.now) result.1 }
{
    let mut leading = text;
    let mut missing = count;
    while missing > 0 {
        let Some((_, before)) = split_last(leading) else {
            return (text, missing);
        };
        leading = before;
        missing -= 1;
    }
    let (_, back) = text.split_at(leading.len());
    (back, missing)
}
