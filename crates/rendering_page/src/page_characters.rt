//! The characters of a page, in the order of reading.

ghost use Rattle.std.specs.Prelude.{◌≡◌, ◌∷◌, ◌++◌, [], MatchOption, OnOk};
ghost use Rattle.std.specs.Str.{bytes_eq, chars};
ghost use Rattle.laws.specs.Text.{characters};
ghost use Rattle.rendering_page.specs.Cursors as specs;
ghost use Rattle.rendering_page.specs.Cursors.{to_come};
ghost use Rattle.rendering_page.specs.PageCharacters.{page_text};
ghost use Rattle.rendering_page.specs.Views.{pieces_view};

use crate::piece::Piece;
use std::alloc::AllocError;
use texts::{has_text, push_text, split_first};

/// The next character of a text and of the pieces from an index on, the index of the piece after it, and the text before that piece.
fn next<'p>(pieces: &'p [Piece<'_>], index: usize, text: &'p str) -> Option<(char, usize, &'p str)>
    ensures { MatchOption result (to_come pieces.now index (chars text.now) ≡ []) (λ x.
        to_come pieces.now index (chars text.now) ≡ x.0 ∷ to_come pieces.now x.1 (chars x.2.now)) }
{
    let mut index = index;
    let mut text = text;
    while !has_text(text) {
        if index >= pieces.len() {
            return None;
        }
        text = shown_of(&pieces[index]);
        index += 1;
    }
    let (c, rest) = split_first(text)?;
    Some((c, index, rest))
}

/// What a piece shows of itself.
fn shown_of<'p>(piece: &'p Piece<'_>) -> &'p str
    ensures { chars result.now ≡ specs.shown_of piece.now }
{
    match piece {
        Piece::Text { words, .. } => words.as_str(),
        Piece::Markup(text) => text.as_str(),
        Piece::Link(link) => link.text.as_str(),
        _ => "",
    }
}

/// Whether two pages show the same.
pub(crate) fn show_the_same(one: &[Piece<'_>], other: &[Piece<'_>]) -> bool
    ensures { result
        ≡ bytes_eq (page_text (pieces_view one.now)) (page_text (pieces_view other.now)) }
{
    let mut i = 0;
    let mut first = "";
    let mut k = 0;
    let mut second = "";
    while let Some((c, index, rest)) = next(one, i, first) {
        i = index;
        first = rest;
        match next(other, k, second) {
            Some((d, index, rest)) if c == d => {
                k = index;
                second = rest;
            }
            _ => return false,
        }
    }
    next(other, k, second).is_none()
}

/// Appends what pieces show.
pub(crate) fn push_shown(output: &mut String, pieces: &[Piece<'_>]) -> Result<(), AllocError>
    ensures { OnOk result (characters output.new
        ≡ characters output.old ++ page_text (pieces_view pieces.now)) }
{
    for piece in pieces {
        push_text(output, shown_of(piece))?;
    }
    Ok(())
}
