//! Whether something was printed since something began, and where that is.

ghost use Rattle.std.specs.Prelude.{◌≡◌, ◌∷◌, ◌≤◌, not, true, List, ℕ, OnOk};
ghost use Rattle.std.specs.Char.{is_whitespace};
ghost use Rattle.std.specs.List.{list_any};
ghost use Rattle.rendering_page.specs.Marks as specs;
ghost use Rattle.rendering_page.specs.Marks.{before_open, closes, first_part, known_to_print, opens, prints_itself, with_part};
ghost use Rattle.rendering_page.specs.Pages.{before_mark, before_prefix, in_manner, is_begun, prints};
ghost use Rattle.rendering_page.specs.Views as views;
ghost use Rattle.rendering_page.specs.Views.{words_view, pieces_view};
ghost use Rattle.rendering_tree.specs.Tokens.{Token, with_letters};

use crate::manner::Manner;
use crate::piece::{Piece, Words};
use rendering_cases::applies;
use std::alloc::AllocError;
use texts::has_text;

/// Whether what began last has printed anything but white space.
pub(crate) fn prints(pieces: &Vec<Piece<'_>>) -> bool
    ensures { result ≡ prints 0 (pieces_view pieces.now.items) }
{
    let mut closed: usize = 0;
    let mut i = pieces.len();
    while i > 0 {
        i -= 1;
        let piece = &pieces[i];
        if prints_itself(piece) {
            return true;
        }
        let opened = opens(piece);
        if closed < opened {
            return false;
        }
        closed = closed - opened + closes(piece);
    }
    false
}

/// Cuts all from the mark on where what began last begins.
pub(crate) fn cut_to_mark(pieces: &mut Vec<Piece<'_>>) -> Result<(), AllocError>
    ensures { OnOk result (pieces_view pieces.new.items
        ≡ before_mark 0 (pieces_view pieces.old.items)) }
{
    let mut closed: usize = 0;
    while let Some(piece) = pieces.pop() {
        let opened = opens(&piece);
        if closed < opened {
            return put_part(pieces, before_open(piece, closed));
        }
        closed = closed - opened + closes(&piece);
    }
    Ok(())
}

/// Cuts all from where an element begins on of which there is only the prefix.
pub(crate) fn cut_prefix(pieces: &mut Vec<Piece<'_>>) -> Result<(), AllocError>
    ensures { OnOk result (pieces_view pieces.new.items
        ≡ before_prefix (pieces_view pieces.old.items)) }
{
    while let Some(piece) = pieces.pop() {
        if is_first(&piece) {
            return put_part(pieces, first_part(piece));
        }
    }
    Ok(())
}

/// Puts a part of a piece back, if there is one.
fn put_part<'a>(pieces: &mut Vec<Piece<'a>>, part: Option<Piece<'a>>) -> Result<(), AllocError>
    ensures { OnOk result (pieces_view pieces.new.items
        ≡ with_part (pieces_view pieces.old.items) part.entry) }
{
    match part {
        Some(part) => {
            pieces.push(part)?;
            Ok(())
        }
        None => Ok(()),
    }
}

/// What of a piece stands before its mark that is open, after so many that are closed.
fn before_open(piece: Piece<'_>, closed: usize) -> Option<Piece<'_>>
    ensures { result ≡ before_open piece.entry closed }
{
    if closed == 0 { first_part(piece) } else { None }
}

/// What of a piece stands before its last mark, if it has one.
fn first_part(piece: Piece<'_>) -> Option<Piece<'_>>
    ensures { result ≡ first_part piece.entry }
{
    match piece {
        Piece::Begin { display, meta } => Some(Piece::Opening { display, meta }),
        Piece::MadeBegin { display, meta } => Some(Piece::MadeOpening { display, meta }),
        Piece::BareBegin => Some(Piece::Mark),
        _ => None,
    }
}

/// Whether an element may begin with a piece.
fn is_first(piece: &Piece<'_>) -> bool
    ensures { result ≡ specs.is_first piece.now }
{
    matches!(
        piece,
        Piece::Opening { .. }
            | Piece::MadeOpening { .. }
            | Piece::Mark
            | Piece::Begin { .. }
            | Piece::MadeBegin { .. }
            | Piece::BareBegin
    )
}

/// How many marks a piece has where something begins.
fn opens(piece: &Piece<'_>) -> usize
    ensures { result ≡ opens piece.now }
{
    match piece {
        Piece::Mark | Piece::Begin { .. } | Piece::MadeBegin { .. } => 1,
        Piece::BareBegin => 2,
        _ => 0,
    }
}

/// How many marks a piece has where something ends.
fn closes(piece: &Piece<'_>) -> usize
    ensures marks { result ≡ closes piece.now }
    ensures few { result ≤ 2 }
{
    match piece {
        Piece::Unmark | Piece::End => 1,
        Piece::BareEnd => 2,
        _ => 0,
    }
}

/// Whether a piece prints more than white space.
fn prints_itself(piece: &Piece<'_>) -> bool
    ensures { result ≡ prints_itself piece.now }
{
    match piece {
        Piece::Text { words, .. } => prints_words(words),
        Piece::Markup(_) | Piece::Link(_) | Piece::Transparent { .. } => true,
        _ => false,
    }
}

/// Whether a text is more than white space.
fn prints_words(words: &Words<'_>) -> bool
    ensures { result ≡ list_any (λ c. not (is_whitespace c)) (words_view words.now) }
{
    words.as_str().chars().any(|c| !c.is_whitespace())
}

/// Whether a text is known to print by the character that it begins with, without a look at the others.
#[tactic(auto, using(crate::proofs::PagesMarks::known_by))]
pub(crate) fn is_known_by(manner: Manner, first: char) -> bool
    ensures { (cs : List ℕ) (ts : List Token) → known_to_print result
        (with_letters manner.formatting (in_manner (views.manner_view manner) (first ∷ cs)) ts)
        ≡ true }
{
    let is_cased = applies(manner.text_case, manner.is_english);
    !manner.strips_periods && (!is_cased && !first.is_whitespace())
}

/// Whether anything was appended.
pub(crate) fn is_begun(pieces: &[Piece<'_>]) -> bool
    ensures { result ≡ is_begun (pieces_view pieces.now) }
{
    pieces.iter().any(|piece| is_something(piece))
}

/// Whether a piece is something that was appended, and not only marked.
fn is_something(piece: &Piece<'_>) -> bool
    ensures { result ≡ specs.is_something piece.now }
{
    match piece {
        Piece::Text { words, .. } => has_text(words.as_str()),
        Piece::BareBegin | Piece::BareEnd | Piece::Mark | Piece::Unmark => false,
        _ => true,
    }
}
