//! The last text of a page, read from its end: the last character and those before it that look like it, whatever begins or
//! ends after them.

ghost use Rattle.std.specs.Prelude.{◌≡◌, ◌++◌, [], true, false, reverse, IfSome, MatchOption, None as none};
ghost use Rattle.std.specs.Option.{option_map_or};
ghost use Rattle.std.specs.Str.{chars};
ghost use Rattle.rendering_tree.specs.Tokens.{last_backwards, last_text, with_letters};
ghost use Rattle.rendering_page.specs.Tail.{ends_in};
ghost use Rattle.rendering_page.specs.Joints.{first};
ghost use Rattle.rendering_page.specs.Pages.{ends_spaced};
ghost use Rattle.rendering_page.specs.Views.{with_piece, pieces_view};
ghost use Rattle.rendering_page.specs.Cursors.{backwards_from, begins, parts, text_of};

use crate::piece::{Piece, looks_like, split_last};
use rendering_taxonomy::Formatting;
use texts::has_text;

/// What of a piece is part of the last text; none where that ends. `met` is how its characters look, once one was met.
pub(crate) fn text_in<'p>(piece: &'p Piece<'_>, met: &mut Option<Formatting>) -> Option<&'p str>
    ensures backwards { (ts : _) → backwards_from met.old (with_piece ts piece.now)
        ≡ option_map_or (λ t. reverse (chars t.now) ++ backwards_from met.new ts) result [] }
    ensures whole { IfSome result (λ t. chars t.now ≡ text_of piece.now) }
{
    match piece {
        Piece::Text { formatting, words } => text_that_goes_on(*formatting, words.as_str(), met),
        Piece::Opening { .. }
        | Piece::MadeOpening { .. }
        | Piece::Begin { .. }
        | Piece::MadeBegin { .. }
        | Piece::End
        | Piece::Closing => text_before_all(*met),
        Piece::Mark | Piece::Unmark | Piece::BareBegin | Piece::BareEnd => Some(""),
        Piece::Markup(_) | Piece::Link(_) | Piece::Transparent { .. } => None,
    }
}

/// The text, where it is part of the last text; none where it looks otherwise. `met` is how characters look, once one was met.
fn text_that_goes_on<'p>(
    formatting: Formatting,
    text: &'p str,
    met: &mut Option<Formatting>,
) -> Option<&'p str>
    ensures backwards { (ts : _)
        → backwards_from met.old (with_letters formatting (chars text.now) ts)
        ≡ option_map_or (λ t. reverse (chars t.now) ++ backwards_from met.new ts) result [] }
    ensures whole { IfSome result (λ t. t.now ≡ text.now) }
{
    if !has_text(text) {
        return Some(text);
    }
    if parts(*met, formatting) {
        return None;
    }
    *met = Some(formatting);
    Some(text)
}

/// An empty text for the start or the end of an element, where nothing of the last text was met; else none.
fn text_before_all(met: Option<Formatting>) -> Option<&'static str>
    ensures { MatchOption result (met ≡ none → ⊥) (λ t. (chars t.now ≡ []) × (met ≡ none)) }
{
    match met {
        Some(_) => None,
        None => Some(""),
    }
}

/// Whether a text that looks so stands apart from one of which a character was met.
fn parts(met: Option<Formatting>, formatting: Formatting) -> bool
    ensures { result ≡ parts met formatting }
{
    match met {
        Some(met) => !looks_like(met, formatting),
        None => false,
    }
}

/// What is left of an end before a text that is read from its end; none where they differ.
fn end_before<'e>(end: &'e str, text: &str) -> Option<&'e str>
    ensures { (xs : _) → begins (reverse (chars end.now)) (reverse (chars text.now) ++ xs)
        ≡ option_map_or (λ r. begins (reverse (chars r.now)) xs) result false }
{
    let mut end = end;
    let mut rest = text;
    while let Some((c, leading)) = split_last(rest) {
        match split_last(end) {
            Some((last, before)) if last == c => end = before,
            Some(_) => return None,
            None => return Some(end),
        }
        rest = leading;
    }
    Some(end)
}

/// Whether the last text ends in that.
#[tactic(auto, using(crate::proofs::TailEnds::nothing_ends))]
pub(crate) fn ends_in(pieces: &[Piece<'_>], end: &str) -> bool
    ensures { result ≡ ends_in (chars end.now) (last_text (pieces_view pieces.now)) }
{
    if !has_text(end) {
        return true;
    }
    ends_in_text(pieces, end)
}

/// Whether the last text, which is read from its end piece by piece, ends in that.
fn ends_in_text(pieces: &[Piece<'_>], end: &str) -> bool
    ensures { result ≡ ends_in (chars end.now) (last_text (pieces_view pieces.now)) }
{
    let mut met = None;
    let mut rest = end;
    let mut i = pieces.len();
    while i > 0 {
        if !has_text(rest) {
            return true;
        }
        i -= 1;
        let Some(text) = text_in(&pieces[i], &mut met) else {
            return false;
        };
        let Some(before) = end_before(rest, text) else {
            return false;
        };
        rest = before;
    }
    !has_text(rest)
}

/// Whether the last text ends in a space, be it one that does not break.
pub(crate) fn ends_spaced(pieces: &[Piece<'_>]) -> bool
    ensures { result ≡ ends_spaced (last_backwards (pieces_view pieces.now)) }
{
    matches!(last_character(pieces), Some(' ' | '\u{a0}'))
}

/// The last character of the last text.
pub(crate) fn last_character(pieces: &[Piece<'_>]) -> Option<char>
    ensures { result ≡ first (last_backwards (pieces_view pieces.now)) }
{
    let mut met = None;
    let mut i = pieces.len();
    while i > 0 {
        i -= 1;
        let text = text_in(&pieces[i], &mut met)?;
        if let Some((c, _)) = split_last(text) {
            return Some(c);
        }
    }
    None
}
