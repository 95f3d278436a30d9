//! Copies of pieces.

ghost use Rattle.std.specs.Prelude.{◌≡◌, List, IfOk};
ghost use Rattle.rendering_tree.specs.Tokens.{Token};
ghost use Rattle.rendering_page.specs.Views.{words_view, link_view, with_piece, pieces_view};

use crate::piece::{Link, Piece, Words};
use std::alloc::AllocError;

impl<'a> Clone for Words<'a> {
    ghost is_clone = { λ v w. words_view w ≡ words_view v };

    fn clone(&self) -> Result<Words<'a>, AllocError> {
        match self {
            Words::Borrowed(text) => Ok(Words::Borrowed(*text)),
            Words::Made(text) => Ok(Words::Made(text.clone()?)),
        }
    }
}

impl<'a> Clone for Link<'a> {
    ghost is_clone = { λ l k. link_view k ≡ link_view l };

    fn clone(&self) -> Result<Link<'a>, AllocError> {
        Ok(Link {
            formatting: self.formatting,
            text: self.text.clone()?,
            url: self.url.clone()?,
        })
    }
}

impl<'a> Clone for Piece<'a> {
    ghost is_clone = { λ p q. (ts : List Token) → with_piece ts q ≡ with_piece ts p };

    fn clone(&self) -> Result<Piece<'a>, AllocError> {
        match self {
            Piece::Text { formatting, words } => Ok(Piece::Text {
                formatting: *formatting,
                words: words.clone()?,
            }),
            Piece::Markup(text) => Ok(Piece::Markup(text.clone()?)),
            Piece::Link(link) => Ok(Piece::Link(link.clone()?)),
            Piece::Transparent {
                formatting,
                cite_idx,
            } => Ok(Piece::Transparent {
                formatting: *formatting,
                cite_idx: *cite_idx,
            }),
            Piece::Opening { display, meta } => Ok(Piece::Opening {
                display: *display,
                meta: *meta,
            }),
            Piece::MadeOpening { display, meta } => Ok(Piece::MadeOpening {
                display: *display,
                meta: meta.clone()?,
            }),
            Piece::Begin { display, meta } => Ok(Piece::Begin {
                display: *display,
                meta: *meta,
            }),
            Piece::MadeBegin { display, meta } => Ok(Piece::MadeBegin {
                display: *display,
                meta: meta.clone()?,
            }),
            Piece::BareBegin => Ok(Piece::BareBegin),
            Piece::End => Ok(Piece::End),
            Piece::BareEnd => Ok(Piece::BareEnd),
            Piece::Closing => Ok(Piece::Closing),
            Piece::Mark => Ok(Piece::Mark),
            Piece::Unmark => Ok(Piece::Unmark),
        }
    }
}

/// A copy of pieces.
pub(crate) fn copied_pieces<'a>(pieces: &Vec<Piece<'a>>) -> Result<Vec<Piece<'a>>, AllocError>
    ensures { IfOk result (λ v. pieces_view v.items ≡ pieces_view pieces.now.items) }
{
    let mut copies = Vec::with_capacity(*pieces.allocator(), pieces.len())?;
    for piece in pieces {
        copies.push(piece.clone()?)?;
    }
    Ok(copies)
}
