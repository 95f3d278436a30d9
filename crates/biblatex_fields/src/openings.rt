//! What is read of definitions instead of their pieces, so that nothing is opened that gives nothing: pieces that give nothing
//! are left out, and where one name is left, the pieces that it opens are read at once. A name that opens a definition is looked
//! up here, and not again where it is opened.

ghost use Rattle.std.specs.Prelude.{◌≡◌, ◌<◌, ◌∷◌, All, Bool, List, [], length, map, replicate, true, IfOk, IfSome, Ok};
ghost use Rattle.std.specs.Str.{chars};
ghost use Rattle.biblatex_text.specs.Raw.{At};
ghost use Rattle.biblatex_text.specs.Views.{piece_view};
ghost use Rattle.biblatex_content.specs.Styled.{Member};
ghost use Rattle.biblatex_fields.specs.Abbreviations.{sense};
ghost use Rattle.biblatex_fields.specs.Openings.{AreOpenings, AreResolved, Opens, OpensAlone, Replacement, pieces_of_opening, resolved_piece_view, resolved_at, sense_by, target, unresolved, unresolved_at};
ghost use Rattle.biblatex_fields.specs.Value.{text_read};
ghost use Rattle.biblatex_fields.specs.declared.openings.Opening.TheVariants.{Whole};

use crate::error::ParseError;
use crate::glossary::{Glossary, Sense};
use crate::text::push_text;
use biblatex_content::{Contents, Span};
use biblatex_text::{RawChunk, Spanned};
use std::alloc::{AllocError, Global};

/// A piece of a definition, and the definition that its name opens, if it opens one.
#[derive(Drop)]
pub(crate) struct ResolvedPiece<'s> {
    pub raw: Spanned<RawChunk<'s>>,
    pub index: Option<usize>,
}

/// What is read instead of the pieces of a definition.
#[derive(Drop)]
pub(crate) enum Opening<'s> {
    /// The pieces themselves.
    Whole,
    /// Those of the pieces that give something.
    Part(Vec<ResolvedPiece<'s>>),
    /// What is read of the definition at the index.
    SameAs(usize),
}

/// Whether a text gives nothing in a field of that kind. A text without a brace or a backslash gives something, if it has
/// a character, and is not read for this.
fn is_empty_text(
    alloc: Global,
    is_verbatim: bool,
    span: &Span,
    text: &str,
) -> Result<bool, AllocError>
    ensures { IfOk result (λ b. b ≡ true → (done : List (At Member))
        → text_read is_verbatim span.now.start span.now.end (chars text.now) done ≡ Ok done) }
{
    if !text.is_empty() && !text.contains(['\\', '{', '}']) {
        return Ok(false);
    }
    match push_text(Contents::new(alloc), is_verbatim, span, text) {
        Ok(contents) => Ok(contents.is_empty()),
        Err(ParseError::Memory) => Err(AllocError),
        Err(ParseError::Refused { .. }) => Ok(false),
    }
}

/// The definition of which pieces are read instead of those of the one at the index.
fn target(openings: &[Opening], index: usize) -> usize
    ensures { result ≡ target openings.now index }
{
    match openings.get(index) {
        Some(Opening::SameAs(other)) => *other,
        _ => index,
    }
}

/// All pieces of the definition at the index.
fn resolved_at<'a, 's>(
    resolved: &'a [Vec<ResolvedPiece<'s>>],
    index: usize,
) -> &'a [ResolvedPiece<'s>]
    ensures { map resolved_piece_view result.now ≡ resolved_at resolved.now index }
{
    resolved
        .get(index)
        .map(|pieces| pieces.as_slice())
        .unwrap_or_default()
}

/// Those pieces of the definition at the index that are read.
fn pieces_of_opening<'a, 's>(
    openings: &'a [Opening<'s>],
    resolved: &'a [Vec<ResolvedPiece<'s>>],
    index: usize,
) -> &'a [ResolvedPiece<'s>]
    ensures { map resolved_piece_view result.now
        ≡ pieces_of_opening openings.now resolved.now index }
{
    match openings.get(index) {
        Some(Opening::Part(kept)) => kept.as_slice(),
        _ => resolved_at(resolved, index),
    }
}

/// The openings of `count` definitions of which all pieces are read.
fn all_whole<'s>(alloc: Global, count: usize) -> Result<Vec<Opening<'s>>, AllocError>
    ensures { IfOk result (λ v. v.items ≡ replicate count Whole) }
{
    let mut openings = Vec::with_capacity(alloc, count)?;
    for _ in 0..count {
        openings.push(Opening::Whole)?;
    }
    Ok(openings)
}

/// The definition that the one piece that there is opens, if it opens one.
fn opened_alone(pieces: &[ResolvedPiece]) -> Option<usize>
    ensures { IfSome result (OpensAlone (map resolved_piece_view pieces.now)) }
{
    match pieces {
        [piece] => piece.index,
        _ => None,
    }
}

impl<'r, 's> Glossary<'r, 's> {
    /// The definition that the piece opens, if it opens one.
    fn index_opened(
        &self,
        alloc: Global,
        raw: &Spanned<RawChunk<'s>>,
    ) -> Result<Option<usize>, AllocError>
        ensures { IfOk result (λ index. sense_by self.now (piece_view raw.now) index
            ≡ sense self.now (piece_view raw.now)) }
    {
        match self.sense(alloc, raw) {
            Ok(Sense::Defined(index)) => Ok(Some(index)),
            Err(ParseError::Memory) => Err(AllocError),
            Ok(Sense::Spelled(_)) | Err(ParseError::Refused { .. }) => Ok(None),
        }
    }

    /// Pieces, with the definitions that their names open.
    fn resolve(
        &self,
        alloc: Global,
        raws: &[Spanned<RawChunk<'s>>],
    ) -> Result<Vec<ResolvedPiece<'s>>, AllocError>
        ensures { (is_verbatim : Bool) → IfOk result (λ v. Replacement self.now is_verbatim
            (map resolved_piece_view v.items) (map unresolved (map piece_view raws.now))) }
    {
        let mut pieces = Vec::with_capacity(alloc, raws.len())?;
        for raw in raws.iter() {
            let index = self.index_opened(alloc, raw)?;
            let raw = Spanned::new(raw.v, raw.span.start..raw.span.end);
            pieces.push(ResolvedPiece { raw, index })?;
        }
        Ok(pieces)
    }

    /// The pieces of each definition, with the definitions that their names open.
    pub fn resolved(&self, alloc: Global) -> Result<Vec<Vec<ResolvedPiece<'s>>>, AllocError>
        ensures { IfOk result (λ v. AreResolved self.now v.items) }
    {
        let mut resolved = Vec::with_capacity(alloc, self.definitions.len())?;
        for definition in self.definitions.iter() {
            resolved.push(self.resolve(alloc, definition.value.v.as_slice())?)?;
        }
        Ok(resolved)
    }

    /// What is read of the definition at the index.
    #[tactic(auto, using(crate::proofs::OpeningsReplacements::replacement_read))]
    pub fn pieces<'a>(
        &self,
        is_verbatim: bool,
        resolved: &'a [Vec<ResolvedPiece<'s>>],
        openings: &'a [Opening<'s>],
        index: usize,
    ) -> &'a [ResolvedPiece<'s>]
        requires resolved { AreResolved self.now resolved.now }
        requires openings { AreOpenings self.now is_verbatim resolved.now openings.now }
        ensures { Replacement self.now is_verbatim (map resolved_piece_view result.now)
            (unresolved_at self.now.definitions index) }
    {
        pieces_of_opening(openings, resolved, target(openings, index))
    }

    /// Whether the piece gives nothing.
    fn is_empty_piece(
        &self,
        alloc: Global,
        is_verbatim: bool,
        resolved: &[Vec<ResolvedPiece<'s>>],
        openings: &[Opening<'s>],
        piece: &ResolvedPiece<'s>,
    ) -> Result<bool, AllocError>
        requires resolved { AreResolved self.now resolved.now }
        requires openings { AreOpenings self.now is_verbatim resolved.now openings.now }
        ensures { IfOk result (λ b. b ≡ true
            → Replacement self.now is_verbatim [] (resolved_piece_view piece.now ∷ [])) }
    {
        match (piece.index, piece.raw.v) {
            (Some(index), _) => {
                Ok(
                    self.pieces(is_verbatim, resolved, openings, index)
                        .is_empty(),
                )
            }
            (None, RawChunk::Normal(text)) => {
                is_empty_text(alloc, is_verbatim, &piece.raw.span, text)
            }
            (None, RawChunk::Abbreviation(_)) => Ok(false),
        }
    }

    /// The pieces without those that give nothing.
    fn without_empty(
        &self,
        alloc: Global,
        is_verbatim: bool,
        resolved: &[Vec<ResolvedPiece<'s>>],
        openings: &[Opening<'s>],
        pieces: &[ResolvedPiece<'s>],
    ) -> Result<Vec<ResolvedPiece<'s>>, AllocError>
        requires resolved { AreResolved self.now resolved.now }
        requires openings { AreOpenings self.now is_verbatim resolved.now openings.now }
        ensures { IfOk result (λ v. Replacement self.now is_verbatim
            (map resolved_piece_view v.items) (map resolved_piece_view pieces.now)) }
    {
        let mut kept = Vec::new(alloc);
        for piece in pieces.iter() {
            if self.is_empty_piece(alloc, is_verbatim, resolved, openings, piece)? {
                continue;
            }
            let raw = Spanned::new(piece.raw.v, piece.raw.span.start..piece.raw.span.end);
            kept.push(ResolvedPiece {
                raw,
                index: piece.index,
            })?;
        }
        Ok(kept)
    }

    /// What is read instead of the pieces of the definition at the index.
    #[tactic(auto, using(crate::proofs::OpeningsReplacements::opens_part, crate::proofs::OpeningsReplacements::opens_whole, crate::proofs::OpeningsReplacements::opens_same))]
    fn opening(
        &self,
        alloc: Global,
        is_verbatim: bool,
        resolved: &[Vec<ResolvedPiece<'s>>],
        openings: &[Opening<'s>],
        index: usize,
    ) -> Result<Opening<'s>, AllocError>
        requires resolved { AreResolved self.now resolved.now }
        requires openings { AreOpenings self.now is_verbatim resolved.now openings.now }
        ensures { IfOk result (λ o. Opens self.now is_verbatim resolved.now o index) }
    {
        let pieces = resolved_at(resolved, index);
        let kept = self.without_empty(alloc, is_verbatim, resolved, openings, pieces)?;
        if let Some(other) = opened_alone(kept.as_slice()) {
            return Ok(Opening::SameAs(target(openings, other)));
        }
        if kept.len() == pieces.len() {
            return Ok(Opening::Whole);
        }
        Ok(Opening::Part(kept))
    }

    /// What is read instead of the pieces of each definition in fields of that kind. Where each definition stands in the order
    /// after those that its pieces name, nothing is read that gives nothing.
    #[tactic(auto, using(crate::proofs::OpeningsReplacements::openings_whole, crate::proofs::OpeningsReplacements::openings_set))]
    pub fn openings(
        &self,
        alloc: Global,
        is_verbatim: bool,
        resolved: &[Vec<ResolvedPiece<'s>>],
        order: &[usize],
    ) -> Result<Vec<Opening<'s>>, AllocError>
        requires resolved { AreResolved self.now resolved.now }
        requires order { All (λ index. index < length self.now.definitions) order.now }
        ensures { IfOk result (λ v. AreOpenings self.now is_verbatim resolved.now v.items) }
    {
        let mut openings = all_whole(alloc, self.definitions.len())?;
        for &index in order {
            openings[index] = self.opening(alloc, is_verbatim, resolved, &openings, index)?;
        }
        Ok(openings)
    }
}
