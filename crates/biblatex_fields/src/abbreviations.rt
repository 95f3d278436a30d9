//! Abbreviations: what their names mean, and what is read where they are opened.

ghost use Rattle.std.specs.Prelude.{◌≡◌, map, false, true, IfOk};
ghost use Rattle.biblatex_text.specs.Views.{field_view, piece_view};
ghost use Rattle.biblatex_fields.specs.Abbreviations.{Glossary, AreFlags, sense};
ghost use Rattle.biblatex_fields.specs.Openings.{AreOpenings, AreResolved, Replacement, resolved_piece_view, resolved_sense, unresolved_at};
ghost use Rattle.biblatex_fields.specs.Value.{ReadsByTheRule};
ghost use Rattle.biblatex_fields.specs.Errors.{refusal_of};
ghost use Rattle.biblatex_fields.specs.Views.{sense_view};
ghost use Rattle.laws.specs.Results.{Gives};

use crate::error::ParseError;
use crate::glossary::{Glossary, Sense, indices_of};
use crate::openings::{Opening, ResolvedPiece};
use crate::references::{circular_in, order_of};
use biblatex_text::{Pair, RawChunk, Spanned};
use std::alloc::{AllocError, Global};
use std::marker::Model;

/// The abbreviations of a text. Names are compared without ASCII case, and the last definition of a name counts; the names
/// `jan` to `dec` stand for the months' English names where they have no definition.
#[derive(Drop)]
pub struct Abbreviations<'r, 's> {
    glossary: Glossary<'r, 's>,
    /// The pieces of each definition.
    resolved: Vec<Vec<ResolvedPiece<'s>>>,
    /// What is read in ordinary fields instead of the pieces of each definition.
    ordinary: Vec<Opening<'s>>,
    /// The same in verbatim fields.
    verbatim: Vec<Opening<'s>>,
}

impl<'r, 's> Model for Abbreviations<'r, 's> {
    ghost Value = { Glossary };

    ghost view = { λ a. a.glossary };

    ghost invariant = { λ a. AreResolved a.glossary a.resolved.items
        × AreOpenings a.glossary false a.resolved.items a.ordinary.items
        × AreOpenings a.glossary true a.resolved.items a.verbatim.items };
}

impl<'r, 's> Abbreviations<'r, 's> {
    /// The abbreviations in the order of their text.
    pub fn new(
        alloc: Global,
        definitions: &'r [Pair<'s>],
    ) -> Result<Abbreviations<'r, 's>, AllocError>
        ensures definitions { IfOk result (λ a. a.definitions ≡ map field_view definitions.now) }
        ensures flags { IfOk result (λ a. AreFlags a.flags a.definitions) }
        ensures rule { IfOk result ReadsByTheRule }
    {
        let indices = indices_of(alloc, definitions)?;
        let order = order_of(alloc, &indices, definitions)?;
        let circular = circular_in(alloc, &order, definitions.len())?;
        let glossary = Glossary {
            definitions,
            indices,
            circular,
        };
        let resolved = glossary.resolved(alloc)?;
        let ordinary = glossary.openings(alloc, false, &resolved, order.order())?;
        let verbatim = glossary.openings(alloc, true, &resolved, order.order())?;
        Ok(Abbreviations {
            glossary,
            resolved,
            ordinary,
            verbatim,
        })
    }

    /// What the piece stands for.
    pub(crate) fn sense(
        &self,
        alloc: Global,
        raw: &Spanned<RawChunk<'s>>,
    ) -> Result<Sense<'s>, ParseError>
        ensures sense { Gives refusal_of (sense_view self.now.definitions) result
            (sense self.now (piece_view raw.now)) }
        ensures flags { AreFlags self.now.flags self.now.definitions }
    {
        self.glossary.sense(alloc, raw)
    }

    /// What the piece of a definition stands for.
    pub(crate) fn resolved_sense(
        &self,
        alloc: Global,
        piece: &ResolvedPiece<'s>,
    ) -> Result<Sense<'s>, ParseError>
        ensures { Gives refusal_of (sense_view self.now.definitions) result
            (resolved_sense self.now (resolved_piece_view piece.now)) }
    {
        match piece.index {
            Some(index) => Ok(Sense::Defined(index)),
            None => self.sense(alloc, &piece.raw),
        }
    }

    /// What is read of the definition at the index.
    pub(crate) fn pieces<'a>(&'a self, is_verbatim: bool, index: usize) -> &'a [ResolvedPiece<'s>]
        ensures replaced { Replacement self.now is_verbatim
            (map resolved_piece_view result.now) (unresolved_at self.now.definitions index) }
        ensures flags { AreFlags self.now.flags self.now.definitions }
    {
        let openings = if is_verbatim {
            self.verbatim.as_slice()
        } else {
            self.ordinary.as_slice()
        };
        self.glossary
            .pieces(is_verbatim, &self.resolved, openings, index)
    }
}
