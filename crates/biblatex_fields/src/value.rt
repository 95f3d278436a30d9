//! The values of fields: pieces are read in order, and abbreviations are opened.

ghost use Rattle.std.specs.Prelude.{◌≡◌, ℕ, List, [], map};
ghost use Rattle.std.specs.Str.{chars};
ghost use Rattle.biblatex_text.specs.Views.{field_view, piece_view};
ghost use Rattle.biblatex_content.specs.Spans.{spanned_so_far};
ghost use Rattle.biblatex_fields.specs.Abbreviations.{pieces_at};
ghost use Rattle.biblatex_fields.specs.Value.{in_order, read, field_value_view, value_in, value_of};
ghost use Rattle.biblatex_fields.specs.Errors.{refusal_of};
ghost use Rattle.laws.specs.Results.{Gives};
ghost use Rattle.laws.specs.Text.{lowered};

use crate::abbreviations::Abbreviations;
use crate::error::ParseError;
use crate::glossary::{Sense, lowered};
use crate::text::push_text;
use biblatex_content::{Chunks, Contents, is_verbatim_field};
use biblatex_text::{Pair, RawChunk, Spanned};
use std::alloc::Global;

impl<'r, 's> Abbreviations<'r, 's> {
    /// The contents with what the definition at the index gives after them.
    fn push_definition<'a>(
        &'a self,
        alloc: Global,
        is_verbatim: bool,
        mut contents: Contents,
        index: usize,
    ) -> Result<Contents, ParseError>
        ensures { Gives refusal_of spanned_so_far result (in_order (read self.now is_verbatim)
            (pieces_at self.now.definitions index) (spanned_so_far contents)) }
    {
        let mut frames = Vec::with_capacity(alloc, 1)?;
        frames.push(self.pieces(is_verbatim, index))?;
        while let Some(frame) = frames.pop() {
            let Some((next, rest)) = frame.split_first() else {
                continue;
            };
            frames.push(rest)?;
            match self.resolved_sense(alloc, next)? {
                Sense::Spelled(text) => {
                    contents = push_text(contents, is_verbatim, &next.raw.span, text)?;
                }
                Sense::Defined(index) => frames.push(self.pieces(is_verbatim, index))?,
            }
        }
        Ok(contents)
    }

    /// The contents with what the piece gives after them.
    fn push_piece(
        &self,
        alloc: Global,
        is_verbatim: bool,
        contents: Contents,
        raw: &Spanned<RawChunk<'s>>,
    ) -> Result<Contents, ParseError>
        ensures { Gives refusal_of spanned_so_far result
            (read self.now is_verbatim (piece_view raw.now) (spanned_so_far contents)) }
    {
        match self.sense(alloc, raw)? {
            Sense::Spelled(text) => push_text(contents, is_verbatim, &raw.span, text),
            Sense::Defined(index) => self.push_definition(alloc, is_verbatim, contents, index),
        }
    }

    /// What the pieces give, one after the other.
    fn contents(
        &self,
        alloc: Global,
        is_verbatim: bool,
        pieces: &[Spanned<RawChunk<'s>>],
    ) -> Result<Contents, ParseError>
        ensures { Gives refusal_of spanned_so_far result
            (in_order (read self.now is_verbatim) (map piece_view pieces.now) []) }
    {
        let mut contents = Contents::new(alloc);
        for raw in pieces.iter() {
            contents = self.push_piece(alloc, is_verbatim, contents, raw)?;
        }
        Ok(contents)
    }

    /// The value of a field of that name: what its pieces give, one after the other, tidied. A verbatim field reads all of
    /// them as verbatim, the pieces of abbreviations too. A chunk stands in the source from where the first piece begins that
    /// it has a character of to where the one ends that ends last; what an abbreviation gives stands in its definition, and
    /// a month where it is named.
    ///
    /// # Errors
    ///
    /// The first fault in the order of pieces. A name is found to be circular before its pieces are read.
    pub fn parse_field(
        &self,
        alloc: Global,
        key: &str,
        field: &[Spanned<RawChunk<'s>>],
    ) -> Result<Chunks, ParseError>
        ensures { Gives refusal_of (λ cs. field_value_view cs.items) result
            (value_in self.now (chars key.now) (map piece_view field.now)) }
    {
        let name = lowered(alloc, key)?;
        self.value_named(alloc, name.as_str(), field)
    }

    /// The value of a field of that name in lower case, as `parse_field` gives it.
    #[tactic(auto, using(crate::proofs::ValueWhole::value_given, crate::proofs::ValueWhole::value_refused))]
    pub(crate) fn value_named(
        &self,
        alloc: Global,
        name: &str,
        field: &[Spanned<RawChunk<'s>>],
    ) -> Result<Chunks, ParseError>
        ensures { (key : List ℕ) → name.now ≡ lowered key
            → Gives refusal_of (λ cs. field_value_view cs.items) result
            (value_in self.now key (map piece_view field.now)) }
    {
        let contents = self.contents(alloc, is_verbatim_field(name), field)?;
        Ok(contents.finish()?)
    }

    /// The value of the field, as `parse_field` gives it.
    ///
    /// # Errors
    ///
    /// Those of `parse_field`.
    pub fn read(&self, alloc: Global, pair: &Pair<'s>) -> Result<Chunks, ParseError>
        ensures { Gives refusal_of (λ cs. field_value_view cs.items) result
            (value_of self.now (field_view pair.now)) }
    {
        self.parse_field(alloc, pair.key.v, pair.value.v.as_slice())
    }
}
