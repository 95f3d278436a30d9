//! The content of a field while its pieces are read.

ghost use Rattle.std.specs.Prelude.{◌≡◌, ◌↔◌, ◌++◌, [], true, map, IfOk, IsTrue, OnOk};
ghost use Rattle.std.specs.Str.{chars};
ghost use Rattle.biblatex_content.specs.declared.chunk.Kind.TheVariants.{Normal, Verbatim};
ghost use Rattle.biblatex_content.specs.Styled.{letters};
ghost use Rattle.biblatex_content.specs.Ordinary.{ordinary};
ghost use Rattle.biblatex_content.specs.Parted.{are_parted};
ghost use Rattle.biblatex_content.specs.Spans.{all_at, placed, spanned_so_far, after_at, tidied_at, chunk_spans, member_spans};
ghost use Rattle.biblatex_content.specs.Tidy.{tidied};
ghost use Rattle.biblatex_content.specs.Verbatim.{verbatim_text};
ghost use Rattle.biblatex_content.specs.Views.{so_far, styled, members, following};
ghost use Rattle.biblatex_tex.specs.Results.{refusal_of};
ghost use Rattle.laws.specs.Results.{Gives};

use crate::chunk::{Chunk, Chunks, Kind, Span};
use crate::joining::chunk_of;
use crate::ordinary::{dashed, is_plain, read_ordinary};
use crate::parted::is_full;
use crate::tidy::{are_done, tidy};
use crate::verbatim::{is_literal, read_verbatim};
use biblatex_tex::ContentError;
use biblatex_text::Spanned;
use std::alloc::{AllocError, Global};

/// Gives each of the chunks the span.
fn place_all(chunks: &mut Chunks, span: &Span)
    ensures { chunks.new.items ≡ map (placed span.now.start span.now.end) chunks.old.items }
{
    for place in 0..chunks.len() {
        let chunk = &mut chunks[place];
        chunk.span = span.start..span.end;
    }
}

/// The content of a field, as far as its pieces have been read: the chunks of each piece, with its span.
#[derive(Drop)]
pub struct Contents {
    alloc: Global,
    chunks: Chunks,
}

impl Contents {
    /// Contents of which nothing has been read.
    pub fn new(alloc: Global) -> Contents
        ensures so_far { so_far result ≡ [] }
        ensures spanned { spanned_so_far result ≡ [] }
    {
        Contents {
            alloc,
            chunks: Vec::new(alloc),
        }
    }

    /// Whether the pieces that have been read give nothing; a blank counts, also where tidying drops it.
    pub fn is_empty(&self) -> bool
        ensures { IsTrue result ↔ (spanned_so_far self.now ≡ []) }
    {
        for chunk in self.chunks.as_slice() {
            if is_full(&chunk.v) {
                return false;
            }
        }
        true
    }

    /// Appends a chunk of a piece at the span.
    fn push_chunk(&mut self, span: &Span, chunk: Chunk) -> Result<(), AllocError>
        ensures styled { OnOk result (so_far self.new ≡ so_far self.old ++ members chunk) }
        ensures spanned { OnOk result (spanned_so_far self.new
            ≡ spanned_so_far self.old ++ all_at span.now.start span.now.end (members chunk)) }
    {
        if self.chunks.is_empty() {
            self.chunks.reserve_exact(1)?;
        }
        Ok(self.chunks.push(Spanned::new(chunk, span.start..span.end))?)
    }

    /// Makes room for `count` more chunks.
    fn make_room(&mut self, count: usize) -> Result<(), AllocError>
        ensures styled { OnOk result (so_far self.new ≡ so_far self.old) }
        ensures spanned { OnOk result (spanned_so_far self.new ≡ spanned_so_far self.old) }
    {
        self.chunks.reserve(count)
    }

    /// Appends the chunks of a piece at the span after those of others.
    fn append_chunks(&mut self, span: &Span, chunks: Chunks) -> Result<(), AllocError>
        ensures styled { OnOk result (so_far self.new ≡ so_far self.old ++ styled chunks.items) }
        ensures spanned { OnOk result (spanned_so_far self.new
            ≡ spanned_so_far self.old ++ all_at span.now.start span.now.end (styled chunks.items)) }
    {
        self.make_room(chunks.len())?;
        for chunk in chunks {
            self.push_chunk(span, chunk.v)?;
        }
        Ok(())
    }

    /// Appends the chunks of a piece at the span. Those of the first piece are not moved.
    fn push_chunks(&mut self, span: &Span, mut chunks: Chunks) -> Result<(), AllocError>
        ensures styled { OnOk result (so_far self.new ≡ so_far self.old ++ styled chunks.items) }
        ensures spanned { OnOk result (spanned_so_far self.new
            ≡ spanned_so_far self.old ++ all_at span.now.start span.now.end (styled chunks.items)) }
    {
        if !self.chunks.is_empty() {
            return self.append_chunks(span, chunks);
        }
        place_all(&mut chunks, span);
        self.chunks = chunks;
        Ok(())
    }

    /// Appends a piece whose characters stand for themselves, in the kind.
    fn push_plain(&mut self, kind: Kind, piece: Spanned<&str>) -> Result<(), AllocError>
        ensures styled { OnOk result (so_far self.new
            ≡ so_far self.old ++ letters kind (chars piece.entry.v.now)) }
        ensures spanned { OnOk result (spanned_so_far self.new ≡ spanned_so_far self.old ++ all_at
            piece.entry.span.start piece.entry.span.end (letters kind (chars piece.entry.v.now))) }
    {
        let text = String::from_str(self.alloc, piece.v)?;
        self.push_chunk(&piece.span, chunk_of(kind, text))
    }

    /// These contents with what a piece of an ordinary field gives after them. `---`, `--` and `~` are dashes and a
    /// no-break space. A backslash before one of `{ } # & % $ _` gives that character, and before a backslash or a
    /// blank a space; `\,` gives a thin space, `\-` and `\/` nothing; an accent is composed with its argument; a
    /// command of letters is a character or is passed over; a backslash before another character gives that character.
    /// A group is verbatim unless it is an argument, follows a command that is passed over, or begins with a backslash.
    /// Math stands between dollar signs of one depth; a dollar sign without a partner is itself. What the piece gives
    /// has its span.
    ///
    /// # Errors
    ///
    /// `MalformedCommand` where a brace has no partner, the last character is a lone backslash, or an accent has no argument.
    #[tactic(auto, using(crate::proofs::OrdinaryPlain::ordinary_plain))]
    pub fn push_ordinary(mut self, piece: Spanned<&str>) -> Result<Contents, ContentError>
        ensures read { Gives refusal_of so_far result
            (following (so_far self) (ordinary (chars piece.entry.v.now))) }
        ensures spanned { Gives refusal_of spanned_so_far result (after_at piece.entry.span.start
            piece.entry.span.end (spanned_so_far self) (ordinary (chars piece.entry.v.now))) }
    {
        if is_plain(piece.v) {
            self.push_plain(Kind::Normal, piece)?;
            return Ok(self);
        }
        self.push_changed(piece)
    }

    /// The same of a piece of which some characters do not stand for themselves.
    fn push_changed(mut self, piece: Spanned<&str>) -> Result<Contents, ContentError>
        ensures read { Gives refusal_of so_far result
            (following (so_far self) (ordinary (chars piece.entry.v.now))) }
        ensures spanned { Gives refusal_of spanned_so_far result (after_at piece.entry.span.start
            piece.entry.span.end (spanned_so_far self) (ordinary (chars piece.entry.v.now))) }
    {
        if let Some(text) = dashed(self.alloc, piece.v)? {
            self.push_chunk(&piece.span, Chunk::Normal(text))?;
            return Ok(self);
        }
        self.push_tokens(piece)
    }

    /// The same of any piece, token by token.
    fn push_tokens(mut self, piece: Spanned<&str>) -> Result<Contents, ContentError>
        ensures read { Gives refusal_of so_far result
            (following (so_far self) (ordinary (chars piece.entry.v.now))) }
        ensures spanned { Gives refusal_of spanned_so_far result (after_at piece.entry.span.start
            piece.entry.span.end (spanned_so_far self) (ordinary (chars piece.entry.v.now))) }
    {
        let chunks = read_ordinary(self.alloc, piece.v)?;
        self.push_chunks(&piece.span, chunks)?;
        Ok(self)
    }

    /// These contents with what a piece of a verbatim field gives after them: a backslash before one of
    /// `{ } \ ~ ^ # & % $ _` gives that character, other braces give nothing, and all else is itself. What the piece
    /// gives has its span.
    pub fn push_verbatim(mut self, piece: Spanned<&str>) -> Result<Contents, AllocError>
        ensures read { IfOk result (λ c. so_far c
            ≡ so_far self ++ letters Verbatim (verbatim_text (chars piece.entry.v.now))) }
        ensures spanned { IfOk result (λ c. spanned_so_far c
            ≡ spanned_so_far self ++ all_at piece.entry.span.start piece.entry.span.end
            (letters Verbatim (verbatim_text (chars piece.entry.v.now)))) }
    {
        if is_literal(piece.v) {
            self.push_plain(Kind::Verbatim, piece)?;
            return Ok(self);
        }
        let chunks = read_verbatim(self.alloc, piece.v)?;
        self.push_chunks(&piece.span, chunks)?;
        Ok(self)
    }

    /// The chunks of the field: what its pieces gave, one after the other, tidied. The span of a chunk is from where
    /// the first piece begins that gave it a character to where the last of these ends; that of a math piece is the
    /// span of its piece.
    pub fn finish(self) -> Result<Chunks, AllocError>
        ensures styled { IfOk result (λ cs. styled cs.items ≡ tidied (so_far self)) }
        ensures spans { IfOk result (λ cs. chunk_spans cs.items
            ≡ member_spans (tidied_at (spanned_so_far self))) }
        ensures parted { IfOk result (λ cs. are_parted cs.items ≡ true) }
    {
        if are_done(self.chunks.as_slice()) {
            return Ok(self.chunks);
        }
        tidy(self.alloc, self.chunks)?.into_chunks()
    }
}
