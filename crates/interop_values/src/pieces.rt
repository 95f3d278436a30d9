//! Styled texts in pieces of one kind.

ghost use Rattle.std.specs.Prelude.{◌≡◌, ◌++◌, ◌∷◌, [], ℕ, List, IfOk, OnOk};
ghost use Rattle.std.specs.Str.{chars};
ghost use Rattle.biblatex_content.specs.Styled.{Member, Letter, Math, letters};
ghost use Rattle.biblatex_content.specs.Views.{styled, members};
ghost use Rattle.laws.specs.Text.{characters};
ghost use Rattle.literature_values.specs.TextViews.{chunk_view, chunks_view};
ghost use Rattle.interop_values.specs.Pieces.{pieces_of, piece_kind};
ghost use Rattle.interop_values.specs.Views.{kind_of, chunks_in, run_of, with_pieces, Grows};

use biblatex_content::{Chunk, Spanned};
use literature_values::{ChunkKind, ChunkedString, StringChunk};
use std::alloc::{AllocError, Global};
use std::mem;
use texts::{empty_text, has_text, owned, push_text};

/// Pieces that are finished, and the text of a kind that has been begun.
#[derive(Drop)]
pub(crate) struct Pieces {
    alloc: Global,
    done: Vec<StringChunk>,
    is_verbatim: bool,
    run: String,
}

impl Pieces {
    /// Pieces of which there are none yet, with room for so many.
    pub(crate) fn with_room(alloc: Global, room: usize) -> Result<Pieces, AllocError>
        ensures { IfOk result (λ p. (rest : List Member) → with_pieces p rest ≡ pieces_of rest) }
    {
        let done = Vec::with_capacity(alloc, room)?;
        Ok(Pieces {
            alloc,
            done,
            is_verbatim: false,
            run: empty_text(alloc),
        })
    }

    pub(crate) fn push_chunks(&mut self, value: &[Spanned<Chunk>]) -> Result<(), AllocError>
        ensures { OnOk result (Grows self.old self.new (styled value.now)) }
    {
        for chunk in value {
            self.push_chunk(&chunk.v)?;
        }
        Ok(())
    }

    fn push_chunk(&mut self, chunk: &Chunk) -> Result<(), AllocError>
        ensures { OnOk result (Grows self.old self.new (members chunk.now)) }
    {
        match chunk {
            Chunk::Normal(text) => self.push_text(false, text.as_str()),
            Chunk::Verbatim(text) => self.push_text(true, text.as_str()),
            Chunk::Math(text) => self.push_math(text.as_str()),
        }
    }

    /// Appends a text of a kind.
    pub(crate) fn push_text(&mut self, is_verbatim: bool, text: &str) -> Result<(), AllocError>
        ensures { OnOk result
            (Grows self.old self.new (letters (kind_of is_verbatim) (chars text.now))) }
    {
        if !has_text(text) {
            return Ok(());
        }
        self.turn(is_verbatim)?;
        push_text(&mut self.run, text)
    }

    /// Ends the text that has been begun, unless it is of the kind.
    fn turn(&mut self, is_verbatim: bool) -> Result<(), AllocError>
        ensures kind { OnOk result (self.new.is_verbatim ≡ is_verbatim) }
        // Text of the kind stands where it would have stood.
        ensures pieces { OnOk result ((c : ℕ) (rest : List Member)
            → with_pieces self.new (Letter (kind_of is_verbatim) c ∷ rest)
            ≡ with_pieces self.old (Letter (kind_of is_verbatim) c ∷ rest)) }
    {
        if self.is_verbatim == is_verbatim {
            return Ok(());
        }
        self.end_run()?;
        self.is_verbatim = is_verbatim;
        Ok(())
    }

    fn push_math(&mut self, text: &str) -> Result<(), AllocError>
        ensures { OnOk result (Grows self.old self.new (Math (chars text.now) ∷ [])) }
    {
        self.end_run()?;
        let value = owned(self.alloc, text)?;
        Ok(
            self.done.push(StringChunk {
                value,
                kind: ChunkKind::Math,
            })?,
        )
    }

    /// Ends the text that has been begun.
    fn end_run(&mut self) -> Result<(), AllocError>
        ensures kind { self.new.is_verbatim ≡ self.old.is_verbatim }
        ensures run { OnOk result (characters self.new.run ≡ []) }
        ensures done { OnOk result (chunks_in self.new
            ≡ chunks_in self.old ++ pieces_of (run_of self.old)) }
    {
        if !has_text(self.run.as_str()) {
            return Ok(());
        }
        let value = mem::replace(&mut self.run, empty_text(self.alloc));
        let kind = chunk_kind(self.is_verbatim);
        Ok(self.done.push(StringChunk { value, kind })?)
    }

    /// The text in pieces.
    pub(crate) fn finish(mut self) -> Result<ChunkedString, AllocError>
        ensures { IfOk result (λ s. chunks_view s ≡ with_pieces self []) }
    {
        self.end_run()?;
        Ok(ChunkedString(self.done))
    }
}

/// The kind of a piece of text.
fn chunk_kind(is_verbatim: bool) -> ChunkKind
    ensures { result ≡ piece_kind (kind_of is_verbatim) }
{
    if is_verbatim {
        ChunkKind::Verbatim
    } else {
        ChunkKind::Normal
    }
}
