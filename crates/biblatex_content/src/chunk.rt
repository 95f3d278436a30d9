//! Chunks of text, and where they stand.

ghost use Rattle.std.specs.Prelude.{◌≡◌, ◌↔◌, ◌^◌, ◌-◌, List, IfOk, IsTrue};
ghost use Rattle.std.specs.Str.{chars};
ghost use Rattle.biblatex_text.specs.declared.spanned.Spanned.{Spanned};
ghost use Rattle.biblatex_content.specs.declared.chunk.Chunk.{Chunk};
ghost use Rattle.std.specs.Borrow.{sem};
ghost use Rattle.biblatex_content.specs.Lending.{LendsText};
ghost use Rattle.biblatex_content.specs.Writing.{written_content};
ghost use Rattle.biblatex_content.specs.Views.{chunk_text, plain_text, styled, span_start, span_end};
ghost use Rattle.laws.specs.Text.{characters};

use crate::writing::push_biblatex;
use biblatex_text::Spanned;
use std::alloc::{AllocError, Global};
use std::ops::Range;
use texts::{empty_text, push_text};

/// Where something stands in a source, in bytes.
pub type Span = Range<usize>;

/// How text is meant: to be changed as a style asks, or to be printed as it is. It is public because contracts name it.
#[derive(Debug, Clone, Copy, PartialEq, Eq)]
pub enum Kind {
    /// A style may change it.
    Normal,
    /// It stays as it is.
    Verbatim,
}

/// A piece of a field's content.
#[derive(Debug, PartialEq, Eq, Drop)]
pub enum Chunk {
    /// Text that a style may change.
    Normal(String),
    /// Text that stays as it is.
    Verbatim(String),
    /// What stands between dollar signs, as written.
    Math(String),
}

impl Chunk {
    /// The text of the chunk.
    pub fn get(&self) -> &str
        ensures { chars result.now ≡ chunk_text self.now }
    {
        match self {
            Chunk::Normal(text) | Chunk::Verbatim(text) | Chunk::Math(text) => text.as_str(),
        }
    }

    /// The text of the chunk, to be changed.
    pub fn get_mut(&mut self) -> &mut String
        ensures* writes_back { sem 𝓛 (LendsText self.entry result) }
        ensures text { characters result.now ≡ chunk_text self.old }
    {
        match self {
            Chunk::Normal(text) | Chunk::Verbatim(text) | Chunk::Math(text) => text,
        }
    }
}

/// The chunks of a field.
pub type Chunks = Vec<Spanned<Chunk>>;

/// What chunks are as one text.
pub trait ChunksExt {
    ghost chunks: { Self → List (Spanned Chunk) };

    /// The texts of the chunks, one after the other; of math what stands between the dollar signs.
    fn format_verbatim(&self, alloc: Global) -> Result<String, AllocError>
        ensures { IfOk result (λ s. characters s ≡ plain_text (chunks self.now)) };

    /// The text that they are written as, where they are the content of a field, verbatim or ordinary. In an ordinary field
    /// `{ } # & % $ _` stand after a backslash, `\`, `~` and `^` are written as commands and a no-break space as `~`; verbatim
    /// text stands in braces, math between dollar signs. In a verbatim field all is text, in which `{ } \` stand after a
    /// backslash. No braces stand round the whole.
    fn to_biblatex_string(&self, alloc: Global, is_verbatim: bool) -> Result<String, AllocError>
        ensures { IfOk result (λ s. characters s
            ≡ written_content is_verbatim (styled (chunks self.now))) };

    /// From where the first chunk begins to where the last one ends, but not before the first one ends; `0..0` where there
    /// is none.
    fn span(&self) -> Span
        ensures start { result.start ≡ span_start (chunks self.now) }
        ensures end { result.end ≡ span_end (chunks self.now) };
}

impl ChunksExt for &[Spanned<Chunk>] {
    ghost chunks = { λ c. c.now };

    fn format_verbatim(&self, alloc: Global) -> Result<String, AllocError> {
        let mut text = empty_text(alloc);
        for chunk in self.iter() {
            push_text(&mut text, chunk.v.get())?;
        }
        Ok(text)
    }

    fn to_biblatex_string(&self, alloc: Global, is_verbatim: bool) -> Result<String, AllocError> {
        let mut text = empty_text(alloc);
        push_biblatex(&mut text, self, is_verbatim)?;
        Ok(text)
    }

    fn span(&self) -> Span {
        match (self.first(), self.last()) {
            (Some(first), Some(last)) => { first.span.start..first.span.end.max(last.span.end) }
            _ => 0..0,
        }
    }
}
