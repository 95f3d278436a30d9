//! Texts in pieces of a kind.

ghost use Rattle.std.specs.Prelude.{◌≡◌};
ghost use Rattle.literature_values.specs.TextViews.{chunk_view, chunks_view, format_view};

use std::alloc::AllocError;

/// How a piece of text is treated.
#[derive(Clone, Copy, Debug, PartialEq, Eq)]
pub enum ChunkKind {
    /// The case of the text may be changed.
    Normal,
    /// The text stays as it is.
    Verbatim,
    /// The text is a formula.
    Math,
}

/// A piece of text.
#[derive(Debug, PartialEq, Eq, Drop)]
pub struct StringChunk {
    pub value: String,
    pub kind: ChunkKind,
}

/// A text in pieces.
#[derive(Debug, PartialEq, Eq, Drop)]
pub struct ChunkedString(pub Vec<StringChunk>);

/// A text, and a short form of it.
#[derive(Debug, PartialEq, Eq, Drop)]
pub struct FormatString {
    pub value: ChunkedString,
    pub short: Option<ChunkedString>,
}

impl Clone for StringChunk {
    ghost is_clone = { λ a b. chunk_view b ≡ chunk_view a };

    fn clone(&self) -> Result<StringChunk, AllocError> {
        Ok(StringChunk {
            value: self.value.clone()?,
            kind: self.kind,
        })
    }
}

impl Clone for ChunkedString {
    ghost is_clone = { λ a b. chunks_view b ≡ chunks_view a };

    fn clone(&self) -> Result<ChunkedString, AllocError> {
        let mut copied = Vec::with_capacity(*self.0.allocator(), self.0.len())?;
        for chunk in &self.0 {
            copied.push(chunk.clone()?)?;
        }
        Ok(ChunkedString(copied))
    }
}

impl Clone for FormatString {
    ghost is_clone = { λ a b. format_view b ≡ format_view a };

    fn clone(&self) -> Result<FormatString, AllocError> {
        Ok(FormatString {
            value: self.value.clone()?,
            short: self.short.clone()?,
        })
    }
}
