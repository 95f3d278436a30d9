//! Chunks that are read as values.

ghost use Rattle.std.specs.Prelude.{List};
ghost use Rattle.biblatex_text.specs.declared.spanned.Spanned.{Spanned};
ghost use Rattle.biblatex_content.specs.declared.chunk.Chunk.{Chunk};
ghost use Rattle.biblatex_content.specs.Views.{styled};
ghost use Rattle.biblatex_field_types.specs.Meaning.{IsSpanned, refusal_of};
ghost use Rattle.laws.specs.Results.{Gives};

use crate::error::FieldTypeError;
use crate::field_type::FieldType;
use biblatex_content::{Chunk, Spanned};
use std::alloc::Global;

/// Chunks that are read as a value of a type.
pub trait ChunksParse {
    ghost chunks: { Self → List (Spanned Chunk) };

    /// The value that the chunks are read as.
    ///
    /// # Errors
    /// `TypeError` with the span of the chunks where they are no value of the type; `Memory` where a request for memory was
    /// refused.
    fn parse<T: FieldType>(&self, alloc: Global) -> Result<T, FieldTypeError>
        // What the chunks read as, or their fault.
        ensures reading { Gives refusal_of T.view result (T.reads (styled (chunks self.now))) }
        // A fault's span is that of the chunks.
        ensures span { IsSpanned result (chunks self.now) };
}

impl ChunksParse for &[Spanned<Chunk>] {
    ghost chunks = { λ c. c.now };

    fn parse<T: FieldType>(&self, alloc: Global) -> Result<T, FieldTypeError> {
        T::from_chunks(alloc, *self)
    }
}
