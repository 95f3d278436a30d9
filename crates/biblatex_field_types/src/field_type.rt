//! Values that the chunks of a field are read as, and written as.

ghost use Rattle.std.specs.Prelude.{◌≡◌, IfOk, List, Result, Ok};
ghost use Rattle.biblatex_content.specs.Styled.{Member};
ghost use Rattle.biblatex_content.specs.Views.{styled};
ghost use Rattle.biblatex_field_types.specs.Meaning.{IsSpanned, with_span, refusal_of};
ghost use Rattle.laws.specs.Results.{GivesBack, Gives};

use crate::error::{FieldTypeError, TypeError};
use biblatex_content::{Chunk, Chunks, ChunksExt, Spanned};
use biblatex_dates::TypeErrorKind;
use std::alloc::{AllocError, Global};

/// A type whose values the chunks of a field are read as, and written as. Over the type's own class of values, reading what
/// was written gives the value back.
pub trait FieldType: Drop {
    ghost use Rattle.biblatex_dates.specs.declared.error.TypeErrorKind.{TypeErrorKind};

    // What callers see of a value.
    ghost View: { Type 0 };

    ghost view: { Self → View };

    // What a styled text reads as, or its fault.
    ghost reads: { List Member → Result View TypeErrorKind };

    // The styled text that a value is written as.
    ghost writes: { View → List Member };

    // The values that are read back.
    ghost InClass: { View → Type 0 };

    /// Reads a value.
    ///
    /// # Errors
    /// `TypeError` with the span of the chunks where they are no value of the type; `Memory` where a request for memory was
    /// refused.
    fn from_chunks(alloc: Global, chunks: &[Spanned<Chunk>]) -> Result<Self, FieldTypeError>
    where
        Self: Sized,
        // What the chunks read as, or their fault.
        ensures reading { Gives refusal_of view result (reads (styled chunks.now)) }
        // A fault's span is that of the chunks.
        ensures span { IsSpanned result chunks.now };

    /// Writes the value. What is made anew is of no source; chunks that the value holds keep their spans.
    fn to_chunks(&self, alloc: Global) -> Result<Chunks, AllocError>
        ensures { IfOk result (λ cs. styled cs.items ≡ writes (view self.now)) };

    // Reading what was written gives the value back.
    ghost back: { (v : View) → InClass v → reads (writes v) ≡ Ok v };
}

/// Writes a value and reads what was written.
///
/// # Errors
/// `Memory` where a request for memory was refused; `TypeError` for values outside the type's class alone.
pub fn reread<T: FieldType>(alloc: Global, value: &T) -> Result<T, FieldTypeError>
    // A value of the class is read back.
    ensures back { T.InClass (T.view value.now)
        → GivesBack refusal_of T.view result (T.view value.now) }
    // For any other value the result is what its text reads as.
    ensures reading { Gives refusal_of T.view result (T.reads (T.writes (T.view value.now))) }
{
    let chunks = value.to_chunks(alloc)?;
    T::from_chunks(alloc, chunks.as_slice())
}

/// What was read of chunks, or its fault with their span.
pub(crate) fn at_span<T>(
    chunks: &[Spanned<Chunk>],
    read: Result<T, TypeErrorKind>,
) -> Result<T, FieldTypeError>
    ensures { result ≡ with_span chunks.now read }
{
    match read {
        Ok(value) => Ok(value),
        Err(kind) => Err(FieldTypeError::TypeError(TypeError {
            span: chunks.span(),
            kind,
        })),
    }
}
