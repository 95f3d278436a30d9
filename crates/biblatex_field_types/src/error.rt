//! Why the chunks of a field were not read as a value of a type.

ghost use Rattle.std.specs.Prelude.{◌≡◌};
ghost use Rattle.biblatex_field_types.specs.declared.error.FieldTypeError.TheVariants.{Memory};

use biblatex_content::Span;
use biblatex_dates::TypeErrorKind;
use std::alloc::{AllocError, AllocFailed};
use thiserror::Error;

/// Chunks that no value of the type is written as.
#[derive(Debug, PartialEq, Eq, Drop, Error)]
#[error("{kind}")]
pub struct TypeError {
    /// From where the first chunk begins to where the last one ends, but not before the first one ends, in bytes; `0..0` where there
    /// is none.
    pub span: Span,
    /// What is wrong.
    pub kind: TypeErrorKind,
}

/// Why the chunks of a field were not read as a value of a type.
#[derive(Debug, PartialEq, Eq, Drop, Error)]
pub enum FieldTypeError {
    /// A request for memory was refused.
    #[error("out of memory")]
    Memory,
    /// The chunks are no value of the type.
    #[error("{0}")]
    TypeError(TypeError),
}

impl From<AllocError> for FieldTypeError {
    ghost from_gives = { λ _ e. e ≡ Memory };

    fn from(_error: AllocError) -> FieldTypeError {
        FieldTypeError::Memory
    }
}

impl<T: Drop> From<AllocFailed<T>> for FieldTypeError {
    ghost from_gives = { λ _ e. e ≡ Memory };

    fn from(_error: AllocFailed<T>) -> FieldTypeError {
        FieldTypeError::Memory
    }
}
