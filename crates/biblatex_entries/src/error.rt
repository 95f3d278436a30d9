//! Why a field is not had as a value.

ghost use Rattle.std.specs.Prelude.{◌≡◌};
ghost use Rattle.biblatex_entries.specs.Typed.{retrieval_error};
ghost use Rattle.biblatex_entries.specs.declared.error.RetrievalError.TheVariants.{Memory};

use biblatex_field_types::{FieldTypeError, TypeError};
use std::alloc::AllocError;
use thiserror::Error;

/// Why a field is not had as a value.
#[derive(Debug, PartialEq, Eq, Drop, Error)]
pub enum RetrievalError {
    /// A request for memory was refused.
    #[error("out of memory")]
    Memory,
    /// The entry has no such field.
    #[error("the field is missing")]
    Missing,
    /// The field is no value of the type.
    #[error("{0}")]
    TypeError(TypeError),
}

impl From<AllocError> for RetrievalError {
    ghost from_gives = { λ _ e. e ≡ Memory };

    fn from(_error: AllocError) -> RetrievalError {
        RetrievalError::Memory
    }
}

impl From<FieldTypeError> for RetrievalError {
    ghost from_gives = { λ error e. e ≡ retrieval_error error };

    fn from(error: FieldTypeError) -> RetrievalError {
        match error {
            FieldTypeError::Memory => RetrievalError::Memory,
            FieldTypeError::TypeError(error) => RetrievalError::TypeError(error),
        }
    }
}
