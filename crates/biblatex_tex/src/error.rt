//! Why a piece of a field could not be read.

ghost use Rattle.std.specs.Prelude.{◌≡◌};
ghost use Rattle.biblatex_tex.specs.declared.error.ContentError.TheVariants.{Memory};

use std::alloc::{AllocError, AllocFailed};
use thiserror::Error;

/// Why a piece of a field was refused.
#[derive(Debug, Drop, Error)]
pub enum ContentError {
    /// A request for memory was refused.
    #[error("out of memory")]
    Memory,
    /// A brace has no partner, the last character is a backslash, or an accent has no argument.
    #[error("malformed command")]
    MalformedCommand,
}

impl From<AllocError> for ContentError {
    ghost from_gives = { λ _ e. e ≡ Memory };

    fn from(_error: AllocError) -> ContentError {
        ContentError::Memory
    }
}

impl<T: Drop> From<AllocFailed<T>> for ContentError {
    ghost from_gives = { λ _ e. e ≡ Memory };

    fn from(_error: AllocFailed<T>) -> ContentError {
        ContentError::Memory
    }
}
