//! Why a text was not read as a list.

ghost use Rattle.std.specs.Prelude.{◌≡◌};
ghost use Rattle.biblatex_values.specs.declared.error.ListError.TheVariants.{Memory, Unreadable as UnreadableText};

use std::alloc::{AllocError, AllocFailed};
use texts::Unreadable;
use thiserror::Error;

/// Why a text was not read as a list.
#[derive(Clone, Copy, Debug, PartialEq, Eq, Error)]
pub enum ListError {
    /// A request for memory was refused.
    #[error("out of memory")]
    Memory,
    /// The text is no such list.
    #[error("unreadable")]
    Unreadable,
}

impl From<Unreadable> for ListError {
    ghost from_gives = { λ _ e. e ≡ UnreadableText };

    fn from(_unreadable: Unreadable) -> ListError {
        ListError::Unreadable
    }
}

impl From<AllocError> for ListError {
    ghost from_gives = { λ _ e. e ≡ Memory };

    fn from(_error: AllocError) -> ListError {
        ListError::Memory
    }
}

impl<T: Drop> From<AllocFailed<T>> for ListError {
    ghost from_gives = { λ _ e. e ≡ Memory };

    fn from(_error: AllocFailed<T>) -> ListError {
        ListError::Memory
    }
}
