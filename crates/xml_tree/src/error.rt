//! Why a text gives no tree.

ghost use Rattle.std.specs.Prelude.{◌≡◌};
ghost use Rattle.xml_tree.specs.declared.error.TreeError.TheVariants as errors;

use std::alloc::{AllocError, AllocFailed};
use thiserror::Error;
use xml_text::Fault;

/// Why a text gives no tree.
#[derive(Clone, Copy, Debug, PartialEq, Eq, Error)]
pub enum TreeError {
    /// A request for memory was refused.
    #[error("out of memory")]
    Memory,
    /// The text is no XML, and this many of its bytes are left where that shows.
    #[error("{fault}")]
    Fault { fault: Fault, left: usize },
}

impl From<AllocError> for TreeError {
    ghost from_gives = { λ _ e. e ≡ errors.Memory };

    fn from(_error: AllocError) -> TreeError {
        TreeError::Memory
    }
}

impl<T: Drop> From<AllocFailed<T>> for TreeError {
    ghost from_gives = { λ _ e. e ≡ errors.Memory };

    fn from(_error: AllocFailed<T>) -> TreeError {
        TreeError::Memory
    }
}
