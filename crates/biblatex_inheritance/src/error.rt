//! Why entries are not resolved.

ghost use Rattle.std.specs.Prelude.{◌≡◌};
ghost use Rattle.biblatex_inheritance.specs.declared.error.ResolveError.TheVariants.{Memory};

use biblatex_dates::TypeErrorKind;
use std::alloc::{AllocError, AllocFailed};
use thiserror::Error;

/// A date that cannot be read.
#[derive(Clone, Copy, Debug, PartialEq, Eq)]
pub struct DateFault {
    /// The number of the entry that has it, to which others refer.
    pub reference: usize,
    /// What is wrong with it.
    pub kind: TypeErrorKind,
}

/// Why entries are not resolved.
#[derive(Clone, Copy, Debug, PartialEq, Eq, Error)]
pub enum ResolveError {
    /// A request for memory was refused.
    #[error("out of memory")]
    Memory,
    /// The entry of this number is the first that reaches itself by its references.
    #[error("circular reference")]
    ReferenceCycle(usize),
    /// The first entry that needs a date and has a reference whose date cannot be read has this as its first such reference.
    #[error("unreadable date")]
    UnreadableDate(DateFault),
}

impl From<AllocError> for ResolveError {
    ghost from_gives = { λ _ e. e ≡ Memory };

    fn from(_error: AllocError) -> ResolveError {
        ResolveError::Memory
    }
}

impl<T: Drop> From<AllocFailed<T>> for ResolveError {
    ghost from_gives = { λ _ e. e ≡ Memory };

    fn from(_error: AllocFailed<T>) -> ResolveError {
        ResolveError::Memory
    }
}
