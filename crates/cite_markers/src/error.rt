//! Why a document could not be read.

ghost use Rattle.std.specs.Prelude.{◌≡◌};
ghost use Rattle.cite_markers.specs.declared.error.DocumentError.TheVariants as errors;
ghost use Rattle.cite_markers.specs.declared.error.Stop.TheVariants as stops;

use std::alloc::AllocFailed;
use texts::Unreadable;
use thiserror::Error;

/// Why a document could not be read.
#[derive(Clone, Copy, Debug, PartialEq, Eq, Error)]
pub enum DocumentError {
    /// A request for memory was refused.
    #[error("out of memory")]
    Memory,
    /// The first opening that no marker follows.
    #[error("marker at byte {offset}")]
    Marker {
        /// How many bytes stand before the opening.
        offset: usize,
    },
}

impl<T: Drop> From<AllocFailed<T>> for DocumentError {
    ghost from_gives = { λ _ e. e ≡ errors.Memory };

    fn from(_error: AllocFailed<T>) -> DocumentError {
        DocumentError::Memory
    }
}

/// Why reading a marker stopped.
#[derive(Clone, Copy)]
pub(crate) enum Stop {
    /// A request for memory was refused.
    Memory,
    /// No marker stands there.
    NotThere,
}

impl<T: Drop> From<AllocFailed<T>> for Stop {
    ghost from_gives = { λ _ e. e ≡ stops.Memory };

    fn from(_error: AllocFailed<T>) -> Stop {
        Stop::Memory
    }
}

impl From<Unreadable> for Stop {
    ghost from_gives = { λ _ e. e ≡ stops.NotThere };

    fn from(_error: Unreadable) -> Stop {
        Stop::NotThere
    }
}
