//! Why a text could not be read.

ghost use Rattle.std.specs.Prelude.{◌≡◌};
ghost use Rattle.biblatex_text.specs.declared.error.Stop.TheVariants as stops;

use crate::token::Fault;
use std::alloc::{AllocError, AllocFailed};
use thiserror::Error;

/// Why a text could not be read.
#[derive(Clone, Copy, Debug, PartialEq, Eq, Error)]
pub enum RawError {
    /// A request for memory was refused.
    #[error("out of memory")]
    Memory,
    /// The text is not of the grammar.
    #[error("{fault}")]
    Refused {
        /// What is wrong there.
        fault: Fault,
        /// The first byte of the character with which no text of the grammar goes on, or the length of a text that
        /// ends too soon.
        at: usize,
    },
}

/// Why reading stopped.
#[derive(Clone, Copy)]
pub(crate) enum Stop {
    Memory,
    Fault(Fault),
}

impl From<AllocError> for Stop {
    ghost from_gives = { λ _ e. e ≡ stops.Memory };

    fn from(_error: AllocError) -> Stop {
        Stop::Memory
    }
}

impl<T: Drop> From<AllocFailed<T>> for Stop {
    ghost from_gives = { λ _ e. e ≡ stops.Memory };

    fn from(_error: AllocFailed<T>) -> Stop {
        Stop::Memory
    }
}

impl From<Fault> for Stop {
    ghost from_gives = { λ fault e. e ≡ stops.Fault fault };

    fn from(fault: Fault) -> Stop {
        Stop::Fault(fault)
    }
}
