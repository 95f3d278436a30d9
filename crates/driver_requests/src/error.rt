//! Why a driver gives nothing.

ghost use Rattle.std.specs.Prelude.{◌≡◌};
ghost use Rattle.driver_requests.specs.declared.error.DriverError.TheVariants.{Memory};

use std::alloc::{AllocError, AllocFailed};
use thiserror::Error;

/// Why a driver gives nothing.
#[derive(Debug, PartialEq, Eq, Drop, Error)]
pub enum DriverError {
    /// A request for memory was refused.
    #[error("out of memory")]
    Memory,
    /// The number of an entry would be above 2147483647, or more than 256 entries that print alike need year suffixes.
    #[error("a number or letters have no place")]
    Overflow,
}

impl From<AllocError> for DriverError {
    ghost from_gives = { λ _ e. e ≡ Memory };

    fn from(_error: AllocError) -> DriverError {
        DriverError::Memory
    }
}

impl<T: Drop> From<AllocFailed<T>> for DriverError {
    ghost from_gives = { λ _ e. e ≡ Memory };

    fn from(_error: AllocFailed<T>) -> DriverError {
        DriverError::Memory
    }
}
