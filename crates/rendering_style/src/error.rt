//! Why a style was refused.

ghost use Rattle.std.specs.Prelude.{◌≡◌};
ghost use Rattle.rendering_style.specs.declared.error.StyleError.TheVariants.{Memory};

use std::alloc::{AllocError, AllocFailed};
use thiserror::Error;

/// Why a style was refused.
#[derive(Debug, PartialEq, Eq, Drop, Error)]
pub enum StyleError {
    /// A request for memory was refused.
    #[error("out of memory")]
    Memory,
    /// The macro of that name, the first in order, reaches itself through the macros that it calls.
    #[error("macro {0} reaches itself")]
    MacroRing(String),
    /// A layout or a macro has more than 200 nodes one inside the other, those of macros that are called included.
    #[error("more than 200 levels of nodes")]
    TooDeep,
}

impl From<AllocError> for StyleError {
    ghost from_gives = { λ _ e. e ≡ Memory };

    fn from(_error: AllocError) -> StyleError {
        StyleError::Memory
    }
}

impl<T: Drop> From<AllocFailed<T>> for StyleError {
    ghost from_gives = { λ _ e. e ≡ Memory };

    fn from(_error: AllocFailed<T>) -> StyleError {
        StyleError::Memory
    }
}
