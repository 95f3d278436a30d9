//! Why a stage ends.

ghost use Rattle.std.specs.Prelude.{◌≡◌};
ghost use Rattle.cite_csl_styles.specs.declared.stop.Stop.TheVariants.{Memory};

use std::alloc::{AllocError, AllocFailed};

/// Why a stage gives nothing.
#[derive(Drop)]
pub enum Stop {
    /// A request for memory was refused.
    Memory,
    /// What it is given is refused; these lines say why.
    Refused(String),
}

impl From<AllocError> for Stop {
    ghost from_gives = { λ _ e. e ≡ Memory };

    fn from(_error: AllocError) -> Stop {
        Stop::Memory
    }
}

impl<T: Drop> From<AllocFailed<T>> for Stop {
    ghost from_gives = { λ _ e. e ≡ Memory };

    fn from(_error: AllocFailed<T>) -> Stop {
        Stop::Memory
    }
}
