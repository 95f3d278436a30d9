//! Why a text is refused.

ghost use Rattle.std.specs.Prelude.{◌≡◌};
ghost use Rattle.csl_styles.specs.declared.error.CslError.TheVariants.{Memory};

use crate::fault::Fault;
use std::alloc::{AllocError, AllocFailed};

/// Why a text means no style and no locale.
#[derive(Drop)]
pub enum CslError<'s> {
    /// A request for memory was refused.
    Memory,
    /// The text is no XML, and this many of its bytes are left where that shows.
    Text { fault: xml_text::Fault, left: usize },
    /// The tree of the text has this fault first, at its place in the text: text where its first line begins that is more than white space, anything
    /// else at the start-tag of the element.
    Tree(Fault<'s>),
    /// The macro of that name, the first in order, reaches itself through the macros that it calls; this many bytes of the text are left where
    /// its start-tag begins.
    Ring { name: String, left: usize },
    /// A layout or a macro has more than 200 nodes one inside the other, those of macros that are called included; this many bytes of the text
    /// are left where the start-tag of the style begins.
    TooDeep { left: usize },
}

impl<'s> From<AllocError> for CslError<'s> {
    ghost from_gives = { λ _ e. e ≡ Memory };

    fn from(_error: AllocError) -> CslError<'s> {
        CslError::Memory
    }
}

impl<'s, T: Drop> From<AllocFailed<T>> for CslError<'s> {
    ghost from_gives = { λ _ e. e ≡ Memory };

    fn from(_error: AllocFailed<T>) -> CslError<'s> {
        CslError::Memory
    }
}
