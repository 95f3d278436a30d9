//! Why a text could not be read.

ghost use Rattle.std.specs.Prelude.{◌≡◌, Some};
ghost use Rattle.literature.specs.Errors.{error_text};
ghost use Rattle.literature.specs.declared.selector_error.SelectorError.TheVariants.{Memory};

use std::alloc::{AllocError, AllocFailed};
use std::error::Error;
use std::fmt;

/// Why a text is no selector.
#[derive(Debug, Drop)]
pub enum SelectorError {
    /// An operand is missing.
    MissingValue,
    /// No name stands where a list wants one.
    MalformedAttribute,
    /// Neither a comma nor the end of the list follows a name.
    MissingComma,
    /// A parenthesis is not closed.
    UnbalancedParens,
    /// No type of entries has this name.
    UnknownEntryType(String),
    /// More than 128 levels are open.
    TooDeep,
    /// A request for memory was refused.
    Memory,
}

/// Why the text is no selector, in a line.
impl fmt::Display for SelectorError {
    ghost output = { λ error. Some (error_text error) };

    fn fmt<W: fmt::Write>(&self, f: &mut fmt::Formatter<W>) -> fmt::Result {
        match self {
            SelectorError::MissingValue => f.write_str("missing value"),
            SelectorError::MalformedAttribute => f.write_str("malformed attribute"),
            SelectorError::MissingComma => f.write_str("missing comma"),
            SelectorError::UnbalancedParens => f.write_str("unbalanced parentheses"),
            SelectorError::UnknownEntryType(name) => write!(f, "unknown entry type {name}"),
            SelectorError::TooDeep => f.write_str("too deep"),
            SelectorError::Memory => f.write_str("out of memory"),
        }
    }
}

impl Error for SelectorError {}

impl From<AllocError> for SelectorError {
    ghost from_gives = { λ _ e. e ≡ Memory };

    fn from(_error: AllocError) -> SelectorError {
        SelectorError::Memory
    }
}

impl<T: Drop> From<AllocFailed<T>> for SelectorError {
    ghost from_gives = { λ _ e. e ≡ Memory };

    fn from(_error: AllocFailed<T>) -> SelectorError {
        SelectorError::Memory
    }
}
