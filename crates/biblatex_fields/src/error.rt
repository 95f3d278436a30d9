//! Why a text could not be read.

ghost use Rattle.std.specs.Prelude.{◌≡◌, Some};
ghost use Rattle.biblatex_fields.specs.Errors.{reason_view, reason_text, error_text};
ghost use Rattle.biblatex_fields.specs.declared.error.ParseError.TheVariants.{Memory};

use biblatex_content::Span;
use biblatex_dates::TypeErrorKind;
use biblatex_text::Token;
use std::alloc::{AllocError, AllocFailed};
use std::error::Error;
use std::fmt;

/// What is wrong with a text.
#[derive(Debug, PartialEq, Eq, Drop)]
pub enum ParseErrorKind {
    /// The text ends where an item is open.
    UnexpectedEof,
    /// The mark may not stand there.
    Unexpected(Token),
    /// Another mark must stand there.
    Expected(Token),
    /// The name, as it is written, has no definition and is no month's.
    UnknownAbbreviation(String),
    /// The name, as it is written, reaches itself through the names in its definitions.
    AbbreviationCycle(String),
    /// A piece of a field has a brace without a partner, ends in a lone backslash, or has an accent without an argument.
    MalformedCommand,
    /// The key of an entry is the key or an alias of an earlier one.
    DuplicateKey(String),
    /// The entry of this key reaches itself by `crossref` and `xdata`.
    ReferenceCycle(String),
    /// An entry that needs a date refers to another one whose date cannot be read.
    ResolutionError(TypeErrorKind),
}

/// Why a text could not be read.
#[derive(Debug, Drop)]
pub enum ParseError {
    /// A request for memory was refused.
    Memory,
    /// The text is not as it should be.
    Refused {
        /// What is wrong.
        kind: ParseErrorKind,
        /// Where it stands, in bytes of the source: the one byte, or the end, at which the raw grammar refuses the text, as
        /// an empty span; the written name of an abbreviation; the piece with a malformed command; the key of an entry. Of
        /// an unreadable date it is the key of the entry that has it.
        span: Span,
    },
}

/// What is wrong, in a line.
impl fmt::Display for ParseErrorKind {
    ghost output = { λ kind. Some (reason_text (reason_view kind)) };

    fn fmt<W: fmt::Write>(&self, f: &mut fmt::Formatter<W>) -> fmt::Result {
        match self {
            ParseErrorKind::UnexpectedEof => f.write_str("unexpected end of file"),
            ParseErrorKind::Unexpected(token) => write!(f, "unexpected {token}"),
            ParseErrorKind::Expected(token) => write!(f, "expected {token}"),
            ParseErrorKind::UnknownAbbreviation(name) => write!(f, "unknown abbreviation {name}"),
            ParseErrorKind::AbbreviationCycle(name) => write!(f, "circular abbreviation {name}"),
            ParseErrorKind::MalformedCommand => f.write_str("malformed command"),
            ParseErrorKind::DuplicateKey(key) => write!(f, "duplicate key {key}"),
            ParseErrorKind::ReferenceCycle(key) => write!(f, "circular reference {key}"),
            ParseErrorKind::ResolutionError(_) => f.write_str("unreadable date"),
        }
    }
}

impl Error for ParseErrorKind {}

/// Why the text could not be read, in a line.
impl fmt::Display for ParseError {
    ghost output = { λ error. Some (error_text error) };

    fn fmt<W: fmt::Write>(&self, f: &mut fmt::Formatter<W>) -> fmt::Result {
        match self {
            ParseError::Memory => f.write_str("out of memory"),
            ParseError::Refused { kind, .. } => write!(f, "{kind}"),
        }
    }
}

impl Error for ParseError {}

impl From<AllocError> for ParseError {
    ghost from_gives = { λ _ e. e ≡ Memory };

    fn from(_error: AllocError) -> ParseError {
        ParseError::Memory
    }
}

impl<T: Drop> From<AllocFailed<T>> for ParseError {
    ghost from_gives = { λ _ e. e ≡ Memory };

    fn from(_error: AllocFailed<T>) -> ParseError {
        ParseError::Memory
    }
}
