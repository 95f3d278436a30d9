//! Why a call of `cite` refused. Calls of this crate return neither `Overflow` nor `Write`.

ghost use Rattle.std.specs.Prelude.{◌≡◌, Some};
ghost use Rattle.cite_requests.specs.Answers.{bridge_error};
ghost use Rattle.cite_requests.specs.Refusals.{bib_text, document_text, error_text};
ghost use Rattle.cite_requests.specs.declared.error.CiteError.TheVariants.{Memory};

use biblatex::ParseError;
use interop::{BridgeError, FieldFault};
use literature::SelectorError;
use sinks::SinkFault;
use std::alloc::{AllocError, AllocFailed};
use std::error::Error;
use std::fmt;

/// Why the bib text was refused.
#[derive(Debug, Drop)]
pub enum BibTextError {
    /// The bytes are not UTF-8.
    Utf8,
    /// The text is no bibliography.
    Parse(ParseError),
}

/// Why the bib text was refused, in a line.
impl fmt::Display for BibTextError {
    ghost output = { λ error. Some (bib_text error) };

    fn fmt<W: fmt::Write>(&self, f: &mut fmt::Formatter<W>) -> fmt::Result {
        match self {
            BibTextError::Utf8 => f.write_str("not UTF-8"),
            BibTextError::Parse(error) => write!(f, "{error}"),
        }
    }
}

impl Error for BibTextError {}

/// Why the document was refused.
#[derive(Clone, Copy, Debug, PartialEq, Eq)]
pub enum DocumentTextError {
    /// The bytes are not UTF-8.
    Utf8,
    /// At this byte, from zero, stands the first opening that no marker follows.
    Marker { offset: usize },
}

/// Why the document was refused, in a line.
impl fmt::Display for DocumentTextError {
    ghost output = { λ error. Some (document_text error) };

    fn fmt<W: fmt::Write>(&self, f: &mut fmt::Formatter<W>) -> fmt::Result {
        match self {
            DocumentTextError::Utf8 => f.write_str("not UTF-8"),
            DocumentTextError::Marker { offset } => write!(f, "marker at byte {offset}"),
        }
    }
}

impl Error for DocumentTextError {}

/// Why a call of `cite` refused. After any of these but `Write` nothing was written.
#[derive(Debug, Drop)]
pub enum CiteError {
    /// The bib text was refused.
    BibText(BibTextError),
    /// All fields that cannot be read, in the order of the file.
    Fields(Vec<FieldFault>),
    /// The document was refused.
    Document(DocumentTextError),
    /// The first name in the document that means no entry, or one of type `xdata`, which only lends its fields.
    Name(String),
    /// The first section that is no selector, by its index from zero, and why.
    Selector { index: usize, error: SelectorError },
    /// A request for memory was refused.
    Memory,
    /// More than 2147483647 entries are cited, or more than 256 that only a year suffix disambiguates.
    Overflow,
    /// The sink did not take all of the output; it holds a prefix of it.
    Write(SinkFault),
}

/// Why the call refused, in a line.
impl fmt::Display for CiteError {
    ghost output = { λ error. Some (error_text error) };

    fn fmt<W: fmt::Write>(&self, f: &mut fmt::Formatter<W>) -> fmt::Result {
        match self {
            CiteError::BibText(error) => write!(f, "bib: {error}"),
            CiteError::Fields(_) => f.write_str("fields that cannot be read"),
            CiteError::Document(error) => write!(f, "document: {error}"),
            CiteError::Name(name) => write!(f, "unknown name {name}"),
            CiteError::Selector { index, error } => write!(f, "section {index}: {error}"),
            CiteError::Memory => f.write_str("out of memory"),
            CiteError::Overflow => f.write_str("number too large"),
            CiteError::Write(_) => f.write_str("write failed"),
        }
    }
}

impl Error for CiteError {}

impl From<AllocError> for CiteError {
    ghost from_gives = { λ _ e. e ≡ Memory };

    fn from(_error: AllocError) -> CiteError {
        CiteError::Memory
    }
}

impl<T: Drop> From<AllocFailed<T>> for CiteError {
    ghost from_gives = { λ _ e. e ≡ Memory };

    fn from(_error: AllocFailed<T>) -> CiteError {
        CiteError::Memory
    }
}

impl From<BridgeError> for CiteError {
    ghost from_gives = { λ error e. e ≡ bridge_error error };

    fn from(error: BridgeError) -> CiteError {
        match error {
            BridgeError::Fields(faults) => CiteError::Fields(faults),
            BridgeError::Memory => CiteError::Memory,
        }
    }
}
