//! Why a text is no XML.

ghost use Rattle.std.specs.Prelude.{◌≡◌};
ghost use Rattle.xml_text.specs.declared.fault.XmlError.TheVariants as errors;

use std::alloc::{AllocError, AllocFailed};
use thiserror::Error;

/// Why a text is no XML. Each stands at a place of the text.
#[derive(Clone, Copy, Debug, PartialEq, Eq, Error)]
pub enum Fault {
    /// The text ends within what begins here.
    #[error("not closed")]
    Unclosed,
    /// This character may not stand here.
    #[error("unexpected character")]
    Unexpected,
    /// A document type declaration, of which none is read.
    #[error("document type declarations are not read")]
    Doctype,
    /// A processing instruction whose target is `xml` in any case, which begins the XML declaration alone.
    #[error("XML declaration not at the beginning")]
    ReservedTarget,
    /// An XML declaration that is not one of version 1.
    #[error("malformed XML declaration")]
    Declaration,
    /// An XML declaration that names another encoding than UTF-8.
    #[error("encoding other than UTF-8")]
    Encoding,
    /// A reference to an entity that is none of `lt`, `gt`, `amp`, `apos` and `quot`.
    #[error("unknown entity")]
    UnknownEntity,
    /// A reference to a number that is no character of XML.
    #[error("reference to no character")]
    NoCharacter,
    /// A tag has an attribute of this name already.
    #[error("repeated attribute")]
    Repeated,
    /// An attribute that may not declare this namespace.
    #[error("namespace declaration that is not allowed")]
    Namespace,
    /// A prefix that is bound to no namespace.
    #[error("undeclared prefix")]
    Unbound,
    /// More than 256 elements are open.
    #[error("too many levels of elements")]
    TooDeep,
    /// A second element outside all others.
    #[error("second root element")]
    SecondRoot,
    /// An end-tag where no element is open.
    #[error("end-tag of no element")]
    Unopened,
    /// An end-tag that has another name than the element that is open.
    #[error("end-tag of another element")]
    Mismatched,
    /// Text outside all elements.
    #[error("text outside the root element")]
    Outside,
    /// A text without an element.
    #[error("no element")]
    NoRoot,
    /// The text ends where an element is open.
    #[error("element not closed")]
    Unfinished,
}

/// Why reading stopped.
#[derive(Clone, Copy, Debug, PartialEq, Eq, Error)]
pub enum XmlError {
    /// A request for memory was refused.
    #[error("out of memory")]
    Memory,
    /// The text is no XML.
    #[error("{0}")]
    Fault(Fault),
}

impl From<AllocError> for XmlError {
    ghost from_gives = { λ _ e. e ≡ errors.Memory };

    fn from(_error: AllocError) -> XmlError {
        XmlError::Memory
    }
}

impl<T: Drop> From<AllocFailed<T>> for XmlError {
    ghost from_gives = { λ _ e. e ≡ errors.Memory };

    fn from(_error: AllocFailed<T>) -> XmlError {
        XmlError::Memory
    }
}

impl From<Fault> for XmlError {
    ghost from_gives = { λ fault e. e ≡ errors.Fault fault };

    fn from(fault: Fault) -> XmlError {
        XmlError::Fault(fault)
    }
}
