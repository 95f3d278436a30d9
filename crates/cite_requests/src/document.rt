//! The document of a call.

ghost use Rattle.cite_markers.specs.Views.{document_view};
ghost use Rattle.cite_requests.specs.Answers.{Gives};
ghost use Rattle.cite_requests.specs.Stages.{document_stage};

use crate::bytes::utf8_text;
use crate::error::{CiteError, DocumentTextError};
use cite_markers::{Document, DocumentError};
use std::alloc::Global;

/// The pieces of a document.
///
/// # Errors
/// `Document` where the bytes are not UTF-8, or with the first opening that no marker follows; `Memory`.
pub fn read_document<'s>(alloc: Global, document: &'s [u8]) -> Result<Document<'s>, CiteError>
    ensures { Gives document_view result (document_stage document.now) }
{
    let Some(text) = utf8_text(document) else {
        return Err(CiteError::Document(DocumentTextError::Utf8));
    };
    match Document::parse(alloc, text) {
        Ok(document) => Ok(document),
        Err(DocumentError::Memory) => Err(CiteError::Memory),
        Err(DocumentError::Marker { offset }) => {
            Err(CiteError::Document(DocumentTextError::Marker { offset }))
        }
    }
}
