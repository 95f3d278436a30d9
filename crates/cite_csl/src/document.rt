//! The document.

ghost use Rattle.std.specs.Prelude.{◌≡◌, IfOk};
ghost use Rattle.cite_markers.specs.Views.{document_view};
ghost use Rattle.cite_csl_styles.specs.Answers.{Returns};
ghost use Rattle.cite_csl.specs.Names.{pieces_of};
ghost use Rattle.cite_csl_styles.specs.Views.{source_view};

use cite_csl_styles::{SourceFile, Stop, refused_at};
use cite_markers::{Document, DocumentError};
use std::alloc::Global;

/// The text of a document, which its file is, with its pieces.
#[derive(Drop)]
pub(crate) struct ReadDocument<'d> {
    pub(crate) file: SourceFile<'d>,
    pub(crate) text: &'d str,
    pub(crate) document: Document<'d>,
    ghost whole: { text.now ≡ file.bytes.now },
}

/// A document that is read.
pub(crate) fn read_document<'d>(
    alloc: Global,
    file: SourceFile<'d>,
) -> Result<ReadDocument<'d>, Stop>
    ensures pieces { Returns (λ d. document_view d.document) result
        (pieces_of (source_view file.entry)) }
    ensures file { IfOk result (λ d. source_view d.file ≡ source_view file.entry) }
{
    let text = match str::from_utf8(file.bytes) {
        Ok(text) => text,
        Err(error) => return Err(refused_at(alloc, file, error.valid_up_to(), "not UTF-8")),
    };
    match Document::parse(alloc, text) {
        Ok(document) => Ok(ReadDocument {
            file,
            text,
            document,
        }),
        Err(DocumentError::Memory) => Err(Stop::Memory),
        Err(DocumentError::Marker { offset }) => Err(refused_at(alloc, file, offset, "no marker")),
    }
}
