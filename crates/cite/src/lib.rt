//! A citation filter: replaces the markers of a document by citations of a BibLaTeX file, and writes the bibliography
//! after it. `cite` writes to a sink, `cite_to_string` returns the text.
#![tactic(auto)]

mod engine;
mod memory;
mod output_laws;

pub use cite_markers::{Cite, CiteLocator, Document, DocumentError, Piece};
pub use cite_requests::{BibTextError, CiteError, DocumentTextError, cited_keys, work_of};
pub use cite_styles::{author_date, english, note, numeric};
pub use engine::{cite, cite_at_exit, cite_to_string};
pub use interop::{DateField, FieldFault};
pub use literature::SelectorError;
pub use output_laws::{
    alike_texts_have_one_verdict, citations_depend_on_markers_alone,
    rewriting_has_the_same_verdicts, texts_come_out_unchanged,
};
pub use rendering_locale::Locale;
pub use rendering_output::BufWriteFormat;
pub use rendering_style::Style;
pub use sinks::{Sink, SinkFault, Tap};
