//! Cases of the bridge from BibLaTeX files to libraries, of labels, of documents and their citations, of what `bib_show` shows of entries, of how
//! `cite` hands its output to a sink, of what is left where memory is refused to a call, and of files of CSL and documents in their styles.
#![tactic(auto)]

mod bridge;
mod bytes;
mod citing;
mod csl;
mod document;
mod kept;
mod labels;
mod parts;
mod refusals;
mod setting;
mod show;

pub use bytes::bytes_of;
use cases::{Session, Value};
pub use document::put_marker_error;
pub use refusals::{put_cite_error, put_section_error};
pub use setting::{english, style};

/// Writes the members of the answer to a case of this kind; false where the kind is none of these.
pub fn answer(session: &mut Session, kind: &str, case: &Value<'_>) -> bool {
    match kind {
        "bridge" => bridge::answer_bridge(session, case),
        "citation_label" => labels::answer_label(session, case),
        "cite" => citing::answer_cite(session, case),
        "cite_parts" => parts::answer_parts(session, case),
        "csl_cite" => csl::answer_csl_cite(session, case),
        "csl_file" => csl::answer_csl_file(session, case),
        "document" => document::answer_document(session, case),
        "inserted" => kept::answer_inserted(session, case),
        "show" => show::answer_show(session, case),
        "written_after" => kept::answer_written(session, case),
        _ => return false,
    }
    true
}
