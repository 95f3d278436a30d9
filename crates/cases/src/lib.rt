//! What cases are read and answered with: the members of JSON objects and of answers, chunks and spans, the values of both libraries, and
//! why a line is no case. Also the cases of texts of BibLaTeX files, of contents and values of fields, of entries and bibliographies, of
//! texts of XML, of files of CSL, and of texts that are sorted.
#![tactic(auto)]

mod characters;
mod chunks;
mod content;
mod csl;
mod entries;
mod items;
mod limits;
mod members;
mod refusal;
mod session;
mod showing;
mod shown;
mod sorted;
mod spans;
mod taken;
mod taker;
mod values;
mod words;
mod writing;
mod xml;

use characters::{answer_characters, answer_verbatim_field};
pub use chunks::{normal_chunks, put_chunks, read_chunks, read_chunks_in};
use content::answer_content;
use csl::answer_csl_fault;
pub use entries::{put_parse_error, put_parse_reason, read_entry};
use items::answer_items;
pub use items::{put_fault, token_name};
pub use json::Value;
pub use limits::read_taker;
pub use members::member;
pub use refusal::Refusal;
pub use session::Session;
use shown::answer_chunks;
use sorted::answer_sorted_texts;
pub use spans::{maybe_span, put_span, put_span_as};
pub use taken::{put_taken, put_write_error};
pub use taker::Taker;
pub use values::{
    CaseValue, given, maybe_given, put_list, put_maybe, put_member, put_or_null, type_error_name,
};
pub use words::{value_of, word_of};

/// Writes the members of the answer to a case of texts, contents, files of CSL or sorted texts; false where the kind is none of these.
fn answer_texts(session: &mut Session, kind: &str, case: &Value<'_>) -> bool {
    match kind {
        "items" => answer_items(session, case),
        "content" => answer_content(session, case),
        "chunks" => answer_chunks(session, case),
        "characters" => answer_characters(session, case),
        "verbatim_field" => answer_verbatim_field(session, case),
        "csl_fault" => answer_csl_fault(session, case),
        "sorted_texts" => answer_sorted_texts(session, case),
        _ => return false,
    }
    true
}

/// Writes the members of the answer to a case of this kind; false where the kind is none of these.
pub fn answer(session: &mut Session, kind: &str, case: &Value<'_>) -> bool {
    answer_texts(session, kind, case)
        || values::answer(session, kind, case)
        || entries::answer(session, kind, case)
        || xml::answer(session, kind, case)
}
