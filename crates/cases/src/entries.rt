//! Cases of entries and bibliographies of BibLaTeX files.

mod bibliographies;
mod changes;
mod data;
mod entries;
mod entry_types;
mod fields;
mod files;
mod getters;
mod printing;
mod refusals;
mod values;

use crate::{Session, Value};
use bibliographies::answer_bibliography;
pub use data::read_entry;
use entries::answer_entry;
use entry_types::answer_entry_type;
pub use refusals::{put_parse_error, put_parse_reason};
use values::{answer_abbreviations, answer_field};

/// Writes the members of the answer to a case of this kind; false where the kind is none of these.
pub fn answer(session: &mut Session, kind: &str, case: &Value<'_>) -> bool {
    match kind {
        "bibliography" => answer_bibliography(session, case),
        "entry" => answer_entry(session, case),
        "entry_type" => answer_entry_type(session, case),
        "field" => answer_field(session, case),
        "abbreviations" => answer_abbreviations(session, case),
        _ => return false,
    }
    true
}
