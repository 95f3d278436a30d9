//! Cases of numbers, dates and people, of entries, selectors and libraries; and entries as values of cases.
#![tactic(auto)]

mod asked;
mod copies;
mod entry_steps;
mod fields;
mod given_entries;
mod initials;
mod libraries;
mod reading;
mod selectors;
mod written_entries;

use cases::{Session, Value};
pub use given_entries::{boxed, entry_member};
pub use written_entries::put_entry;

/// How deep entries may be parts of one another.
pub const ENTRY_DEPTH: u32 = 400;

/// Writes the members of the answer to a case of this kind; false where the kind is none of these.
pub fn answer(session: &mut Session, kind: &str, case: &Value<'_>) -> bool {
    match kind {
        "read" => reading::read(session, case),
        "print" => reading::print(session, case),
        "initials" => initials::initials(session, case),
        "library_entry" => entry_steps::library_entry(session, case),
        "equal_entries" => entry_steps::equal_entries(session, case),
        "selector" => selectors::selector(session, case),
        "query" => selectors::query(session, case),
        "library" => libraries::library(session, case),
        _ => return false,
    }
    true
}
