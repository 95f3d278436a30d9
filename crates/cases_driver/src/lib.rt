//! Cases of cites and items of a bibliography as a style prints them, and of what a caller prints by itself. Also cases of documents:
//! citations and a bibliography from requests, and citations outside of any document.
#![tactic(auto)]

mod answers;
mod citations;
mod documents;
mod finishing;
mod nodes;
mod properties;
mod requests;
mod sources;
mod states;
mod steps;
mod wanted;
mod writing;

use cases::{Session, Value};
use wanted::Wanted;

/// Writes the members of the answer to a case of this kind; false where the kind is none of these.
pub fn answer(session: &mut Session, kind: &str, case: &Value<'_>) -> bool {
    match kind {
        "citation" => wanted::answer(session, case, Wanted::Citation),
        "item" => wanted::answer(session, case, Wanted::Item),
        "writing" => wanted::answer(session, case, Wanted::Writing),
        "finish" => documents::answer_finish(session, case),
        "standalone" => documents::answer_standalone(session, case),
        _ => return false,
    }
    true
}
