//! Cases of the calls of `cite_uses`, and of runs of the programs.
#![tactic(auto)]

mod alike;
mod bibliography;
mod csl_program;
mod documents;
mod files;
mod flattened;
mod program;
mod style;

use cases::{Session, Value};

/// Writes the members of the answer to a case of this kind; false where the kind is none of these.
pub fn answer(session: &mut Session, kind: &str, case: &Value<'_>) -> bool {
    match kind {
        "are_alike" => alike::answer_alike(session, case),
        "bibliography_of" => bibliography::answer_bibliography(session, case),
        "cite_csl_files" => csl_program::answer_files(session, case),
        "cited_by_numbers" => documents::answer_numbers(session, case),
        "cited_on_page" => documents::answer_page(session, case),
        "flattened_file" => flattened::answer_flattened(session, case),
        "program" => program::answer_program(session, case),
        _ => return false,
    }
    true
}
