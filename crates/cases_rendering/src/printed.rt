//! Cases of numbers and dates as texts, written texts, pages and trees.

mod dated;
mod metas;
mod name_forms;
mod numbers;
mod pages;
mod tree_calls;
mod trees;
mod writing;
mod written_trees;

use cases::{Session, Value};
pub use name_forms::NAME_FORMS;
pub use tree_calls::{put_written, put_written_tree};

/// Writes the members of the answer to a case of this kind; false where the kind is none of these.
pub fn answer(session: &mut Session, kind: &str, case: &Value<'_>) -> bool {
    match kind {
        "write_year" => numbers::answer_year(session, case),
        "write_number" => numbers::answer_number(session, case),
        "suffix_letters" => numbers::answer_year_suffix(session, case),
        "write_text" => writing::answer(session, case),
        "name_form" => name_forms::answer(session, case),
        "date" => dated::answer(session, case),
        "page" => pages::answer(session, case),
        "simplify" => tree_calls::answer_simplified(session, case),
        "find" => tree_calls::answer_found(session, case),
        "remove" => tree_calls::answer_removed(session, case),
        "equal_trees" => tree_calls::answer_equal(session, case),
        _ => return false,
    }
    true
}
