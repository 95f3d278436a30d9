//! Laws of `cite`: each call has a verdict, and each run of the program an end, so that their contracts always allow another answer than
//! out of memory; what a document sees of a bib text are the entries that its names reach by references, and what comes to an entry by
//! reference prints as if it stood in the entry; and what holds of the names by which a document cites works, of the numbers that they get,
//! and of hidden cites. The functions do nothing, and carry the laws as their contracts.
#![tactic(auto)]

mod existence;
mod locality;
mod names;

pub use existence::{each_call_has_one_verdict, each_run_has_one_end};
pub use locality::{
    one_unreached_entry_changes_nothing, reached_entries_decide, references_may_be_written_out,
    uncited_entries_change_nothing,
};
pub use names::{
    each_cite_is_printed, hidden_markers_print_nothing, names_of_one_work_share_number_and_state,
    numbers_are_places, other_names_print_the_same, outputs_are_of_prints,
};
