//! Laws of existence: each text has a meaning, and so has all that the definitions of the meaning speak of. So a contract that asks
//! for the meaning of a text always allows another answer than out of memory. Each function does nothing, and carries a law of
//! definitions as its contract.
#![tactic(auto)]

mod graphs;
mod meanings;
mod solutions;

pub use graphs::{
    each_acyclic_graph_has_depths, each_graph_has_an_order, each_graph_has_marks,
    each_list_of_definitions_has_flags,
};
pub use meanings::{
    all_that_is_read_comes_to_an_answer, all_that_is_read_is_well_read, each_text_has_one_meaning,
};
pub use solutions::each_acyclic_file_has_resolved_entries;
