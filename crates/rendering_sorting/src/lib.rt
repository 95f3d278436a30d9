//! The values by which a style sorts: of the answer to a variable, or of what a macro prints for sorting, in a direction.
#![tactic(auto)]

mod key;
mod key_laws;
mod names;
mod printed;
mod values;

pub use key::{SortPart, SortValue, part_of};
pub use key_laws::keys_compare_by_their_values;
pub use printed::key_value;
