//! What a reference passes on: which fields an entry inherits, and under which names of the reference.
#![tactic(auto)]

mod passing;
mod table;

pub use passing::{copied_value, pass_on, put_lacking};
pub use table::source_name;
