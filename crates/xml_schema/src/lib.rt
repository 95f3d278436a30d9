//! Trees of XML by a schema: which elements, attributes and values a tree may have, as tables, and the first fault of a tree.
#![tactic(auto)]

mod attribute;
mod child;
mod fault;
mod finding;
mod own;
mod placing;
mod schema;
mod standing;
mod valid;
mod value;

pub use attribute::has_name;
pub use fault::{Fault, Wrong};
pub use finding::first_fault;
pub use placing::fault_left;
pub use schema::{AttributeRule, ChildRule, Need, Rule, Schema, Times, Values};
pub use valid::{ValidError, parse_valid};
