//! The people who answer a names node, and how much of their names is printed.
#![tactic(auto)]

mod people;
mod properties;
mod raising;

pub use people::{Answered, borrowed_person, names_meta};
pub use properties::{NameDisambiguationProperties, PeopleCount, split_forms};
