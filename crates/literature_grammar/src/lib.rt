//! Laws of the grammars of numbers, page ranges and selectors, and of the relation of initials: what a text spells, and what the initials
//! of a given name are, is said by relations that are defined by cases, without reading from the left. This is what is read and written,
//! and a text that spells nothing is refused. Each function does nothing, and carries a law of definitions as its contract.
#![tactic(auto)]

mod initials;
mod numbers;
mod selectors;

pub use initials::initials_are_what_is_related;
pub use numbers::{
    numeral_is_what_is_related, numerals_are_unique, pages_are_unique, pages_are_what_is_related,
};
pub use selectors::{refused_is_refusal, trees_are_unique, what_is_read_is_spelled};
