//! Laws of the grammar of BibLaTeX texts: what a text holds is said by relations that are defined by cases, without reading from the
//! left, and this is what is read; what such a relation leaves out is refused, where and with what the relation determines. Each function
//! does nothing, and carries a law of definitions as its contract.
#![tactic(auto)]

mod reading;

pub use reading::{items_are_unique, refused_is_refusal, what_is_read_is_held};
