//! Laws of the grammar of documents with markers: what a document holds is said by relations that are defined by cases, without reading
//! from the left, and this is what is read; an opening at which no marker begins is refused. Each function does nothing, and carries a law
//! of definitions as its contract.
#![tactic(auto)]

mod reading;

pub use reading::{opening_is_refused, pieces_are_unique, what_is_read_is_held};
