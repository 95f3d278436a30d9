//! The people that contents of fields of BibLaTeX entries name, as people of a library.
#![tactic(auto)]

mod people;

pub use people::people_in;
