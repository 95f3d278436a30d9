//! Entries of a library with the works that they are part of.
#![tactic(auto)]

mod ancestors;
mod details;
mod entry;
mod equal;
mod fields;
mod serials;
mod written;

pub use entry::Entry;
pub use equal::are_equal_entries;
