//! The entries of a text as they are read: each alone, before its names and its references are looked at.
#![tactic(auto)]

mod reading;

pub use reading::{ReadEntries, read_entries, read_entry};
