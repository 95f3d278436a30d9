//! Entries of bibliographies: their types, their fields and their names.
#![tactic(auto)]

mod entry;
mod entry_type;
mod error;
mod names;
mod role;
mod typed;

pub use entry::{Entry, field_text, value_text};
pub use entry_type::EntryType;
pub use error::RetrievalError;
pub use names::{name_alone, names_listed};
pub use role::Role;
