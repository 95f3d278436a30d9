//! What entries answer to a style: the trait that rendering asks, and the answers of a library's entries.
#![tactic(auto)]

mod dates;
mod entry_like;
mod kinds;
mod labels;
mod library;
mod nearest;
mod numbers;
mod people;
mod standard;
mod works;
mod written;

pub use entry_like::{EntryLike, are_one_entry};
pub use labels::Alphanumerical;
pub use library::is_english;
