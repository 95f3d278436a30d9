//! Laws of BibLaTeX files: what a name means once references are resolved is decided by the entries that it reaches; what texts hold that
//! are put one after the other, and what entries change that are put between two of them; and what is read of characters is made of
//! characters. The functions do nothing, and carry the laws as their contracts.
#![tactic(auto)]

mod characters;
mod joined;
mod locality;

pub use characters::entries_read_are_text;
pub use joined::{
    joined_texts_hold_both, unreached_entries_between_change_nothing, what_follows_is_read,
};
pub use locality::{one_more_entry_changes_nothing, reached_names_mean_the_same};
