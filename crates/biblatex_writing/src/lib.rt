//! BibLaTeX files as they are written: entries as a file, which entries and contents read back, and entries without references.
#![tactic(auto)]

mod characters;
mod content;
mod entries;
mod flat;
mod names;
mod rules;
mod settled;
mod settled_content;
mod target;

pub use entries::{entries_text, write_entries};
pub use flat::{flatten_entries, flatten_entry};
pub use names::{is_never_written, other_name, written_name};
pub use settled::{
    are_each_settled, has_key, has_touching_hyphens, is_settled_entry, is_settled_field,
    is_settled_key, is_settled_type, names_entries,
};
pub use settled_content::is_settled_content;
