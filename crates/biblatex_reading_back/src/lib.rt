//! Laws of written BibLaTeX files: what is written of settled contents reads back as these contents. Each function carries a law of
//! definitions as its contract, and does nothing.
#![tactic(auto)]

mod contents;
mod entries;
mod files;

pub use contents::{
    ordinary_contents_read_back, tidy_texts_stay, verbatim_contents_read_back,
    written_contents_are_balanced,
};
pub use entries::settled_entries_read_back;
pub use files::files_are_read_as_spelled;
