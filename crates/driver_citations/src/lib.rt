//! Citations from what their cites print, and citations outside of any document.
#![tactic(auto)]

mod as_written;
mod citation;
mod contents;
mod ending_text;
mod layout_texts;
mod meeting;
mod request_parts;
mod standalone;

pub use as_written::{
    all_cites_are_printed, cites_are_as_written, suffixes_are_not_repeated, trees_are_as_written,
};
pub use citation::{ShownCite, citation_of};
pub use request_parts::{context_for, plain_locator};
pub use standalone::standalone_citation;
