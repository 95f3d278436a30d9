//! What programs have in common: files that were read, words, and lines for the second sink.
#![tactic(auto)]

mod files;
mod programs;

pub use files::{FileRead, ReadFault, bytes_at};
pub use programs::{borrowed, line_of, read_files, say, words_given};
