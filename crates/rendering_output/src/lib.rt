//! How what is printed is written, in plain text and in HTML: texts that look so, links, formulas, and where elements begin and end.
#![tactic(auto)]

mod target;
mod writers;
mod writing;

pub use target::{TextTarget, WriterTarget};
pub use writing::BufWriteFormat;
