//! The output of a document: its texts with a citation instead of each marker, and the bibliography after them, as a text
//! or written to a sink.
#![tactic(auto)]

mod output;
mod printed;

pub use output::Output;
