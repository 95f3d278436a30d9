//! The fields of BibLaTeX entries: abbreviations are opened, and raw values become chunks of text.
#![tactic(auto)]

mod abbreviations;
mod error;
mod fields;
mod glossary;
mod month;
mod openings;
mod references;
mod slots;
mod text;
mod value;

pub use abbreviations::Abbreviations;
pub use biblatex_content::{Chunk, Chunks, ChunksExt, Span, Spanned};
pub use error::{ParseError, ParseErrorKind};
pub use fields::{Fields, read_fields};
