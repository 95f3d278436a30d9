//! The contents of BibLaTeX fields: pieces of a field become chunks of normal text, verbatim text and math.
#![tactic(auto)]

mod chunk;
mod contents;
mod copy;
mod joining;
mod names;
mod ordinary;
mod parted;
mod tidy;
mod verbatim;
mod writing;

pub use biblatex_tex::ContentError;
pub use biblatex_text::Spanned;
pub use chunk::{Chunk, Chunks, ChunksExt, Kind, Span};
pub use contents::Contents;
pub use copy::copied;
pub use names::third_byte;
pub use verbatim::{is_escapable, is_verbatim_field};
pub use writing::push_biblatex;
