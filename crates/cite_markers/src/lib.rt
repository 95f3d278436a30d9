//! Markers of citations in documents: which works a document cites and where, and the text around them. A marker is a bracket, cites parted
//! by a semicolon and a space, and a closing bracket, as in `[@key]` or `[-@one; prose @two page 3]`. All that is found borrows the
//! document.
#![tactic(auto)]

mod class;
mod document;
mod error;
mod marker;
mod words;

pub use document::{Document, Piece};
pub use error::DocumentError;
pub use marker::{Cite, CiteLocator};
