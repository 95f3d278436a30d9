//! The raw grammar of BibLaTeX texts: items with their keys, fields and abbreviations, which borrow the source.
#![tactic(auto)]

mod blank;
mod bracket;
mod character;
mod cursor;
mod error;
mod fields;
mod items;
mod parser;
mod piece;
mod raw;
mod reader;
mod run;
mod spanned;
mod state;
mod token;
mod value;
mod word;

pub use character::{is_id_continue, is_id_start, is_key};
pub use error::RawError;
pub use parser::BiblatexParser;
pub use raw::{Field, Pair, RawBibliography, RawChunk, RawEntry};
pub use spanned::Spanned;
pub use token::{Fault, Token};
