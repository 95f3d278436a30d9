//! Text case as CSL has it: which letters of a text are small and which are capitals, for texts and for texts in pieces, of which verbatim
//! pieces and formulas stay as they are. It knows no styles, no languages but English, and no pages.
#![tactic(auto)]

mod cased;
mod letter;
mod place;
mod word;

pub use cased::{applies, cased_chunks, cased_text};
