//! Keys by which texts are sorted as readers expect it, whatever their case, their marks and their punctuation.
#![tactic(auto)]

mod key;
mod letter;

pub use key::{CollationKey, collate};
