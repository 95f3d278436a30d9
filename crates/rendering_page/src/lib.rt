//! The page to which the texts of a citation are appended, one after the other, and the tree that is made of it.
#![tactic(auto)]

mod appending;
mod copies;
mod cutting;
mod joining;
mod joints;
mod manner;
mod marks;
mod page;
mod page_characters;
mod page_end;
mod piece;
mod plain;
mod tail;

pub use joints::{goes_inside, is_left_out, is_replaced, is_stop};
pub use manner::{Frame, Manner, is_joined, uncased, with_case};
pub use page::Page;
pub use piece::{Link, Piece, Words, looks_like, no_words, pop_made, split_last, trim_made};
pub use plain::plain_manner;
