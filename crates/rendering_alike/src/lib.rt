//! What a style names of entries, and whether two entries answer alike to it: where they do, they print alike.
#![tactic(auto)]

mod answers;
mod equal;
mod names;

pub use answers::answer_alike;
pub use names::{StyleNames, style_names};
