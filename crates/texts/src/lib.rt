//! Reads a text from the left: runs of a class of characters, numbers and digits, and where the text ends. What is found
//! is borrowed; nothing takes memory. Texts that grow, and texts that may be absent.
#![tactic(auto)]

mod character;
mod growing;
mod optional;
mod reader;

pub use character::{CharacterClass, Class, split_first, split_run};
pub use growing::{empty_text, has_text, owned, push_character, push_text, take_text};
pub use optional::{borrowed_text, first_text, no_text, or_empty, text_or, text_or_empty};
pub use reader::{Reader, Unreadable};
