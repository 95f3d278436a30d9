//! What an ordinary BibLaTeX field is made of: its tokens, what commands stand for, and accents.
#![tactic(auto)]

mod accent;
mod character;
mod command;
mod error;
mod token;

pub use accent::{put_marks, reversed};
pub use character::{Class, is_blank};
pub use command::{letter_character, letter_mark, sign_character, sign_mark};
pub use error::ContentError;
pub use token::{Lexer, Token, paired_tokens};
