//! Lists in BibLaTeX fields: a value parted at the word `and`, its parts as texts or people, and these written as a value.
#![tactic(auto)]

mod name;
mod pairs;
mod parting;
mod people_read_back;
mod people_writing;
mod person;
mod read_back;
mod reading;
mod styled_char;
mod text_list;
mod words;
mod writing;

pub use parting::{parts, trimmed};
pub use people_read_back::{people_are_read_back, plain_people_are_read_back};
pub use people_writing::write_people;
pub use person::Person;
pub use read_back::texts_are_read_back;
pub use reading::read_people;
pub use styled_char::{StyledChar, plain_text, push_chars, styled_chars};
pub use text_list::{read_texts, write_texts};
pub use writing::{Writing, is_loose, padded};
