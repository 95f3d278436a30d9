//! What texts of BibLaTeX fields mean as values of a type, and how values are written: integers, genders, editor types and
//! ranges of pages.
#![tactic(auto)]

mod dates;
mod editor_type;
mod error;
mod gender;
mod integer;
mod pages;
mod text;

pub use biblatex_dates::TypeErrorKind;
pub use dates::date_text;
pub use editor_type::EditorType;
pub use error::ListError;
pub use gender::Gender;
pub use integer::{integer_text, read_integer};
pub use pages::{range_text, ranges_text, read_range, read_ranges};
pub use text::{normal_chunks, plain_text, text_chunks};
