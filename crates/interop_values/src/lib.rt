//! The contents of fields of BibLaTeX entries as values of a library: by the names under which fields are written, the texts,
//! people, numbers, page ranges, publishers, addresses and dates that stand under them.
#![tactic(auto)]

mod dates;
mod pieces;
mod readings;
mod values;

pub use dates::{date_under, library_date, own_date};
pub use readings::{
    address, format, format_if, format_under, number_and_text_under, pages_and_text_under,
    people_under, publisher, text_under, title,
};
pub use values::{text, value};
