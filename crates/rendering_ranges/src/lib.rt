//! Pages as texts: how a style shortens the second number of a range of pages, and the en dashes, letters and noughts of numbers in texts.
#![tactic(auto)]

mod counts;
mod dashes;
mod delimiters;
mod digits;
mod formats;
mod letters;
mod meaning;
mod ranges;

pub use dashes::{dashed, first_in, has_padding};
pub use delimiters::{delimited, en_dashes_stay};
pub use letters::lettered;
pub use meaning::{
    formats_print_what_is_there, pages_without_format_are_as_they_are,
    second_numbers_mean_their_page, texts_without_format_are_dashed,
};
pub use ranges::{push_ranges, push_second};
