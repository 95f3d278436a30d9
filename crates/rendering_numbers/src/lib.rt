//! Numbers as texts: ordinal and Roman numbers, numerals with what stands round them, the suffixes that disambiguate cites of one
//! year, labels of entries, and years.
#![tactic(auto)]

mod digits;
mod numbers;
mod suffixes_and_labels;
mod years;

pub use digits::{push_digits, push_two_digits};
pub use numbers::{
    push_number, push_numeral, push_numeral_or_text, push_ordinal, push_roman, push_value,
};
pub use suffixes_and_labels::{push_citation_label, push_year_suffix};
pub use years::{push_year, write_year};
