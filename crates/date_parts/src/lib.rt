//! What dates of every kind are made of: the parts that are read from a text, which days there are, what a year, a month and
//! a day mean, and how they are written.
#![tactic(auto)]

mod calendar;
mod dates;
mod parts;
mod written;

pub use calendar::has_day;
pub use dates::{CalendarDate, OutOfRange, dated, in_month, on_day, year_alone};
pub use parts::{read_part, signed_year};
pub use written::{write_counted, write_padded, write_year};
