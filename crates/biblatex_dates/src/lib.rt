//! Dates of bibliographic entries: read from one text or from year, month and day, and written.
#![tactic(auto)]

mod date;
mod datetime;
mod error;
mod parts;
mod shape;
mod side;
mod written;

pub use date::{Date, DateValue};
pub use datetime::{Datetime, Time, TimeOffset};
pub use error::TypeErrorKind;
