//! Dates and ranges of dates as a style prints them: the parts of a date in their order, each in its form and between its
//! affixes; both sides of a range; and years alone.
#![tactic(auto)]

mod apart;
mod changes;
mod delimiters;
mod merged;
mod parts;
mod printed;
mod ranges;
mod shape;
mod sides;
mod years;

pub use shape::DateShape;
pub use sides::DateStyle;
pub use years::push_years;
