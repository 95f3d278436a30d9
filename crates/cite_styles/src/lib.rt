//! The styles that citations are printed in, and the locale of English as it is written in the United States, as values.
#![tactic(auto)]

mod dates;
mod endings;
mod layouts;
mod locale;
mod nodes;
mod notes;
mod numbers;
mod parts;
mod people;
mod rows;
mod years;

pub use locale::english;
pub use notes::note;
pub use numbers::numeric;
pub use years::author_date;
