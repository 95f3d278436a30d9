//! Laws of the grammars of what a file says in raw values: what the text of an ordinary or of a verbatim field gives, what a tidied text
//! is, which date, integer or pages a text spells, and which people a field of names means. Each is said by relations that are defined by
//! cases, without reading from the left, and this is what is read; a text that no such relation holds is refused. Each function does
//! nothing, and carries a law of definitions as its contract.
#![tactic(auto)]

mod contents;
mod dates;
mod numbers;
mod people;

pub use contents::{
    malformed_is_unrelated, read_is_what_is_related, readings_are_unique,
    tidied_is_what_is_related, verbatim_is_what_is_related,
};
pub use dates::{date_is_what_is_related, sides_are_unique};
pub use numbers::{
    integer_is_what_is_related, range_is_what_is_related, ranges_are_what_is_related,
};
pub use people::people_are_what_is_related;
