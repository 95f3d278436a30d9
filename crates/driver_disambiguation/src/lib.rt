//! What disambiguates cites that print alike: classes of them, and rounds in which these are given more names, other branches or year
//! suffixes.
#![tactic(auto)]

mod branches;
mod classes;
mod entry_sets;
mod given_suffixes;
mod hashed_text;
mod numbers;
mod printed_cites;
mod round;
mod states;
mod year_suffixes;

pub use driver_names::{Candidate, GivenState, Printed};
pub use given_suffixes::suffixes;
pub use printed_cites::PrintedCites;
pub use round::append_given;
pub use states::update_states;
