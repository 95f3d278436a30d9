//! Cites as they print by a state of disambiguation, and what names disambiguate those of a class: more of the people, and more of their
//! given names.
#![tactic(auto)]

mod given_state;
mod names;
mod names_compared;
mod names_members;
mod names_people;
mod names_raised;
mod names_shared;
mod namesakes;
mod people_disambiguated;
mod printed;
mod same_keys;

pub use given_state::GivenState;
pub use names::states_by_names;
pub use people_disambiguated::first_names;
pub use printed::{Candidate, Printed, plain_text, push_where};
