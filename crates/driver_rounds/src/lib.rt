//! The cites of a document from their numbers to their states: what each of them prints undisambiguated, and the rounds in which those that
//! print alike are disambiguated.
#![tactic(auto)]

mod cite;
mod document_cites;
mod first_names;
mod first_printing;
mod numbered;
mod order_and_numbers;
mod rounds;

pub use cite::NumberedCite;
pub use document_cites::{DocumentCites, RequestCites};
pub use first_names::{first_states, lent, named_runs};
pub use first_printing::{FirstPrints, first_prints};
pub use order_and_numbers::{OrderAndNumbers, known_of};
pub use rounds::{RoundStates, disambiguated};
