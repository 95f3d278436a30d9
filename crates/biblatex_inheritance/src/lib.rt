//! What entries inherit from the entries that they refer to.
#![tactic(auto)]

mod dated;
mod error;
mod inherit;
mod solution;

pub use dated::{Dated, read_date};
pub use error::{DateFault, ResolveError};
pub use inherit::{date_value, needs_date, set_date, text_of_date};
pub use solution::{Resolution, resolve};
