//! References between numbered things: which of them reach themselves, and an order in which each comes after all that it
//! refers to.
#![tactic(auto)]

mod order;
mod search;

pub use order::{ReferenceOrder, reference_order};
