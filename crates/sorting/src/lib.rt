//! Values sorted by keys, stably: of values whose keys compare as equal those that come first stay first.
#![tactic(auto)]

mod keyed;
mod sorting_laws;

pub use keyed::{Keyed, sorted_by_keys};
pub use sorting_laws::{
    sorted_is_permutation, sorted_is_sorted, sorted_is_stable, stable_sorts_are_one,
};
