//! The items of a bibliography: their fields, and what stands for names that repeat those of the item before.
#![tactic(auto)]

mod as_elements;
mod fields;
mod lists;
mod repeats;
mod substitute;

pub use as_elements::{all_is_replaced, names_are_elements};
pub use fields::{ItemFields, PrintedItem, items};
