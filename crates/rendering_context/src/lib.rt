//! What the nodes of a style are printed from: what is known of a cite beside its entry, what variables answer in it, and which
//! conditions are met.
#![tactic(auto)]

mod answer;
mod choosing;
mod cite;
mod context;
mod locator;
mod pages;
mod stretch;
mod variables;

pub use answer::Answer;
pub use choosing::{asks_disambiguate, is_ibid};
pub use cite::{CiteProperties, DisambiguateState};
pub use context::Context;
pub use locator::{LocatorPayload, SpecificLocator, TransparentLocator, is_range_sign};
pub use stretch::is_numeric_text;
