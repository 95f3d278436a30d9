//! The elements, attributes and words of CSL 1.0.2 that styles and locales may have, as a schema.
#![tactic(auto)]

mod attributes;
mod first;
mod placed;
mod rules;
mod words;

pub use first::{first_csl_fault, parse_csl};
