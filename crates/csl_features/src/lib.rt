//! What a style asks for and is not carried out, and the terms that it prints and no locale has, by the elements that ask for them.
#![tactic(auto)]

mod asking;
mod feature;
mod missing;
mod rows;
mod walking;

pub use asking::features;
pub use feature::Feature;
pub use missing::missing_terms;
