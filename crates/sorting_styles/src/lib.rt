//! The style by which the keys of a style print: in its macros dates stand in digits, and names are inverted and left out as the keys say,
//! without a word for those that are left out.
#![tactic(auto)]

mod dates;
mod locales;
mod names;
mod nodes;
mod style;

pub use style::sorting_style;
