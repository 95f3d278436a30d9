//! How the cites of one citation are gathered in blocks and collapsed: numbers, years and year suffixes.
#![tactic(auto)]

mod arranging;
mod blocks;
mod cite;
mod key;
mod numbers;
mod people;
mod runs;
mod shown;
mod suffixes;
mod years;

pub use arranging::arrange;
pub use cite::{Arranged, Before, Gathered};
