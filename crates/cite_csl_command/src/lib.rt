//! The command line of `cite_csl`: which options there are, and what words ask for.
#![tactic(auto)]

mod asked;
mod command;

pub use asked::{Asked, CommandFault, asked_by};
