//! The program `cite_csl` over files that were read and any writers: citations and bibliography by a style and locales in CSL. `paths` says which
//! files are asked for, `run` runs the program.
#![tactic(auto)]

mod bib;
mod document;
mod engine;
mod entries;
mod making;
mod named;
mod program;
mod requests;

pub use making::paths;
pub use program::run;
