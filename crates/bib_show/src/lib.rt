//! Shows what a BibLaTeX file says once its references are resolved, or writes that as a file without references, or says where its
//! first mistake stands. `show` is the library's call, `run` is the program over files that were read and any writers.
#![tactic(auto)]

mod member;
mod program;
mod shown;
mod unsettled;

pub use program::{paths, run};
pub use shown::show;
