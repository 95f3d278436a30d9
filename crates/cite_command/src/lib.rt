//! The program `cite` over files that were read and any writers: `paths` says which files words ask for, `run` runs the program. A law says that
//! the messages for refusals are one line each.
#![tactic(auto)]

mod one_line;
mod program;

pub use one_line::refusals_have_line_messages;
pub use program::{paths, run};
