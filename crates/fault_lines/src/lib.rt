//! What is said of faults of a source: `PATH:LINE:COLUMN:` and why, what is shown of the line, and a caret below the place. A line is shown by a
//! window of at most 60 characters on each side, and `FaultLines` counts lines and columns onward from the fault before, so that many faults
//! cost one pass over the source and a bounded number of bytes each.
#![tactic(auto)]

mod lines;
mod place;
mod window;

pub use lines::{FaultLines, fault_lines};
pub use place::Place;
