//! Where output goes: sinks, the loop that writes to them, and targets that texts are handed to.
#![tactic(auto)]

mod sink;
mod target;

pub use sink::{Sink, SinkFault, Tap, write_all};
pub use target::{SinkTarget, Target};
