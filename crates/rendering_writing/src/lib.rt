//! For callers who print by themselves: a page with the setting that is handed down to what is appended to it, texts and nodes of a style
//! that are appended there, and surveys of nodes before.
#![tactic(auto)]

mod context;
mod render;
mod writing;

pub use context::Context;
pub use render::RenderCsl;
pub use writing::WritingContext;
