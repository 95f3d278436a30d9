//! The tree of a page, which is read from its end on.
#![tactic(auto)]

mod builder;

pub use builder::into_tree;
