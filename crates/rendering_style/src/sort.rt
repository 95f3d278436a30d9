//! By what cites and items are sorted.

use rendering_taxonomy::{SortDirection, Variable};

/// What the key of an item is.
#[derive(Debug, PartialEq, Eq, Drop)]
pub enum SortTarget {
    /// The answer to a variable.
    Variable(Variable),
    /// What the first macro of that name prints.
    Macro(String),
}

/// A key, and the direction in which items are sorted by it. Of its names so many may be left out as it says.
#[derive(Debug, PartialEq, Eq, Drop)]
pub struct SortKey {
    pub target: SortTarget,
    pub direction: SortDirection,
    pub names_min: Option<u32>,
    pub names_use_first: Option<u32>,
    pub names_use_last: Option<bool>,
}
