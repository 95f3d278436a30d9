//! What becomes of the memory of a call.

use std::alloc::Global;
use std::mem;

/// Where a call takes memory from, and what becomes of it once it is not needed any more.
#[derive(Clone, Copy)]
pub(crate) struct Memory {
    pub(crate) alloc: Global,
    pub(crate) ending: Ending,
}

/// What becomes of memory that is not needed any more.
#[derive(Clone, Copy)]
pub(crate) enum Ending {
    /// It is given back.
    GivenBack,
    /// It is left to the system, which takes it back when the process ends.
    Left,
}

impl Memory {
    /// Frees a value that is not needed any more, or leaves it to the system.
    pub(crate) fn free_or_leave<T: Drop>(self, value: T) {
        match self.ending {
            Ending::GivenBack => drop(value),
            Ending::Left => mem::forget(value),
        }
    }
}
