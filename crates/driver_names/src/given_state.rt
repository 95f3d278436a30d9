//! States that classes give to entries.

use driver_requests::Origin;
use rendering_context::DisambiguateState;

/// A state that a class gives to an entry.
#[derive(Debug, Drop)]
pub struct GivenState {
    /// The index of the entry among all that are cited, from zero.
    pub entry: usize,
    pub state: DisambiguateState,
    pub origin: Origin,
}
