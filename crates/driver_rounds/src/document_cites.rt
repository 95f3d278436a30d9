//! The cites of a document with what they are printed from.

ghost use Rattle.std.specs.Prelude.{◌≡◌, ◌<◌, Some, length, map, slice_get};
ghost use Rattle.driver_rounds.specs.CitesInStep.{AreInStep, IsInStep};

use crate::cite::NumberedCite;
use driver_requests::CitationRequest;
use rendering::StyleContext;

/// The requests of a document, each with its style and its cites.
#[derive_where(Clone, Copy)]
pub struct DocumentCites<'r, 'c, T, P> {
    pub requests: &'r [CitationRequest<'r, T, P>],
    pub contexts: &'c [StyleContext<'c>],
    pub runs: &'c [Vec<NumberedCite<'c>>],
}

/// A request with its style, and its cites in the order of its items.
#[derive_where(Clone, Copy)]
pub struct RequestCites<'r, 'c, T, P> {
    pub request: &'r CitationRequest<'r, T, P>,
    pub context: &'c StyleContext<'c>,
    pub run: &'c [NumberedCite<'c>],
}

impl<'r, 'c, T, P> DocumentCites<'r, 'c, T, P> {
    /// The request at an index.
    pub fn request(self, index: usize) -> RequestCites<'r, 'c, T, P>
        requires in_step { AreInStep self }
        requires index { index < length self.requests.now }
        ensures request { slice_get self.entry.requests.now index ≡ Some result.request.now }
        ensures run { slice_get (map (λ v. v.items) self.entry.runs.now) index
            ≡ Some result.run.now }
        ensures in_step { IsInStep result }
    {
        RequestCites {
            request: &self.requests[index],
            context: &self.contexts[index],
            run: self.runs[index].as_slice(),
        }
    }
}
