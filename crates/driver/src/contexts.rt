//! Styles of requests with the languages that are asked for.

ghost use Rattle.std.specs.Prelude.{◌≡◌, map, IfOk};
ghost use Rattle.rendering.specs.Views.{style_context_view};
ghost use Rattle.driver_requests.specs.Views.{context_of};

use driver_citations::context_for;
use driver_requests::CitationRequest;
use rendering::StyleContext;
use std::alloc::{AllocError, Global};

/// The styles of requests with the languages that are asked for.
pub(crate) fn contexts<'r, T, P>(
    alloc: Global,
    requests: &'r [CitationRequest<'r, T, P>],
) -> Result<Vec<StyleContext<'r>>, AllocError>
    ensures { IfOk result (λ v. map style_context_view v.items ≡ map context_of requests.now) }
{
    let mut contexts = Vec::with_capacity(alloc, requests.len())?;
    for request in requests {
        contexts.push(context_for(alloc, request)?)?;
    }
    Ok(contexts)
}
