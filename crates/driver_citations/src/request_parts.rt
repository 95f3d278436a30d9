//! What rendering takes of a request and of its items.

ghost use Rattle.std.specs.Prelude.{◌≡◌, IfOk};
ghost use Rattle.std.specs.Option.{option_map};
ghost use Rattle.rendering.specs.Views.{style_context_view};
ghost use Rattle.rendering_context.specs.Views.{locator_view};
ghost use Rattle.driver_requests.specs.Requests.{plain_locator};
ghost use Rattle.driver_requests.specs.Views as requests;
ghost use Rattle.driver_requests.specs.Views.{context_of};

use driver_requests::{CitationItem, CitationRequest};
use rendering::StyleContext;
use rendering_context::SpecificLocator;
use std::alloc::{AllocError, Global};

/// The style of a request with the language that is asked for.
pub fn context_for<'r, T, P>(
    alloc: Global,
    request: &'r CitationRequest<'r, T, P>,
) -> Result<StyleContext<'r>, AllocError>
    ensures { IfOk result (λ x. style_context_view x ≡ context_of request.now) }
{
    StyleContext::new(
        alloc,
        request.style(),
        request.locale.as_ref(),
        request.locale_files,
    )
}

/// The locator of an item, without what the caller prints by itself.
pub fn plain_locator<'i, T, P>(item: &'i CitationItem<'_, T, P>) -> Option<SpecificLocator<'i, ()>>
    ensures { option_map locator_view result ≡ option_map plain_locator
        (option_map requests.request_locator_view item.entry.now.locator) }
{
    match &item.locator {
        Some(locator) => Some(locator.without_payload()),
        None => None,
    }
}
