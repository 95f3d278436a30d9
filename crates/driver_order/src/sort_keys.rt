//! What a style says of sorting.

ghost use Rattle.std.specs.Prelude.{◌≡◌, map};
ghost use Rattle.rendering.specs.Purposes.{citation_options};
ghost use Rattle.rendering_names.specs.Views.{resolved_options_view};
ghost use Rattle.rendering_style.specs.StyleViews.{style_view};
ghost use Rattle.rendering_style.specs.Views.{sort_key_view};
ghost use Rattle.driver_order.specs.EntryKeys.{bibliography_options, inherited, keys_of};

use rendering::{ResolvedNameOptions, Style};
use rendering_style::SortKey;

/// The keys by which the bibliography is sorted, or the cites of a citation.
pub(crate) fn keys_of(style: &Style, is_bibliography: bool) -> &[SortKey]
    ensures { map sort_key_view result.now ≡ keys_of is_bibliography (style_view style.now) }
{
    let parts = style.parts();
    if is_bibliography {
        parts.bibliography_sort.as_slice()
    } else {
        parts.citation_sort.as_slice()
    }
}

/// The options for names that these keys inherit.
pub(crate) fn inherited(style: &Style, is_bibliography: bool) -> ResolvedNameOptions<'_>
    ensures { resolved_options_view result ≡ inherited is_bibliography (style_view style.now) }
{
    if is_bibliography {
        bibliography_options(style)
    } else {
        citation_options(style)
    }
}

/// The options for names in the bibliography, over those of the style.
fn bibliography_options(style: &Style) -> ResolvedNameOptions<'_>
    ensures { resolved_options_view result ≡ bibliography_options (style_view style.now) }
{
    let parts = style.parts();
    let around = ResolvedNameOptions::new(&parts.name_options);
    match &parts.bibliography {
        Some(bibliography) => ResolvedNameOptions::new(&bibliography.name_options).over(&around),
        None => around,
    }
}

/// The options for names in the citation, over those of the style.
fn citation_options(style: &Style) -> ResolvedNameOptions<'_>
    ensures { resolved_options_view result ≡ citation_options (style_view style.now) }
{
    let parts = style.parts();
    let around = ResolvedNameOptions::new(&parts.name_options);
    ResolvedNameOptions::new(&parts.citation.name_options).over(&around)
}
