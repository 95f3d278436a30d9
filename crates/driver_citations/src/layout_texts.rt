//! How what a layout itself prints looks.

ghost use Rattle.std.specs.Prelude.{◌≡◌, OnOk, Some};
ghost use Rattle.std.specs.Option.{option_map};
ghost use Rattle.std.specs.Str.{chars};
ghost use Rattle.rendering_page.specs.Views.{quotes_view};
ghost use Rattle.rendering_style.specs.Views.{layout_view};
ghost use Rattle.rendering_tree.specs.Views.{tree_view};
ghost use Rattle.driver_citations.specs.Citations.{citation_look, followed_by_text, text_after};

use crate::meeting::meet_last;
use rendering_style::Layout;
use rendering_taxonomy::Formatting;
use rendering_tree::{ElemChild, ElemChildren, Formatted};
use std::alloc::{AllocError, Global};
use texts::owned;

/// How what a layout itself prints looks.
pub(crate) fn citation_look(layout: &Layout) -> Formatting
    ensures { result ≡ citation_look (layout_view layout.now) }
{
    layout.formatting.over(Formatting::plain())
}

pub(crate) fn push_own(
    alloc: Global,
    look: Formatting,
    text: &str,
    parts: &mut ElemChildren,
) -> Result<(), AllocError>
    ensures { OnOk result (tree_view parts.new
        ≡ followed_by_text look (chars text.now) (tree_view parts.old)) }
{
    parts.push(ElemChild::Text(Formatted {
        text: owned(alloc, text)?,
        formatting: look,
    }))
}

/// Appends a text of the layout's own. With `quotes` texts are joined, and it meets the one before it; these are the close quotes inside
/// which punctuation goes.
pub(crate) fn push_after(
    alloc: Global,
    look: Formatting,
    quotes: Option<&[&str]>,
    text: &str,
    parts: &mut ElemChildren,
) -> Result<(), AllocError>
    ensures { OnOk result (tree_view parts.new
        ≡ text_after (option_map (λ q. quotes_view q.now) quotes.entry) look (chars text.now)
        (tree_view parts.old)) }
{
    match quotes {
        Some(quotes) => push_met(alloc, look, quotes, text, parts),
        None => push_own(alloc, look, text, parts),
    }
}

/// Appends a text of the layout's own that meets the one before it.
fn push_met(
    alloc: Global,
    look: Formatting,
    quotes: &[&str],
    text: &str,
    parts: &mut ElemChildren,
) -> Result<(), AllocError>
    ensures { OnOk result (tree_view parts.new
        ≡ text_after (Some (quotes_view quotes.now)) look (chars text.now) (tree_view parts.old)) }
{
    let rest = meet_last(&mut parts.0, quotes, text)?;
    push_own(alloc, look, rest, parts)
}
