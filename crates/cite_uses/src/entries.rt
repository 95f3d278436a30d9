//! A bibliography of entries, without a document.

ghost use Rattle.std.specs.Prelude.{◌≡◌, map, IfOk};
ghost use Rattle.laws.specs.Results.{Gives};
ghost use Rattle.laws.specs.Borrowed.{borrowed};
ghost use Rattle.rendering_locale.specs.Views.{locale_view};
ghost use Rattle.rendering_style.specs.StyleViews.{style_view};
ghost use Rattle.driver_requests.specs.Errors.{overflow_of};
ghost use Rattle.driver_requests.specs.Views.{parts_of};
ghost use Rattle.driver.specs.Finish.{finish};
ghost use Rattle.driver.specs.RenderedViews.{rendered_view};
ghost use Rattle.cite_requests.specs.Requests.{is_same_own};
ghost use Rattle.cite_uses.specs.Hidden.{hidden_document, hidden_parts};

use driver::{
    BibliographyDriver, BibliographyRequest, CitationItem, CitationRequest, DriverError, Locale,
    Rendered, Style,
};
use literature::Entry;
use std::alloc::{AllocError, Global};
use std::slice;

/// The bibliography of entries in their order, as a style prints it. The entries are hidden items of one request: they count as cited, and
/// the citation of the request is empty.
///
/// # Errors
/// `Overflow` where there are more than 2147483647 entries, or where more than 256 entries that print alike need year suffixes;
/// `Memory` where a request for memory was refused.
pub fn bibliography_of<'x>(
    alloc: Global,
    entries: &[&'x Entry],
    style: &'x Style,
    locale: &'x Locale,
) -> Result<Rendered, DriverError>
    // It is what the driver's definition gives of the document in which these entries are hidden items.
    ensures { Gives overflow_of rendered_view result
        (finish is_same_own (hidden_document ⟦<Entry as PartialEq>⟧.eq
        (style_view style.now) (locale_view locale.now) (borrowed entries.now))) }
{
    let files = slice::from_ref(locale);
    let items = hidden_items(alloc, entries)?;
    let mut driver = BibliographyDriver::new(alloc);
    driver.citation(CitationRequest::from_items(items, style, files))?;
    driver.finish(BibliographyRequest::new(style, None, files))
}

fn hidden_items<'a>(
    alloc: Global,
    entries: &[&'a Entry],
) -> Result<Vec<CitationItem<'a, Entry, ()>>, AllocError>
    ensures { IfOk result (λ v. map parts_of v.items ≡ map (λ e. hidden_parts e.now) entries.now) }
{
    let mut items = Vec::with_capacity(alloc, entries.len())?;
    for entry in entries {
        items.push(CitationItem {
            hidden: true,
            ..CitationItem::with_entry(*entry)
        })?;
    }
    Ok(items)
}
