//! Citations and bibliography in the order of sort keys.

ghost use Rattle.std.specs.Prelude.{◌≡◌, ◌++◌, ◌∷◌, [], ℕ, Ok, List, filter, map, IfOk, OnOk};
ghost use Rattle.std.specs.List.{enumerate_from};
ghost use Rattle.laws.specs.Borrowed.{borrowed};
ghost use Rattle.laws.specs.Text.{is_filled};
ghost use Rattle.interop.specs.Views.{library_view};
ghost use Rattle.literature.specs.Holding.{holds_at};
ghost use Rattle.literature.specs.Trees.{Tree};
ghost use Rattle.literature.specs.Views.{selector_view};
ghost use Rattle.rendering_style.specs.StyleViews.{style_view};
ghost use Rattle.literature_entries.specs.EntriesData.{entry_view};
ghost use Rattle.driver_rounds.specs.Views.{bibliography_context_of};
ghost use Rattle.driver.specs.RenderedViews.{rendered_view};
ghost use Rattle.cite.specs.Finished.{finished};
ghost use Rattle.cite_markers.specs.Document.{Piece};
ghost use Rattle.cite_requests.specs.Answers.{Gives};
ghost use Rattle.cite_requests.specs.Asked.{asked_request, asked_request_view, requests_asked};
ghost use Rattle.cite_requests.specs.Markers.{CitedWork};
ghost use Rattle.cite_requests.specs.Requests.{works_in};
ghost use Rattle.cite_requests.specs.Sections.{chosen};
ghost use Rattle.cite_requests.specs.Stages.{Refusal, section_stage};
ghost use Rattle.cite_requests.specs.Views.{lent_works_view};
ghost use Rattle.cite_requests.specs.Works.{Works};
ghost use Rattle.cite_order.specs.Listed.{AreListed};
ghost use Rattle.cite_order.specs.Order.{choices, has_keys, order_of, rendered_in_order, stage_by_order};
ghost use Rattle.cite_order.specs.Views.{setting_view};

use crate::setting::{SortedSetting, language};
use cite_requests::{CiteError, MarkerRequest, chosen};
use driver::{BibliographyDriver, Rendered};
use driver_order::{bibliography_order, sorted_requests};
use driver_requests::{BibliographyRequest, DriverError};
use literature::{Library, Selector};
use literature_entries::Entry;
use rendering_style::Style;
use std::alloc::{AllocError, Global};

/// Whether cites or the bibliography of a style are sorted.
fn has_keys(style: &Style) -> bool
    ensures { result ≡ has_keys (style_view style.now) }
{
    let parts = style.parts();
    !parts.citation_sort.is_empty() || !parts.bibliography_sort.is_empty()
}

/// Whether the bibliography of a style is sorted.
fn sorts_entries(style: &Style) -> bool
    ensures { result ≡ is_filled (style_view style.now).bibliography_sort }
{
    !style.parts().bibliography_sort.is_empty()
}

/// Adds an entry at which the selector holds.
fn push_matching<'l>(
    selector: &Selector,
    entry: &'l Entry,
    found: &mut Vec<&'l Entry>,
) -> Result<(), AllocError>
    ensures { OnOk result (lent_works_view found.new.items ≡ lent_works_view found.old.items
        ++ filter (holds_at (selector_view selector.now)) (entry_view entry.now ∷ [])) }
{
    if !selector.matches(entry) {
        return Ok(());
    }
    Ok(found.push(entry)?)
}

/// Adds those of the entries at which the selector holds.
fn push_chosen<'l>(
    selector: &Selector,
    entries: &[&'l Entry],
    found: &mut Vec<&'l Entry>,
) -> Result<(), AllocError>
    ensures { OnOk result (lent_works_view found.new.items ≡ lent_works_view found.old.items
        ++ filter (holds_at (selector_view selector.now)) (lent_works_view entries.now)) }
{
    for entry in entries {
        push_matching(selector, *entry, found)?;
    }
    Ok(())
}

/// Those of the entries that the selectors choose: for each selector those at which it holds, in their order.
fn chosen_among<'l>(
    alloc: Global,
    selectors: &[Selector],
    entries: &[&'l Entry],
) -> Result<Vec<&'l Entry>, AllocError>
    ensures { IfOk result (λ v. lent_works_view v.items
        ≡ chosen (map selector_view selectors.now) (lent_works_view entries.now)) }
{
    let mut found = Vec::new(alloc);
    for selector in selectors {
        push_chosen(selector, entries, &mut found)?;
    }
    Ok(found)
}

/// The entries that sections choose: of those that are cited, in their order, where a bibliography is sorted, else of the library.
fn chosen_in<'l>(
    alloc: Global,
    style: &Style,
    selectors: &[Selector],
    library: &'l Library,
    cited: &[&'l Entry],
) -> Result<Vec<&'l Entry>, AllocError>
    ensures { IfOk result (λ v. lent_works_view v.items ≡ chosen (map selector_view selectors.now)
        (choices (style_view style.now) (lent_works_view cited.now) (library_view library.now))) }
{
    if !sorts_entries(style) {
        return chosen(alloc, selectors, library);
    }
    chosen_among(alloc, selectors, cited)
}

/// The order of a bibliography: what sections choose comes first, then the rest of the cited entries.
fn order_of<'l>(
    alloc: Global,
    style: &Style,
    selectors: &[Selector],
    library: &'l Library,
    cited: &[&'l Entry],
) -> Result<Vec<&'l Entry>, AllocError>
    ensures { IfOk result (λ v. lent_works_view v.items
        ≡ order_of (style_view style.now) (map selector_view selectors.now)
        (library_view library.now) (lent_works_view cited.now)) }
{
    let mut order = chosen_in(alloc, style, selectors, library, cited)?;
    order.extend_from_slice(cited)?;
    Ok(order)
}

/// What is asked of the bibliography.
fn bibliography_request<'x>(
    alloc: Global,
    setting: SortedSetting<'x>,
) -> Result<BibliographyRequest<'x, Entry>, AllocError>
    ensures { IfOk result (λ r. bibliography_context_of r ≡ (setting_view setting.entry).context) }
{
    let language = language(alloc, setting.lang)?;
    Ok(BibliographyRequest::new(setting.style, language, setting.locales))
}

/// Citations and bibliography of requests, in the order of these entries.
fn finish<'x>(
    alloc: Global,
    requests: Vec<MarkerRequest<'x>>,
    setting: SortedSetting<'x>,
    order: &'x [&'x Entry],
) -> Result<Rendered, CiteError>
    ensures { Gives rendered_view result (finished ⟦<Entry as PartialEq>⟧.eq
        (setting_view setting.entry).context requests.entry.items (borrowed order.entry.now)) }
{
    let driver = BibliographyDriver::from_citations(alloc, requests);
    let request = bibliography_request(alloc, setting)?;
    match driver.finish(request.with_order(order)) {
        Ok(rendered) => Ok(rendered),
        Err(DriverError::Memory) => Err(CiteError::Memory),
        Err(DriverError::Overflow) => Err(CiteError::Overflow),
    }
}

/// Citations and bibliography of requests whose cites or entries are sorted.
fn sorted<'x>(
    alloc: Global,
    requests: Vec<MarkerRequest<'x>>,
    setting: SortedSetting<'x>,
    selectors: &[Selector],
    library: &'x Library,
) -> Result<Rendered, CiteError>
    ensures { (markers : List (List CitedWork)) → map asked_request_view requests.entry.items
        ≡ map (asked_request (setting_view setting.entry).context) (enumerate_from 1 markers)
        → AreListed (library_view library.entry.now) (works_in markers)
        → Gives rendered_view result (stage_by_order (setting_view setting.entry)
        (map selector_view selectors.now) (library_view library.entry.now) markers) }
{
    let request = bibliography_request(alloc, setting)?;
    let cited = bibliography_order(alloc, requests.as_slice(), setting.sorting, &request)?;
    let order = order_of(alloc, setting.sorting, selectors, library, cited.as_slice())?;
    let requests = sorted_requests(alloc, requests, setting.sorting, order.as_slice())?;
    finish(alloc, requests, setting, order.as_slice())
}

/// Citations and bibliography of requests that were made of a document, by selectors that were made of sections: cites in the order of the
/// citation's keys, entries in that of the bibliography's. What sections choose comes first in the bibliography, in the order of its keys.
///
/// # Errors
/// `Overflow` where a number or a year suffix is too great; `Memory`.
pub fn rendered_in_order<'x>(
    alloc: Global,
    requests: Vec<MarkerRequest<'x>>,
    setting: SortedSetting<'x>,
    selectors: &[Selector],
    library: &'x Library,
) -> Result<Rendered, CiteError>
    ensures { (works : Works) (sections : List (List ℕ)) (pieces : List Piece)
        → works.library ≡ library_view library.entry.now
        → requests_asked works (setting_view setting.entry).context pieces
        ≡ Ok (map asked_request_view requests.entry.items)
        → section_stage sections ≡ Ok (map selector_view selectors.now)
        → Gives rendered_view result
        (rendered_in_order works (setting_view setting.entry) sections pieces) }
{
    if has_keys(setting.sorting) {
        return sorted(alloc, requests, setting, selectors, library);
    }
    let chosen = chosen(alloc, selectors, library)?;
    finish(alloc, requests, setting, chosen.as_slice())
}
