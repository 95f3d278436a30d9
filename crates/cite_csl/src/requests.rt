//! From the markers of a document to requests of a driver, in a style and locales of CSL.

ghost use Rattle.std.specs.Prelude.{◌≡◌, map, MatchOption, None, Some};
ghost use Rattle.std.specs.Option.{option_map};
ghost use Rattle.std.specs.Str.{chars};
ghost use Rattle.laws.specs.Text.{text as text_of};
ghost use Rattle.literature_entries.specs.EntriesData.{entry_view};
ghost use Rattle.driver_requests.specs.Views.{request_locator_view};
ghost use Rattle.cite_markers.specs.Views.{cite_view, locator_view, piece_view, document_view};
ghost use Rattle.cite_requests.specs.Answers.{Gives};
ghost use Rattle.cite_requests.specs.Asked.{item_asked, asked_item_view, items_asked, request_asked, request_pushed, asked_request_view, requests_asked};
ghost use Rattle.cite_requests.specs.Requests.{locator_of};
ghost use Rattle.cite_requests.specs.Works.{meaning};
ghost use Rattle.cite_order.specs.Views.{context_view};
ghost use Rattle.cite_csl.specs.Views.{cited_view};

use crate::named::{Works, meant};
use cite_markers::{Cite, CiteLocator, Document, Piece};
use cite_order::{SortedSetting, language};
use cite_requests::{CiteError, MarkerRequest};
use driver_requests::{CitationItem, CitationRequest};
use literature_entries::Entry;
use rendering_context::{LocatorPayload, SpecificLocator};
use std::alloc::Global;
use texts::owned;

/// A request for each marker. Markers are numbered from one.
///
/// # Errors
/// `Name` with the first name that means no work; `Memory`.
pub(crate) fn marker_requests<'a>(
    alloc: Global,
    works: Works<'a>,
    setting: SortedSetting<'a>,
    document: &Document<'a>,
) -> Result<Vec<MarkerRequest<'a>>, CiteError>
    ensures { Gives (λ v. map asked_request_view v.items) result
        (requests_asked (cited_view works.entry) (context_view setting.entry)
        (document_view document.now)) }
{
    let mut requests = Vec::new(alloc);
    for piece in &document.pieces {
        push_request(alloc, works, setting, piece, &mut requests)?;
    }
    Ok(requests)
}

/// Adds the request of a piece, if it is a marker.
fn push_request<'a>(
    alloc: Global,
    works: Works<'a>,
    setting: SortedSetting<'a>,
    piece: &Piece<'a>,
    requests: &mut Vec<MarkerRequest<'a>>,
) -> Result<(), CiteError>
    ensures { Gives (λ _. map asked_request_view requests.new.items) result
        (request_pushed (cited_view works.entry) (context_view setting.entry)
        (map asked_request_view requests.old.items) (piece_view piece.now)) }
{
    if let Piece::Marker(cites) = piece {
        let number = requests.len() + 1;
        requests.push(request(alloc, works, setting, cites, number)?)?;
    }
    Ok(())
}

/// The request of the marker of this number.
fn request<'a>(
    alloc: Global,
    works: Works<'a>,
    setting: SortedSetting<'a>,
    cites: &[Cite<'a>],
    number: usize,
) -> Result<MarkerRequest<'a>, CiteError>
    ensures { Gives asked_request_view result
        (request_asked (cited_view works.entry) (context_view setting.entry)
        (number, map cite_view cites.now)) }
{
    let items = items(alloc, works, cites)?;
    let language = language(alloc, setting.lang)?;
    Ok(CitationRequest::new(
        items,
        setting.style,
        language,
        setting.locales,
        Some(number),
    ))
}

/// The items of cites, or the first name that means no work.
fn items<'a>(
    alloc: Global,
    works: Works<'a>,
    cites: &[Cite<'a>],
) -> Result<Vec<CitationItem<'a, Entry, ()>>, CiteError>
    ensures { Gives (λ v. map asked_item_view v.items) result
        (items_asked (cited_view works.entry) (map cite_view cites.now)) }
{
    let mut items = Vec::with_capacity(alloc, cites.len())?;
    for cite in cites {
        items.push(item(alloc, works, cite)?)?;
    }
    Ok(items)
}

/// The item of a cite, or its name where that means no work.
fn item<'a>(
    alloc: Global,
    works: Works<'a>,
    cite: &Cite<'a>,
) -> Result<CitationItem<'a, Entry, ()>, CiteError>
    ensures { Gives asked_item_view result
        (item_asked (cited_view works.entry) (cite_view cite.now)) }
{
    let Some(entry) = work_meant(works, cite.name) else {
        return Err(CiteError::Name(owned(alloc, cite.name)?));
    };
    let locator = locator(&cite.locator);
    Ok(CitationItem::new(entry, locator, None, cite.hidden, cite.purpose))
}

/// The work that a name of the document means.
fn work_meant<'a>(works: Works<'a>, name: &str) -> Option<&'a Entry>
    ensures { MatchOption result
        (meaning (text_of (chars name.now)) (cited_view works.entry) ≡ None) (λ e.
        meaning (text_of (chars name.now)) (cited_view works.entry)
        ≡ Some (entry_view e.now)) }
{
    meant(works, name)
}

/// The part of a work that a cite points to.
fn locator<'a>(locator: &Option<CiteLocator<'a>>) -> Option<SpecificLocator<'a, ()>>
    ensures { option_map request_locator_view result
        ≡ option_map (λ l. locator_of (locator_view l)) locator.now }
{
    let locator = locator.as_ref()?;
    Some(SpecificLocator {
        label: locator.label,
        payload: LocatorPayload::Str(locator.value),
    })
}
