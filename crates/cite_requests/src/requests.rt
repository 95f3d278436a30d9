//! From the markers of a document to requests of a driver.

ghost use Rattle.std.specs.Prelude.{◌≡◌, map, IfOk, MatchOption, None, Some};
ghost use Rattle.std.specs.Str.{chars};
ghost use Rattle.laws.specs.Text.{text as text_of};
ghost use Rattle.literature_entries.specs.EntriesData.{entry_view};
ghost use Rattle.cite_requests.specs.Works.{meaning};
ghost use Rattle.rendering_locale.specs.Views.{locale_view};
ghost use Rattle.rendering_style.specs.StyleViews.{style_view};
ghost use Rattle.driver_requests.specs.Views.{request_locator_view};
ghost use Rattle.std.specs.Option.{option_map};
ghost use Rattle.rendering_locale.specs.CodeViews.{code_view};
ghost use Rattle.cite_markers.specs.Views.{cite_view, locator_view, piece_view, document_view};
ghost use Rattle.cite_requests.specs.Answers.{Gives};
ghost use Rattle.cite_requests.specs.Asked.{item_asked, asked_item_view, items_asked, request_asked, request_pushed, asked_request_view, requests_asked};
ghost use Rattle.cite_requests.specs.Requests.{context_of, locator_of};
ghost use Rattle.cite_requests.specs.Views.{file_works_with};

use crate::bib_file::BibFile;
use crate::error::CiteError;
use cite_markers::{Cite, CiteLocator, Document, Piece};
use driver_requests::{CitationItem, CitationRequest};
use literature::Library;
use literature_entries::Entry;
use rendering_context::{LocatorPayload, SpecificLocator};
use rendering_locale::{Locale, LocaleCode};
use rendering_style::Style;
use std::alloc::{AllocError, Global};
use std::slice;
use texts::owned;

/// A request for a marker of a document. None of its locators is one that a caller prints by itself.
pub type MarkerRequest<'a> = CitationRequest<'a, Entry, ()>;

/// What all requests of a document have in common: the library, the style, and the locale.
#[derive(Clone, Copy)]
pub struct CitingSetting<'a> {
    /// What `BibFile::library` returns for the document.
    pub library: &'a Library,
    /// The style of all citations.
    pub style: &'a Style,
    /// The only locale.
    pub locale: &'a Locale,
}

/// A request for each marker. Markers are numbered from one.
///
/// # Errors
/// `Name` with the first name that means no work; `Memory`.
pub fn marker_requests<'a>(
    alloc: Global,
    bib_file: &BibFile,
    setting: CitingSetting<'a>,
    document: &Document<'a>,
) -> Result<Vec<MarkerRequest<'a>>, CiteError>
    ensures { Gives (λ v. map asked_request_view v.items) result
        (requests_asked (file_works_with bib_file.now setting.entry.library.now)
        (context_of (style_view setting.entry.style.now) (locale_view setting.entry.locale.now))
        (document_view document.now)) }
{
    let mut requests = Vec::new(alloc);
    for piece in &document.pieces {
        push_request(alloc, bib_file, setting, piece, &mut requests)?;
    }
    Ok(requests)
}

/// Adds the request of a piece, if it is a marker.
fn push_request<'a>(
    alloc: Global,
    bib_file: &BibFile,
    setting: CitingSetting<'a>,
    piece: &Piece<'a>,
    requests: &mut Vec<MarkerRequest<'a>>,
) -> Result<(), CiteError>
    ensures { Gives (λ _. map asked_request_view requests.new.items) result
        (request_pushed (file_works_with bib_file.now setting.entry.library.now)
        (context_of (style_view setting.entry.style.now) (locale_view setting.entry.locale.now))
        (map asked_request_view requests.old.items) (piece_view piece.now)) }
{
    if let Piece::Marker(cites) = piece {
        let number = requests.len() + 1;
        requests.push(request(alloc, bib_file, setting, cites, number)?)?;
    }
    Ok(())
}

/// The request of the marker of this number.
fn request<'a>(
    alloc: Global,
    bib_file: &BibFile,
    setting: CitingSetting<'a>,
    cites: &[Cite<'a>],
    number: usize,
) -> Result<MarkerRequest<'a>, CiteError>
    ensures { Gives asked_request_view result
        (request_asked (file_works_with bib_file.now setting.entry.library.now)
        (context_of (style_view setting.entry.style.now) (locale_view setting.entry.locale.now))
        (number, map cite_view cites.now)) }
{
    let items = items(alloc, bib_file, setting.library, cites)?;
    let language = language(setting.locale)?;
    Ok(CitationRequest::new(
        items,
        setting.style,
        language,
        slice::from_ref(setting.locale),
        Some(number),
    ))
}

/// The language of a locale.
///
/// # Errors
/// Out of memory.
pub fn language(locale: &Locale) -> Result<Option<LocaleCode>, AllocError>
    ensures { IfOk result (λ code. option_map code_view code ≡ (locale_view locale.now).lang) }
{
    match &locale.lang {
        Some(code) => Ok(Some(LocaleCode(code.0.clone()?))),
        None => Ok(None),
    }
}

/// The items of cites, or the first name that means no work.
fn items<'a>(
    alloc: Global,
    bib_file: &BibFile,
    library: &'a Library,
    cites: &[Cite<'a>],
) -> Result<Vec<CitationItem<'a, Entry, ()>>, CiteError>
    ensures { Gives (λ v. map asked_item_view v.items) result
        (items_asked (file_works_with bib_file.now library.now) (map cite_view cites.now)) }
{
    let mut items = Vec::with_capacity(alloc, cites.len())?;
    for cite in cites {
        items.push(item(alloc, bib_file, library, cite)?)?;
    }
    Ok(items)
}

/// The item of a cite, or its name where that means no work.
fn item<'a>(
    alloc: Global,
    bib_file: &BibFile,
    library: &'a Library,
    cite: &Cite<'a>,
) -> Result<CitationItem<'a, Entry, ()>, CiteError>
    ensures { Gives asked_item_view result
        (item_asked (file_works_with bib_file.now library.now) (cite_view cite.now)) }
{
    let Some(entry) = meant(bib_file, library, cite.name) else {
        return Err(CiteError::Name(owned(alloc, cite.name)?));
    };
    let locator = locator(&cite.locator);
    Ok(CitationItem::new(entry, locator, None, cite.hidden, cite.purpose))
}

/// The work that a name of the document means.
fn meant<'a>(bib_file: &BibFile, library: &'a Library, name: &str) -> Option<&'a Entry>
    ensures { MatchOption result
        (meaning (text_of (chars name.now)) (file_works_with bib_file.now library.now) ≡ None) (λ e.
        meaning (text_of (chars name.now)) (file_works_with bib_file.now library.now)
        ≡ Some (entry_view e.now)) }
{
    bib_file.get(library, name)
}

/// The part of a work that a cite points to.
fn locator<'a>(locator: &Option<CiteLocator<'a>>) -> Option<SpecificLocator<'a, ()>>
    ensures { option_map request_locator_view result
        ≡ option_map (λ l. locator_of (locator_view l)) locator.now }
{
    match locator {
        Some(locator) => Some(SpecificLocator {
            label: locator.label,
            payload: LocatorPayload::Str(locator.value),
        }),
        None => None,
    }
}
