//! From requests to citations and a bibliography.
//!
//! A `BibliographyDriver` takes requests in the order of the text and gives a citation for each of them, with the bibliography of
//! all entries that they cite. Entries are of any type that answers as `EntryLike` says; styles and locales are values.
//! `standalone_citation` prints a citation outside of any document.
#![tactic(auto)]

mod bibliography;
mod bibliography_items;
mod brackets;
mod contexts;
mod copies;
mod driver;
mod final_prints;
mod final_states;
mod rendered;

pub use brackets::Brackets;
pub use driver::BibliographyDriver;
pub use driver_citations::standalone_citation;
pub use driver_requests::{BibliographyRequest, CitationItem, CitationRequest, DriverError};
pub use rendered::{BibliographyItem, Rendered, RenderedBibliography, RenderedCitation};
pub use rendering::{
    CitePurpose, ElemChild, ElemChildren, EntryLike, Locale, LocaleCode, LocatorPayload,
    SecondFieldAlign, SpecificLocator, Style, TransparentLocator,
};
pub use rendering_context::DisambiguateState;
pub use rendering_numbers::write_year;
pub use rendering_taxonomy::{IbidState, IdentifierUsage};
