//! What cases of citations have in common: the entries and the locales that they are made from, the locator and the purpose of a cite, and
//! why a case has no entry.

mod cites;
mod locales;
mod refusals;
mod source;

pub use cites::{PURPOSES, maybe_locator, put_effort};
pub use locales::{english_locale, locale_files, maybe_locale};
pub use refusals::{put_bridge_error, put_faults, put_unknown, put_unknown_name};
pub use source::{bibliography_of, bridged, named, read_source};
