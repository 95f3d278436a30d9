//! Six short callers of the libraries, to start one's own from: a BibLaTeX file and a document to a text; a sink of one's own; the
//! bibliography of entries without a document; a style of one's own with a macro; a BibLaTeX file to one without references; and whether a
//! document has to be rendered again once its BibLaTeX file was changed. Each contract says exactly what the caller gets, by the definitions
//! that the contracts of the libraries are written in.
#![tactic(auto)]

mod alike;
mod entries;
mod flat;
mod names;
mod order;
mod page;
mod style;
mod text;

pub use alike::{Works, are_alike};
pub use entries::bibliography_of;
pub use flat::flattened_file;
pub use page::cited_on_page;
pub use style::titles;
pub use text::cited_by_numbers;
