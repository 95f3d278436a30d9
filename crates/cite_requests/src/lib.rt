//! From a BibLaTeX file, a document and sections to requests of a driver: what the names of the document mean, a request for
//! each marker, the entries that the sections choose; and why any of it is refused. `cite` calls `BibFile::read`,
//! `read_document`, `BibFile::library`, `requests`, `selectors` and `chosen`, one after the other.
#![tactic(auto)]

mod bib_file;
mod bridging;
mod bytes;
mod cited;
mod document;
mod error;
mod marks;
mod requests;
mod sections;

pub use bib_file::{BibFile, work_of};
pub use cited::cited_keys;
pub use document::read_document;
pub use error::{BibTextError, CiteError, DocumentTextError};
pub use requests::{CitingSetting, MarkerRequest, language, marker_requests};
pub use sections::{chosen, selectors};
