//! What is asked for: requests with their items, the entries that they cite, the numbers of these, and how cites stand to those before
//! them.
#![tactic(auto)]

mod bibliography_request;
mod cited;
mod error;
mod facts;
mod hashed_key;
mod history;
mod item;
mod order;
mod position;
mod request;
mod suffix;

pub use bibliography_request::BibliographyRequest;
pub use cited::Cited;
pub use error::DriverError;
pub use facts::cites;
pub use history::CiteFacts;
pub use item::CitationItem;
pub use order::{numbers, ordered};
pub use position::{LastCite, ibid_of};
pub use request::CitationRequest;
pub use suffix::{Origin, Suffix};
