//! Citations and bibliographies of documents in the order of a style's sort keys: from the requests of a document to what is printed, where
//! cites stand in the order of their citations, and entries in that of the bibliography.
#![tactic(auto)]

mod order;
mod order_laws;
mod setting;

pub use order::rendered_in_order;
pub use setting::{SortedSetting, language};
