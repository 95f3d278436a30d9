//! Libraries of entries, the selectors that choose among them, and what entries are made of.
#![tactic(auto)]

mod binding;
mod bindings;
mod bound_names;
mod character;
mod holding;
mod keys;
mod library;
mod node;
mod parser;
mod query;
mod reader;
mod select;
mod selector;
mod selector_error;
mod token;

pub use bindings::Bindings;
pub use bound_names::BoundNames;
pub use keys::Keys;
pub use library::Library;
pub use literature_entries::Entry;
pub use literature_values::{
    ChunkKind, ChunkedString, Date, DateEnd, DateError, EntryType, FormatString, MaybeTyped,
    Numeric, NumericDelimiter, NumericError, NumericValue, PageRanges, PageRangesError,
    PageRangesPart, Person, Publisher, QualifiedUrl, SerialNumber, StringChunk, Url,
};
pub use query::Selected;
pub use select::BoundSelect;
pub use selector::Selector;
pub use selector_error::SelectorError;
