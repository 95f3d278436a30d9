//! Values of bibliographic entries: types, texts, people, dates, publishers, addresses and serial numbers. Numbers and
//! page ranges are re-exported.
#![tactic(auto)]

mod date;
mod entry_type;
mod equal;
mod given_name;
mod maybe_typed;
mod person;
mod publisher;
mod qualified_url;
mod serial_number;
mod text;

pub use date::{Date, DateEnd, DateError};
pub use entry_type::EntryType;
pub use equal::{
    are_equal_addresses, are_equal_dates, are_equal_numbers, are_equal_people,
    are_equal_publishers, are_equal_serials, are_equal_texts, are_equal_types,
};
pub use given_name::InitialsRule;
pub use literature_numbers::{
    Numeric, NumericDelimiter, NumericError, NumericValue, PageRanges, PageRangesError,
    PageRangesPart,
};
pub use maybe_typed::MaybeTyped;
pub use person::Person;
pub use publisher::Publisher;
pub use qualified_url::QualifiedUrl;
pub use serial_number::SerialNumber;
pub use text::{ChunkKind, ChunkedString, FormatString, StringChunk};
pub use url::Url;
