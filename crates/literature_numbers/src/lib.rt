//! Numbers and page ranges, read from texts and written.
#![tactic(auto)]

mod equal;
mod numeric;
mod page_ranges;
mod separator;

pub use equal::{are_equal_numerics, are_equal_pages};
pub use numeric::{Numeric, NumericError, NumericValue};
pub use page_ranges::{PageRanges, PageRangesError, PageRangesPart};
pub use separator::NumericDelimiter;
