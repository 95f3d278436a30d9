//! When values are equal: `==` is true exactly where the view of the two is one. Each function carries this law of a type.

ghost use Rattle.std.specs.Prelude.{◌≡◌, ◌↔◌, IsTrue};
ghost use Rattle.literature_numbers.specs.Views.{numeral_view};
ghost use Rattle.literature_numbers.specs.PageViews.{pages_view};

use crate::{Numeric, PageRanges};

/// Whether two numbers with their letters are equal.
pub fn are_equal_numerics(a: &Numeric, b: &Numeric) -> bool
    ensures { IsTrue result ↔ (numeral_view a.now ≡ numeral_view b.now) }
{
    *a == *b
}

/// Whether two lists of page ranges are equal.
pub fn are_equal_pages(a: &PageRanges, b: &PageRanges) -> bool
    ensures { IsTrue result ↔ (pages_view a.now ≡ pages_view b.now) }
{
    *a == *b
}
