//! When values are equal: `==` is true exactly where the view of the two is one. Each function carries this law of a type.

ghost use Rattle.std.specs.Prelude.{◌≡◌, ◌↔◌, IsTrue};
ghost use Rattle.literature_entries.specs.EntriesData.{entry_view};

use crate::Entry;

/// Whether two entries are equal.
pub fn are_equal_entries(a: &Entry, b: &Entry) -> bool
    ensures { IsTrue result ↔ (entry_view a.now ≡ entry_view b.now) }
{
    *a == *b
}
