//! Keys by which items are sorted.

ghost use Rattle.std.specs.Prelude.{◌≡◌};
ghost use Rattle.std.specs.Option.{option_map};
ghost use Rattle.rendering_sorting.specs.Keys.{part_of};
ghost use Rattle.rendering_sorting.specs.Views.{part_view, value_view};

use collation::CollationKey;
use rendering_taxonomy::SortDirection;
use std::cmp::Reverse;

/// The value of a key. Numbers stand before texts.
#[derive(Debug, PartialEq, Eq, PartialOrd, Ord, Drop)]
pub enum SortValue {
    /// Numbers that are compared one after the other, as those of a date.
    Numbers(Vec<i64>),
    Text(CollationKey),
}

/// A value as it is sorted. What has no value is last, in both directions.
#[derive(Debug, PartialEq, Eq, PartialOrd, Ord, Drop)]
pub enum SortPart {
    Ascending(SortValue),
    Descending(Reverse<SortValue>),
    Absent,
}

/// A value in a direction, where there is one.
pub fn part_of(direction: SortDirection, value: Option<SortValue>) -> SortPart
    ensures { part_view result ≡ part_of direction (option_map value_view value) }
{
    match (direction, value) {
        (_, None) => SortPart::Absent,
        (SortDirection::Ascending, Some(value)) => SortPart::Ascending(value),
        (SortDirection::Descending, Some(value)) => SortPart::Descending(Reverse(value)),
    }
}
