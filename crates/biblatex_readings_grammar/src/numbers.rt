//! What is read of integers and of ranges of pages.

ghost use Rattle.biblatex_readings_grammar.specs.NumberLaws.{IntegerIsWhatIsRelated, RangeIsWhatIsRelated, RangesAreWhatIsRelated};

/// Bytes are read as this integer exactly where the grammar says so, and all others are refused as unreadable.
pub fn integer_is_what_is_related()
    ensures { IntegerIsWhatIsRelated }
{}

/// A text is read as this range of pages exactly where the grammar says so, and every other text is refused as unreadable.
pub fn range_is_what_is_related()
    ensures { RangeIsWhatIsRelated }
{}

/// A text is read as these ranges of pages exactly where the grammar says so, and every other text is refused as unreadable.
pub fn ranges_are_what_is_related()
    ensures { RangesAreWhatIsRelated }
{}
