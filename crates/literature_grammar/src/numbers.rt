//! What is read of numbers and of page ranges.

ghost use Rattle.literature_grammar.specs.NumberLaws.{NumeralIsWhatIsRelated, NumeralsAreUnique, PagesAreUnique, PagesAreWhatIsRelated};

/// A text is read as this number with its letters exactly where the grammar says so, and every other text is refused.
pub fn numeral_is_what_is_related()
    ensures { NumeralIsWhatIsRelated }
{}

/// No text spells two numbers with letters.
pub fn numerals_are_unique()
    ensures { NumeralsAreUnique }
{}

/// A text is read as these pages exactly where the grammar says so, and every other text is refused.
pub fn pages_are_what_is_related()
    ensures { PagesAreWhatIsRelated }
{}

/// No text spells two lists of pages.
pub fn pages_are_unique()
    ensures { PagesAreUnique }
{}
