//! What is read of a date.

ghost use Rattle.biblatex_readings_grammar.specs.DateLaws.{DateIsWhatIsRelated, SidesAreUnique};

/// A text is read as this date, or refused with this fault, exactly where the grammar and the calendar say so.
pub fn date_is_what_is_related()
    ensures { DateIsWhatIsRelated }
{}

/// No text spells two dates.
pub fn sides_are_unique()
    ensures { SidesAreUnique }
{}
