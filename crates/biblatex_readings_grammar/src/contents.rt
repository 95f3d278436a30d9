//! What is read of the content of a field.

ghost use Rattle.biblatex_readings_grammar.specs.ContentLaws.{MalformedIsUnrelated, ReadIsWhatIsRelated, ReadingsAreUnique, TidiedIsWhatIsRelated, VerbatimIsWhatIsRelated};

/// A piece of an ordinary field is read as these members exactly where it is related to them.
pub fn read_is_what_is_related()
    ensures { ReadIsWhatIsRelated }
{}

/// No piece of an ordinary field has two readings.
pub fn readings_are_unique()
    ensures { ReadingsAreUnique }
{}

/// A piece of an ordinary field is malformed exactly where no members are related to it.
pub fn malformed_is_unrelated()
    ensures { MalformedIsUnrelated }
{}

/// A piece of a verbatim field is read as this text exactly where it is related to it.
pub fn verbatim_is_what_is_related()
    ensures { VerbatimIsWhatIsRelated }
{}

/// A text is tidied to exactly what is related to it.
pub fn tidied_is_what_is_related()
    ensures { TidiedIsWhatIsRelated }
{}
