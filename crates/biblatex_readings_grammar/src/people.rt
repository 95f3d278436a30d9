//! What is read of a field of names.

ghost use Rattle.biblatex_readings_grammar.specs.PeopleLaws.{PeopleAreWhatIsRelated};

/// These are the people of a text exactly where the relation says so.
pub fn people_are_what_is_related()
    ensures { PeopleAreWhatIsRelated }
{}
