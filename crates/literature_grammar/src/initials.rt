//! What is written as initials.

ghost use Rattle.literature_grammar.specs.InitialsLaws.{InitialsAreWhatIsRelated};

/// These are the initials of a given name exactly where the relation says so.
pub fn initials_are_what_is_related()
    ensures { InitialsAreWhatIsRelated }
{}
