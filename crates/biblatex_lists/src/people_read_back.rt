//! What is written is read back.

ghost use Rattle.biblatex_lists.specs.PeopleLaws.{PeopleReadBack, PlainPeopleAreReadBack};

/// Reading what was written of people gives them back, where each has some part of a name, and either no prefix or, before
/// a name, one of words with one space between them, the last of which is small, which nothing parts.
pub fn people_are_read_back()
    ensures { PeopleReadBack }
{}

/// Among the people that are read back are those without prefix and suffix whose name and given name are words of ASCII
/// letters that begin with a capital.
pub fn plain_people_are_read_back()
    ensures { PlainPeopleAreReadBack }
{}
