//! Laws of the classes of cites that print alike and of the blocks of a citation: both are parts of a list, which are said by what holds of
//! them, without finding them one by one, and these are the ones that are found. The functions do nothing, and carry the laws as their
//! contracts.
#![tactic(auto)]

ghost use Rattle.driver_partitions.specs.Laws.{BlocksAreParts, CitationsHaveBlocks, ClassesAreParts, GatheredAreThoseOfOne, IndicesAreInOnePart, PartsAreThoseOfTwo, RoundsGiveToClasses};

/// Members that are alike, in parts of two or more: there is one list of these parts, and it is found.
pub fn parts_are_those_of_two<P>()
    ensures { PartsAreThoseOfTwo P }
{}

/// Members that are gathered, in parts of one or more: there is one list of these parts, and it is found.
pub fn gathered_are_those_of_one<P>()
    ensures { GatheredAreThoseOfOne P }
{}

/// No member stands in two parts.
pub fn indices_are_in_one_part<P>()
    ensures { IndicesAreInOnePart P }
{}

/// The classes of a round are the parts of its cites that print one text and are of two entries or more.
pub fn classes_are_parts()
    ensures { ClassesAreParts }
{}

/// The blocks of a citation are the parts of its cites that go together: by the same names, or by names that print the same people alike.
pub fn blocks_are_parts<P>()
    ensures { BlocksAreParts P }
{}

/// What a round gives is what is given to its classes, whatever list these are known to be.
pub fn rounds_give_to_classes()
    ensures { RoundsGiveToClasses }
{}

/// A citation has its cites as its blocks have them, whatever list these are known to be.
pub fn citations_have_blocks<P>()
    ensures { CitationsHaveBlocks P }
{}
