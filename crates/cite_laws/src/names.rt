//! What holds of the names by which a document cites works, of the numbers that they get, and of hidden cites.

ghost use Rattle.cite_laws.specs.Hidden.{HiddenMarkersPrintNothing};
ghost use Rattle.cite_laws.specs.OtherNames.{OtherNamesPrintTheSame};
ghost use Rattle.cite_laws.specs.Printed.{EachCiteIsPrinted, NamesOfOneWorkShareNumberAndState, NumbersArePlaces, OutputsAreOfPrints, PrintedNumbersArePlaces};

/// A document in whose cites other names stand has the same output, or is refused alike, if each means the same work as the one in its place,
/// and each name of the document means a work.
pub fn other_names_print_the_same()
    ensures { OtherNamesPrintTheSame }
{}

/// An output is made of the last prints of the cites: citations and bibliography are those of the prints.
pub fn outputs_are_of_prints()
    ensures { OutputsAreOfPrints }
{}

/// Each cite of a document has a print.
pub fn each_cite_is_printed()
    ensures { EachCiteIsPrinted }
{}

/// Two cites whose names mean one work have one number and one state: what disambiguates one of them does so for both.
pub fn names_of_one_work_share_number_and_state()
    ensures { NamesOfOneWorkShareNumberAndState }
{}

/// Where the style has a bibliography, this has one item for the work of a cite, and the number of the cite is its place.
pub fn numbers_are_places()
    // Both from zero.
    ensures places { NumbersArePlaces }
    // What a cite prints as its number is the place from one.
    ensures printed { PrintedNumbersArePlaces }
{}

/// A marker of hidden cites alone prints nothing.
pub fn hidden_markers_print_nothing()
    ensures { HiddenMarkersPrintNothing }
{}
