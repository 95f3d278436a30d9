//! What is read of a document.

ghost use Rattle.cite_markers_grammar.specs.Laws.{OpeningIsRefused, PiecesAreUnique, ReadIsWhatIsHeld};

/// A document is read as these pieces exactly where they are its pieces.
pub fn what_is_read_is_held()
    ensures { ReadIsWhatIsHeld }
{}

/// No two lists of pieces are those of one document.
pub fn pieces_are_unique()
    ensures { PiecesAreUnique }
{}

/// A document is refused at this byte exactly where its pieces end there before an opening at which no marker begins.
pub fn opening_is_refused()
    ensures { OpeningIsRefused }
{}
