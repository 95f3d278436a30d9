//! What is read of a raw text.

ghost use Rattle.biblatex_grammar.specs.Laws.{ItemsAreUnique, ReadIsWhatIsHeld, RefusedIsRefusal};

/// A text is read, and this is read of it, exactly where the text holds this.
pub fn what_is_read_is_held()
    ensures { ReadIsWhatIsHeld }
{}

/// No two lists of items are those of one text.
pub fn items_are_unique()
    ensures { ItemsAreUnique }
{}

/// A text is refused with this fault at this byte exactly where the grammar says so.
pub fn refused_is_refusal()
    ensures { RefusedIsRefusal }
{}
