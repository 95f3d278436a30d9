//! What is read of a selector's text.

ghost use Rattle.literature_grammar.specs.SelectorLaws.{ReadIsWhatIsSpelled, RefusedIsRefusal, TreesAreUnique};

/// A text is read as this tree exactly where the text spells it.
pub fn what_is_read_is_spelled()
    ensures { ReadIsWhatIsSpelled }
{}

/// No text spells two trees.
pub fn trees_are_unique()
    ensures { TreesAreUnique }
{}

/// A text is refused with this fault exactly where the grammar says so.
pub fn refused_is_refusal()
    ensures { RefusedIsRefusal }
{}
