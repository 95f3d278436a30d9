//! Contents of fields.

ghost use Rattle.biblatex_reading_back.specs.Laws.{OrdinaryContentsReadBack, TidyTextsStay, VerbatimContentsReadBack, WrittenContentsAreBalanced};

/// A text is tidy exactly where tidying leaves it as it is.
pub fn tidy_texts_stay()
    ensures { TidyTextsStay }
{}

/// What is written of a settled content of an ordinary field is read as this content.
pub fn ordinary_contents_read_back()
    ensures { OrdinaryContentsReadBack }
{}

/// What is written of a settled content of a verbatim field is read as this content.
pub fn verbatim_contents_read_back()
    ensures { VerbatimContentsReadBack }
{}

/// What is written of a settled content is a text with balanced braces, which may stand in the braces of a piece.
pub fn written_contents_are_balanced()
    ensures { WrittenContentsAreBalanced }
{}
