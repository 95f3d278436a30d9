//! Pieces of texts that spell one tree.

ghost use Rattle.csl_laws.specs.Pieces.{PiecesOfOneTextSpellTheSame, CommentsSpellNothing};

/// In an element, character data, references, CDATA sections, comments and processing instructions that give one text spell the same.
pub fn pieces_of_one_text_spell_the_same()
    ensures { PiecesOfOneTextSpellTheSame }
{}

/// One more comment or processing instruction between any two tokens of a document spells nothing.
pub fn comments_spell_nothing()
    ensures { CommentsSpellNothing }
{}
