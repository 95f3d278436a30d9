//! Comments and processing instructions in texts.

ghost use Rattle.csl_laws.specs.Comments.{NotesSayNothing};

/// After its declaration a text says the same with one more comment or processing instruction between two of its tokens.
pub fn notes_say_nothing()
    ensures { NotesSayNothing }
{}
