//! What is written is read back.

ghost use Rattle.biblatex_lists.specs.Laws.{ReadsBack};

/// Reading what was written of texts gives them back, where none of them is empty.
pub fn texts_are_read_back()
    ensures { ReadsBack }
{}
