//! Settled entries.

ghost use Rattle.biblatex_reading_back.specs.ReadingBack.{SettledEntriesReadBack};

/// What is written of settled entries means these entries: the same keys in order, the written types, and unless two fields of an entry
/// are written under one name, under each written name the text that was written.
pub fn settled_entries_read_back()
    ensures { SettledEntriesReadBack }
{}
