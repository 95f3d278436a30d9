//! What is read of characters is made of characters.

ghost use Rattle.biblatex_laws.specs.Read.{EntriesReadAreText};

/// The keys, types, names and contents of entries that were read are made of characters, once references are resolved too.
pub fn entries_read_are_text()
    ensures { EntriesReadAreText }
{}
