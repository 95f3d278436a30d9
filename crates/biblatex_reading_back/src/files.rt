//! Files of entries.

ghost use Rattle.biblatex_reading_back.specs.Spelled.{FilesAreReadAsSpelled};

/// A file of entries, each with its fields one below the other, is read, and what is read of it are these entries.
pub fn files_are_read_as_spelled()
    ensures { FilesAreReadAsSpelled }
{}
