//! Laws of libraries: a file, its entries without `crossref`, and what their written text means come to one library. The functions do
//! nothing, and carry the laws as their contracts.
#![tactic(auto)]

ghost use Rattle.interop_roads.specs.Roads.{EntriesReadBackHaveOneLibrary, FlatEntriesAreOneWork, FlatEntriesHaveOneLibrary};

/// Entries come to the same library without `crossref`, or to the same faults.
pub fn flat_entries_have_one_library()
    ensures entry { FlatEntriesAreOneWork }
    ensures library { FlatEntriesHaveOneLibrary }
{}

/// Entries that were written and read back come to the same library as before, or to the same faults, if no entry has two fields that
/// are written under one name.
pub fn entries_read_back_have_one_library()
    ensures { EntriesReadBackHaveOneLibrary }
{}
