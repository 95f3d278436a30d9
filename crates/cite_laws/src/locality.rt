//! What a document sees of a bib text are the entries that its names reach by references, and what comes to an entry by reference prints as
//! if it stood in the entry.

ghost use Rattle.cite_laws.specs.Local.{OneUnreachedEntryChangesNothing, OneUnreachedEntryPrintsNothing, ReachedEntriesDecide, ReachedEntriesDecideTheOutput};
ghost use Rattle.cite_laws.specs.Uncited.{UncitedEntriesChangeNothing};
ghost use Rattle.cite_laws.specs.WrittenOut.{AuthorsMayWriteReferencesOut, ContentsMayBeWrittenOut, ReferencesMayBeWrittenOut};

/// Bib texts that say the same of all that the names of a document reach, with the cited entries in one order, are alike for it, and have
/// the same output.
pub fn reached_entries_decide()
    ensures alike { ReachedEntriesDecide }
    ensures bytes { ReachedEntriesDecideTheOutput }
{}

/// Bib texts of which one has one entry more are alike for a document that does not reach it, and have the same output, if no abbreviation
/// changes that a field of a reached entry opens.
pub fn one_unreached_entry_changes_nothing()
    ensures alike { OneUnreachedEntryChangesNothing }
    ensures bytes { OneUnreachedEntryPrintsNothing }
{}

/// A bib text with more entries, put before, between or after others, has the same output for a document that reaches none of them, if no
/// stage refuses the text with them or without them.
pub fn uncited_entries_change_nothing()
    ensures { UncitedEntriesChangeNothing }
{}

/// A field that comes by reference prints as if it stood in the entry, and the references were gone: bib texts whose entries, read and
/// without `crossref`, say the same have the same output, or the same refusal.
pub fn references_may_be_written_out()
    ensures says { ReferencesMayBeWrittenOut }
    // So have bib texts whose entries have the same contents under written names, even of two fields that are written under one name.
    ensures contents { ContentsMayBeWrittenOut }
    // So has a text whose entries, as they stand in it, have no references and say what those of the other say once they are resolved.
    ensures standing { AuthorsMayWriteReferencesOut }
{}
