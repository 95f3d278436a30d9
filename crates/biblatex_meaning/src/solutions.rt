//! Entries with their references resolved.

ghost use Rattle.biblatex_meaning.specs.Solutions.{EachAcyclicFileHasResolvedEntries};

/// Entries of which none reaches itself can be resolved, in one way.
pub fn each_acyclic_file_has_resolved_entries()
    ensures { EachAcyclicFileHasResolvedEntries }
{}
