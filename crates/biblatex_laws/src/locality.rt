//! What a name means once references are resolved is decided by the entries that it reaches.

ghost use Rattle.biblatex_laws.specs.Differing.{OneMoreEntryChangesNothing};
ghost use Rattle.biblatex_laws.specs.Reached.{ReachedNamesMeanTheSame};

/// In two files that say the same of all that names reach by references, each of these means entries that say the same once references are
/// resolved.
pub fn reached_names_mean_the_same()
    ensures { ReachedNamesMeanTheSame }
{}

/// A file says the same of all that names reach after one more entry was put into it, wherever that stands, if each name that is reached still
/// means an entry of the same key, and no abbreviation changes that a field of a reached entry opens.
pub fn one_more_entry_changes_nothing()
    ensures { OneMoreEntryChangesNothing }
{}
