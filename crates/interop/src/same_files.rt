//! Files that say the same.

ghost use Rattle.std.specs.Prelude.{◌≡◌, List};
ghost use Rattle.biblatex_entries.specs.Entries.{Source};
ghost use Rattle.interop.specs.Library.{AreAlike, library_of};
ghost use Rattle.interop.specs.SameFiles.{SayTheSame};

/// Files that say the same have one library, or the same faults. The order of the fields in an entry makes no difference, nor an
/// empty field, nor which of its two names a field or a type has.
pub fn files_that_say_the_same_have_one_library()
    // They are alike, as the clause of `from_biblatex` about files with one library asks.
    ensures alike { (es fs : List Source) → SayTheSame es fs → AreAlike es fs }
    ensures one { (es fs : List Source) → SayTheSame es fs → library_of es ≡ library_of fs }
{}
