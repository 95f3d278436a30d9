//! The entries of bib texts.

ghost use Rattle.std.specs.Prelude.{◌≡◌, [], true};
ghost use Rattle.biblatex.specs.Bibliographies.{listed_view};
ghost use Rattle.biblatex_writing.specs.Settled.{have_distinct_keys};
ghost use Rattle.interop.specs.Library.{all_faults};

use biblatex::Bibliography;

/// The entries of bib texts, whose keys are distinct and all of whose dates can be read.
#[derive(Drop)]
pub(crate) struct Entries {
    pub(crate) file: Bibliography,
    ghost readable: { all_faults (listed_view file).entries ≡ [] },
    ghost distinct: { have_distinct_keys (listed_view file).entries ≡ true },
}
