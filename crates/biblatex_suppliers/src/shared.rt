//! Entries with fields beside them, whose values are held once for all fields that have them.

ghost use Rattle.std.specs.Prelude.{◌≡◌, length};
ghost use Rattle.biblatex_suppliers.specs.Written.{written_view};

use biblatex_content::Chunks;
use biblatex_entries::Entry;
use std::rc::Rc;

/// A field that stands beside its entry.
#[derive(Drop)]
pub struct Shared {
    /// Its name in lower case.
    pub name: String,
    /// Its value, which other fields may have as well.
    pub value: Rc<Chunks>,
}

/// Entries as they are written, in the order of their file.
#[derive(Drop)]
pub struct Written {
    /// The entries, without the fields beside them.
    pub entries: Vec<Entry>,
    /// The fields beside each.
    pub shared: Vec<Vec<Shared>>,
}

impl Written {
    /// How many entries there are.
    pub fn len(&self) -> usize
        ensures { result ≡ length (written_view self.now) }
    {
        self.entries.len()
    }
}
