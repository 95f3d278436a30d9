//! Entries without references.

ghost use Rattle.std.specs.Prelude.{◌≡◌};
ghost use Rattle.biblatex_entries.specs.Entries.{source_view, sources_view};
ghost use Rattle.biblatex_writing.specs.Flat.{flat, flat_entry};

use biblatex_entries::Entry;

/// Takes `crossref` out of the entry, and nothing else. Takes no memory.
pub fn flatten_entry(entry: &mut Entry)
    ensures { source_view entry.new ≡ flat_entry (source_view entry.old) }
{
    entry.remove("crossref");
}

/// Takes `crossref` out of each of the entries, and nothing else. Takes no memory.
pub fn flatten_entries(entries: &mut [Entry])
    ensures { sources_view entries.new ≡ flat (sources_view entries.old) }
{
    for index in 0..entries.len() {
        flatten_entry(&mut entries[index]);
    }
}
