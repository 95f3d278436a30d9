//! The keys of entries.

ghost use Rattle.std.specs.Prelude.{◌≡◌, map, string_bytes};
ghost use Rattle.std.specs.Iterator.{YieldsFirstBy, item_count};
ghost use Rattle.biblatex_entries.specs.Entries.{sources_view};
ghost use Rattle.biblatex.specs.Keys.{keys_left};

use biblatex_entries::Entry;

/// The keys of entries, in their order.
#[derive(Drop)]
pub struct Keys<'a> {
    rest: &'a [Entry],
}

impl<'a> Keys<'a> {
    /// The keys of the entries.
    pub(crate) fn new(entries: &'a [Entry]) -> Keys<'a>
        ensures { keys_left result ≡ map (λ e. e.key) (sources_view entries.now) }
    {
        Keys { rest: entries }
    }
}

impl<'a> Iterator for Keys<'a> {
    type Item = &'a str;

    ghost next_gives = { YieldsFirstBy (λ key. key.now) keys_left };

    ghost remaining = { item_count keys_left };

    fn next(&mut self) -> Option<&'a str> {
        let (first, others) = self.rest.split_first()?;
        self.rest = others;
        Some(first.key.as_str())
    }
}
