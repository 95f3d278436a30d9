//! The keys of a library.

ghost use Rattle.std.specs.Prelude.{◌≡◌, map};
ghost use Rattle.std.specs.Iterator.{YieldsFirstBy, item_count};
ghost use Rattle.literature.specs.KeysLeft.{keys_left};
ghost use Rattle.literature_entries.specs.Views.{key_view};

use literature_entries::Entry;
use std::slice::Iter;

/// The keys of entries, in their order.
#[derive(Drop)]
pub struct Keys<'a> {
    rest: Iter<'a, Entry>,
}

impl<'a> Keys<'a> {
    /// The keys of the entries.
    pub(crate) fn new(entries: &'a [Entry]) -> Keys<'a>
        ensures { keys_left result ≡ map key_view entries.now }
    {
        Keys {
            rest: entries.iter(),
        }
    }
}

impl<'a> Iterator for Keys<'a> {
    type Item = &'a str;

    ghost next_gives = { YieldsFirstBy (λ key. key.now) keys_left };

    ghost remaining = { item_count keys_left };

    fn next(&mut self) -> Option<&'a str> {
        match self.rest.next() {
            Some(entry) => Some(entry.key()),
            None => None,
        }
    }
}
