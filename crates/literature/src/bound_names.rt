//! The names of bindings.

ghost use Rattle.std.specs.Prelude.{◌≡◌, map, string_bytes};
ghost use Rattle.std.specs.Iterator.{YieldsFirstBy, item_count};
ghost use Rattle.literature.specs.Pairs.{names_left};

use literature_entries::Entry;
use std::slice::Iter;

/// The names of bindings, in their order.
#[derive(Drop)]
pub struct BoundNames<'b, 'e> {
    rest: Iter<'b, (String, &'e Entry)>,
}

impl<'b, 'e> BoundNames<'b, 'e> {
    /// The names of the bindings.
    pub(crate) fn new(bound: &'b [(String, &'e Entry)]) -> BoundNames<'b, 'e>
        ensures { names_left result ≡ map (λ p. string_bytes p.0) bound.now }
    {
        BoundNames { rest: bound.iter() }
    }
}

impl<'b, 'e> Iterator for BoundNames<'b, 'e> {
    type Item = &'b str;

    ghost next_gives = { YieldsFirstBy (λ name. name.now) names_left };

    ghost remaining = { item_count names_left };

    fn next(&mut self) -> Option<&'b str> {
        match self.rest.next() {
            Some((name, _)) => Some(name.as_str()),
            None => None,
        }
    }
}
