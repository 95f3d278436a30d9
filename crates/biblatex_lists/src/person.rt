//! A person in a list of people.

ghost use Rattle.std.specs.Prelude.{◌≡◌};
ghost use Rattle.biblatex_lists.specs.Reading.{is_named, nobody};
ghost use Rattle.biblatex_lists.specs.Views.{named_view};

use std::alloc::Global;
use texts::{empty_text, has_text};

/// A person, by the parts of the name; a part that is not there is empty.
#[derive(Debug, PartialEq, Eq, Drop)]
pub struct Person {
    /// The family name.
    pub name: String,
    /// The given names, one space between two of them.
    pub given_name: String,
    /// Particles that stand before the name, as `van`.
    pub prefix: String,
    /// What stands after the name, as `Jr`.
    pub suffix: String,
}

impl Person {
    /// A person of whose name no part is there.
    pub(crate) fn nobody(alloc: Global) -> Person
        ensures { named_view result ≡ nobody }
    {
        Person {
            name: empty_text(alloc),
            given_name: empty_text(alloc),
            prefix: empty_text(alloc),
            suffix: empty_text(alloc),
        }
    }

    /// Whether some part of the name is there.
    pub(crate) fn is_named(&self) -> bool
        ensures { result ≡ is_named (named_view self.now) }
    {
        has_text(self.name.as_str())
            || has_text(self.given_name.as_str())
            || has_text(self.prefix.as_str())
            || has_text(self.suffix.as_str())
    }
}
