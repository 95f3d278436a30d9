//! Selecting from the side of an entry.

ghost use Rattle.std.specs.Prelude.{◌≡◌, IfOk};
ghost use Rattle.std.specs.Option.{option_copied};
ghost use Rattle.literature_entries.specs.declared.entry.Entry.{Entry};
ghost use Rattle.literature.specs.Bindings.{bound_to};
ghost use Rattle.literature.specs.Views.{selector_view};

use crate::selector::Selector;
use literature_entries::Entry;
use std::alloc::{AllocError, Global};

/// What can be asked for the entry that a selector binds to a name.
pub trait BoundSelect {
    // the entry that is asked
    ghost asked: { Self → Entry };

    /// The entry that the selector binds to the name where it holds here, else none.
    ///
    /// # Errors
    /// Out of memory.
    fn bound_select(
        &self,
        alloc: Global,
        selector: &Selector,
        name: &str,
    ) -> Result<Option<&Entry>, AllocError>
        ensures { IfOk result (λ e. option_copied e
            ≡ bound_to (selector_view selector.now) (asked self.now) name.now) };
}

impl BoundSelect for Entry {
    ghost asked = { λ e. e };

    fn bound_select(
        &self,
        alloc: Global,
        selector: &Selector,
        name: &str,
    ) -> Result<Option<&Entry>, AllocError> {
        selector.bound(alloc, self, name)
    }
}
