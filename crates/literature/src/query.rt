//! Queries of libraries.

ghost use Rattle.std.specs.Prelude.{◌≡◌, ◌++◌, ◌∷◌, [], map, IfOk, OnOk};
ghost use Rattle.std.specs.Str.{chars};
ghost use Rattle.literature.specs.Reading.{selector_of};
ghost use Rattle.literature.specs.Views.{selector_view, fault};
ghost use Rattle.laws.specs.Results.{Gives};
ghost use Rattle.literature.specs.Answers.{answers, answered, shown};
ghost use Rattle.literature.specs.Entries.{entries};

use crate::bindings::Bindings;
use crate::library::Library;
use crate::selector::Selector;
use crate::selector_error::SelectorError;
use literature_entries::Entry;
use std::alloc::{AllocError, Global};

/// An entry that a selector chose, with what the selector's names are bound to there.
#[derive(Drop)]
pub struct Selected<'l> {
    pub entry: &'l Entry,
    pub bindings: Bindings<'l>,
}

impl Library {
    /// The entries at which the selector of the text holds, in order, with their bindings.
    ///
    /// # Errors
    /// Those of `Selector::parse`.
    pub fn query(&self, alloc: Global, text: &str) -> Result<Vec<Selected<'_>>, SelectorError>
        ensures { Gives fault (λ v. map shown v.items) result
            (answered (selector_of (chars text.now)) (entries self.now)) }
    {
        let selector = Selector::parse(alloc, text)?;
        Ok(self.selected(alloc, &selector)?)
    }

    /// The entries at which the selector holds.
    fn selected(&self, alloc: Global, selector: &Selector) -> Result<Vec<Selected<'_>>, AllocError>
        ensures { IfOk result (λ v. map shown v.items
            ≡ answers (selector_view selector.now) (entries self.now)) }
    {
        let mut found = Vec::new(alloc);
        for entry in self.iter() {
            select(alloc, selector, entry, &mut found)?;
        }
        Ok(found)
    }
}

/// Adds the entry where the selector holds there.
fn select<'l>(
    alloc: Global,
    selector: &Selector,
    entry: &'l Entry,
    found: &mut Vec<Selected<'l>>,
) -> Result<(), AllocError>
    ensures { OnOk result (map shown found.new.items
        ≡ map shown found.old.items ++ answers (selector_view selector.now) (entry.now ∷ [])) }
{
    if let Some(bindings) = selector.apply(alloc, entry)? {
        found.push(Selected { entry, bindings })?;
    }
    Ok(())
}
