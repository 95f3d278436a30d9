//! Sections: the selectors that choose entries of a library.

ghost use Rattle.std.specs.Prelude.{◌≡◌, ◌++◌, filter, map, IfOk, OnOk};
ghost use Rattle.std.specs.Str.{chars};
ghost use Rattle.laws.specs.Text.{spelled};
ghost use Rattle.literature_entries.specs.EntriesData.{entry_view};
ghost use Rattle.literature.specs.Entries.{entries};
ghost use Rattle.literature.specs.Holding.{holds_at};
ghost use Rattle.literature.specs.Views.{selector_view};
ghost use Rattle.interop.specs.Views.{library_view};
ghost use Rattle.cite_requests.specs.Answers.{Gives};
ghost use Rattle.cite_requests.specs.Sections.{chosen, selector_in};
ghost use Rattle.cite_requests.specs.Stages.{refused_as, section_refused, section_stage};
ghost use Rattle.cite_requests.specs.Views.{lent_works_view};

use crate::error::CiteError;
use literature::{Library, Selector, SelectorError};
use literature_entries::Entry;
use std::alloc::{AllocError, Global};

/// The selectors of sections.
///
/// # Errors
/// `Selector` with the first section that is none, by its index from zero, and why; `Memory`.
pub fn selectors(alloc: Global, sections: &[&str]) -> Result<Vec<Selector>, CiteError>
    ensures { Gives (λ v. map selector_view v.items) result
        (section_stage (map spelled sections.now)) }
{
    let mut selectors = Vec::with_capacity(alloc, sections.len())?;
    for (index, section) in sections.iter().enumerate() {
        selectors.push(selector(alloc, index, section)?)?;
    }
    Ok(selectors)
}

/// The selector that the section at an index spells.
fn selector(alloc: Global, index: usize, section: &str) -> Result<Selector, CiteError>
    ensures { Gives selector_view result
        (refused_as section_refused (selector_in (index, chars section.now))) }
{
    match Selector::parse(alloc, section) {
        Ok(selector) => Ok(selector),
        Err(SelectorError::Memory) => Err(CiteError::Memory),
        Err(error) => Err(CiteError::Selector { index, error }),
    }
}

/// The entries that the selectors choose: for each selector those at which it holds, in the order of the library.
///
/// # Errors
/// Out of memory.
pub fn chosen<'l>(
    alloc: Global,
    selectors: &[Selector],
    library: &'l Library,
) -> Result<Vec<&'l Entry>, AllocError>
    ensures { IfOk result (λ v. lent_works_view v.items
        ≡ chosen (map selector_view selectors.now) (library_view library.now)) }
{
    let mut found = Vec::new(alloc);
    for selector in selectors {
        push_chosen(selector, library, &mut found)?;
    }
    Ok(found)
}

/// Adds the entries at which the selector holds.
fn push_chosen<'l>(
    selector: &Selector,
    library: &'l Library,
    found: &mut Vec<&'l Entry>,
) -> Result<(), AllocError>
    ensures { OnOk result (lent_works_view found.new.items ≡ lent_works_view found.old.items
        ++ filter (holds_at (selector_view selector.now)) (library_view library.now)) }
{
    for entry in library.iter() {
        if selector.matches(entry) {
            found.push(entry)?;
        }
    }
    Ok(())
}
