//! The order of a bibliography.

ghost use Rattle.std.specs.Prelude.{◌≡◌, true, map, IfOk};
ghost use Rattle.laws.specs.Borrowed.{borrowed};
ghost use Rattle.rendering.specs.Views.{style_context_view};
ghost use Rattle.rendering_style.specs.StyleViews.{style_view};
ghost use Rattle.driver_requests.specs.CitedEntries.{once};
ghost use Rattle.driver_requests.specs.Views.{entries_in};
ghost use Rattle.driver_order.specs.Order.{entries_in_order, keyed_entries, sorting_context};
ghost use Rattle.driver_order.specs.Views.{keyed_view};

use crate::entry_keys::KeyContext;
use crate::sort_keys::{inherited, keys_of};
use driver_requests::{BibliographyRequest, CitationRequest, Cited};
use rendering::StyleContext;
use rendering_entries::EntryLike;
use rendering_sorting::SortPart;
use rendering_style::Style;
use sorting::{Keyed, sorted_by_keys};
use std::alloc::{AllocError, Global};
use std::hash::Hash;

/// The entries that requests cite, each once, in the order of the sort keys of a bibliography: what `with_order` takes. Entries with equal
/// keys stay in the order of their first cites, and so do all where there are no keys.
///
/// The keys and the macros that they call are those of `sorting`, which is the style of the bibliography as it prints for sorting. The
/// languages are those of the request.
///
/// # Errors
/// Out of memory.
pub fn bibliography_order<'a, T: EntryLike + Hash, P>(
    alloc: Global,
    requests: &[CitationRequest<'a, T, P>],
    sorting: &Style,
    request: &BibliographyRequest<'a, T>,
) -> Result<Vec<&'a T>, AllocError>
    ensures { IfOk result (λ v. borrowed v.items
        ≡ entries_in_order (sorting_context (style_view sorting.now) request.now) T.answers
        (once T.eq (entries_in requests.now))) }
{
    let cited = Cited::new(alloc, requests)?;
    let locale = request.locale.as_ref();
    let context = StyleContext::new(alloc, sorting, locale, request.locale_files)?;
    sorted_entries(alloc, &context, sorting, cited.entries())
}

/// Entries in the order of the keys of a bibliography, which a style prints in its languages.
fn sorted_entries<'a, T: EntryLike>(
    alloc: Global,
    context: &StyleContext<'_>,
    sorting: &Style,
    entries: &[&'a T],
) -> Result<Vec<&'a T>, AllocError>
    requires { (style_context_view context.now).style ≡ style_view sorting.now }
    ensures { IfOk result (λ v. borrowed v.items
        ≡ entries_in_order (style_context_view context.now) T.answers (borrowed entries.now)) }
{
    let words = context.words(None)?;
    let keys = KeyContext {
        alloc,
        context,
        words: &words,
        keys: keys_of(sorting, true),
        options: inherited(sorting, true),
        is_bibliography: true,
    };
    let keyed = keyed_entries(&keys, entries)?;
    sorted_by_keys(alloc, keyed)
}

/// Entries with their keys; their numbers are their indices.
fn keyed_entries<'a, T: EntryLike>(
    keys: &KeyContext<'_>,
    entries: &[&'a T],
) -> Result<Vec<Keyed<Vec<SortPart>, &'a T>>, AllocError>
    requires { keys.now.is_bibliography ≡ true }
    ensures { IfOk result (λ v. map keyed_view v.items
        ≡ keyed_entries (style_context_view keys.now.context.now) T.answers
        (borrowed entries.now)) }
{
    let mut keyed = Vec::with_capacity(keys.alloc, entries.len())?;
    for (number, entry) in entries.iter().enumerate() {
        let key = keys.keys(*entry, number, None)?;
        keyed.push(Keyed { key, value: *entry })?;
    }
    Ok(keyed)
}
