//! The cites of a request in the order of their sort keys.

ghost use Rattle.std.specs.Prelude.{◌≡◌, false, map, IfOk};
ghost use Rattle.laws.specs.Borrowed.{borrowed};
ghost use Rattle.rendering.specs.Views.{style_context_view};
ghost use Rattle.rendering_style.specs.StyleViews.{style_view};
ghost use Rattle.driver_requests.specs.EntryKeys.{IsIndex, has_key};
ghost use Rattle.driver_requests.specs.Views.{context_of, parts_of};
ghost use Rattle.driver_order.specs.Keyed.{keyed_items, number_by};
ghost use Rattle.driver_order.specs.Sorted.{item_keys, items_in_order, request_in_order, request_parts};
ghost use Rattle.driver_order.specs.Views.{keyed_item_view};

use crate::entry_keys::KeyContext;
use crate::numbers::Numbers;
use crate::sort_keys::{inherited, keys_of};
use driver_citations::plain_locator;
use driver_requests::{CitationItem, CitationRequest};
use rendering::StyleContext;
use rendering_entries::EntryLike;
use rendering_sorting::SortPart;
use rendering_style::Style;
use sorting::{Keyed, sorted_by_keys};
use std::alloc::{AllocError, Global};
use std::hash::Hash;
use std::mem;

/// A request with its items in the order of the keys of a citation, which a style prints in the languages of the request. Fewer than two
/// items need no keys.
pub(crate) fn sorted_request<'a, T: EntryLike + Hash, P: Drop>(
    alloc: Global,
    request: CitationRequest<'a, T, P>,
    sorting: &Style,
    numbers: &Numbers<'_, 'a, T>,
) -> Result<CitationRequest<'a, T, P>, AllocError>
    requires { IsIndex (has_key T.hash_input T.answers) numbers.now.cited.now.table
        (borrowed numbers.now.cited.now.entries.items) }
    ensures { IfOk result (λ r. request_parts r ≡ request_in_order (style_view sorting.now)
        T.answers (number_by T.eq (borrowed numbers.now.cited.now.entries.items)
        numbers.now.numbers.now) (request_parts request.entry)) }
{
    let mut request = request;
    if request.items.len() < 2 {
        return Ok(request);
    }
    let items = mem::replace(&mut request.items, Vec::new(alloc));
    request.items = items_in(alloc, &request, sorting, items, numbers)?;
    Ok(request)
}

/// Items in the order of the keys of a citation, which a style prints in the languages of a request.
fn items_in<'a, T: EntryLike + Hash, P: Drop>(
    alloc: Global,
    request: &CitationRequest<'a, T, P>,
    sorting: &Style,
    items: Vec<CitationItem<'a, T, P>>,
    numbers: &Numbers<'_, 'a, T>,
) -> Result<Vec<CitationItem<'a, T, P>>, AllocError>
    requires { IsIndex (has_key T.hash_input T.answers) numbers.now.cited.now.table
        (borrowed numbers.now.cited.now.entries.items) }
    ensures { IfOk result (λ v. map parts_of v.items ≡ items_in_order
        (record (context_of request.now) { style = style_view sorting.now }) T.answers
        (number_by T.eq (borrowed numbers.now.cited.now.entries.items) numbers.now.numbers.now)
        (map parts_of items.entry.items)) }
{
    let locale = request.locale.as_ref();
    let context = StyleContext::new(alloc, sorting, locale, request.locale_files)?;
    sorted_items(alloc, &context, sorting, items, numbers)
}

/// Items in the order of the keys of a citation, which a style prints in its languages.
fn sorted_items<'a, T: EntryLike + Hash, P: Drop>(
    alloc: Global,
    context: &StyleContext<'_>,
    sorting: &Style,
    items: Vec<CitationItem<'a, T, P>>,
    numbers: &Numbers<'_, 'a, T>,
) -> Result<Vec<CitationItem<'a, T, P>>, AllocError>
    requires style { (style_context_view context.now).style ≡ style_view sorting.now }
    requires table { IsIndex (has_key T.hash_input T.answers) numbers.now.cited.now.table
        (borrowed numbers.now.cited.now.entries.items) }
    ensures { IfOk result (λ v. map parts_of v.items ≡ items_in_order
        (style_context_view context.now) T.answers (number_by T.eq
        (borrowed numbers.now.cited.now.entries.items) numbers.now.numbers.now)
        (map parts_of items.entry.items)) }
{
    let words = context.words(None)?;
    let keys = KeyContext {
        alloc,
        context,
        words: &words,
        keys: keys_of(sorting, false),
        options: inherited(sorting, false),
        is_bibliography: false,
    };
    let keyed = keyed_items(&keys, items, numbers)?;
    sorted_by_keys(alloc, keyed)
}

/// Items with their keys.
fn keyed_items<'a, T: EntryLike + Hash, P: Drop>(
    keys: &KeyContext<'_>,
    items: Vec<CitationItem<'a, T, P>>,
    numbers: &Numbers<'_, 'a, T>,
) -> Result<Vec<Keyed<Vec<SortPart>, CitationItem<'a, T, P>>>, AllocError>
    requires citation { keys.now.is_bibliography ≡ false }
    requires table { IsIndex (has_key T.hash_input T.answers) numbers.now.cited.now.table
        (borrowed numbers.now.cited.now.entries.items) }
    ensures { IfOk result (λ v. map keyed_item_view v.items
        ≡ keyed_items (style_context_view keys.now.context.now) T.answers (number_by T.eq
        (borrowed numbers.now.cited.now.entries.items) numbers.now.numbers.now)
        (map parts_of items.entry.items)) }
{
    let mut keyed = Vec::with_capacity(keys.alloc, items.len())?;
    for item in items {
        let number = numbers.number(item.entry);
        keyed.push(keyed_item(keys, item, number)?)?;
    }
    Ok(keyed)
}

/// An item with its keys, whose entry has this number.
fn keyed_item<'a, T: EntryLike, P: Drop>(
    keys: &KeyContext<'_>,
    item: CitationItem<'a, T, P>,
    number: usize,
) -> Result<Keyed<Vec<SortPart>, CitationItem<'a, T, P>>, AllocError>
    requires { keys.now.is_bibliography ≡ false }
    ensures { IfOk result (λ k. keyed_item_view k ≡ (
      item_keys (style_context_view keys.now.context.now)
          T.answers (λ _. number) (parts_of item.entry),
      parts_of item.entry,
    )) }
{
    let key = keys.keys(item.entry, number, plain_locator(&item))?;
    Ok(Keyed { key, value: item })
}
