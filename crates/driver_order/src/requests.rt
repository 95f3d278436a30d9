//! Requests with their items in the order of sort keys.

ghost use Rattle.std.specs.Prelude.{◌≡◌, map, IfOk};
ghost use Rattle.laws.specs.Borrowed.{borrowed};
ghost use Rattle.rendering_style.specs.StyleViews.{style_view};
ghost use Rattle.driver_requests.specs.EntryKeys.{IsIndex, has_key};
ghost use Rattle.driver_order.specs.Keyed.{number_by, numbers_of};
ghost use Rattle.driver_order.specs.Sorted.{request_in_order, request_parts, requests_in_order};

use crate::cites::sorted_request;
use crate::numbers::{Numbers, positions};
use crate::sort_keys::keys_of;
use driver_requests::{CitationRequest, Cited, ordered};
use rendering_entries::EntryLike;
use rendering_style::Style;
use std::alloc::{AllocError, Global};
use std::hash::Hash;

/// The same requests, each with its items in the order of the sort keys of the citation. Items with equal keys stay in their order, and so do
/// all where there are no keys.
///
/// The keys and the macros that they call are those of `sorting`, which is the style of the citations as it prints for sorting. The languages
/// are those of each request. The number of an entry that a key prints is its position in the bibliography, from zero: first come the entries
/// of `order`, so far as they are cited, if the style has a bibliography, and then the others by their first cites.
///
/// # Errors
/// Out of memory.
pub fn sorted_requests<'a, T: EntryLike + Hash, P: Drop>(
    alloc: Global,
    requests: Vec<CitationRequest<'a, T, P>>,
    sorting: &Style,
    order: &[&'a T],
) -> Result<Vec<CitationRequest<'a, T, P>>, AllocError>
    ensures { IfOk result (λ v. map request_parts v.items
        ≡ requests_in_order T.eq T.answers (style_view sorting.now) (borrowed order.now)
        (map request_parts requests.entry.items)) }
{
    if keys_of(sorting, false).is_empty() {
        return Ok(requests);
    }
    let cited = Cited::new(alloc, requests.as_slice())?;
    let numbers = numbers_in(alloc, &cited, sorting, order)?;
    let numbers = Numbers {
        cited: &cited,
        numbers: numbers.as_slice(),
    };
    sorted_each(alloc, requests, sorting, &numbers)
}

/// The numbers of cited entries, by their indices, where these come first in the bibliography.
fn numbers_in<'a, T: EntryLike + Hash>(
    alloc: Global,
    cited: &Cited<'a, T>,
    sorting: &Style,
    first: &[&'a T],
) -> Result<Vec<usize>, AllocError>
    requires { IsIndex (has_key T.hash_input T.answers) cited.now.table
        (borrowed cited.now.entries.items) }
    ensures { IfOk result (λ v. v.items ≡ numbers_of T.eq (style_view sorting.now)
        (borrowed first.now) (borrowed cited.now.entries.items)) }
{
    let wanted = cited.indices(alloc, first)?;
    let order = ordered(alloc, sorting, &wanted, cited.entries().len())?;
    positions(alloc, &order)
}

/// Each request with its items in order, by the numbers of their entries.
fn sorted_each<'a, T: EntryLike + Hash, P: Drop>(
    alloc: Global,
    requests: Vec<CitationRequest<'a, T, P>>,
    sorting: &Style,
    numbers: &Numbers<'_, 'a, T>,
) -> Result<Vec<CitationRequest<'a, T, P>>, AllocError>
    requires { IsIndex (has_key T.hash_input T.answers) numbers.now.cited.now.table
        (borrowed numbers.now.cited.now.entries.items) }
    ensures { IfOk result (λ v. map request_parts v.items ≡ map (request_in_order
        (style_view sorting.now) T.answers (number_by T.eq
        (borrowed numbers.now.cited.now.entries.items) numbers.now.numbers.now))
        (map request_parts requests.entry.items)) }
{
    let mut sorted = Vec::with_capacity(alloc, requests.len())?;
    for request in requests {
        sorted.push(sorted_request(alloc, request, sorting, numbers)?)?;
    }
    Ok(sorted)
}
