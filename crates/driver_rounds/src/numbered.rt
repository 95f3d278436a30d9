//! Cites with their numbers, and with their ibid states as written.

ghost use Rattle.std.specs.Prelude.{◌≡◌, ◌<◌, All, length, map, not, slice_index, IfOk, IfSome, None};
ghost use Rattle.driver_requests.specs.Indices.{runs};
ghost use Rattle.driver_requests.specs.Views.{context_of};
ghost use Rattle.driver_rounds.specs.Numbering.{all_cites_view, cites_view, entry_at, entries_by_request, last_item, last_item_among, numbering, numbering_all};
ghost use Rattle.driver_rounds.specs.Views.{numbered_cites_view, all_numbered_cites_view};

use crate::cite::NumberedCite;
use driver_requests::{CitationRequest, CiteFacts, LastCite, ibid_of};
use rendering_entries::EntryLike;
use std::alloc::{AllocError, Global};

/// The cites of requests with their numbers.
pub(crate) fn numbered<'r, T: EntryLike, P: PartialEq>(
    alloc: Global,
    requests: &'r [CitationRequest<'r, T, P>],
    indices: &[Vec<usize>],
    facts: &[Vec<CiteFacts>],
    numbers: &[usize],
) -> Result<Vec<Vec<NumberedCite<'static>>>, AllocError>
    requires indices { map (λ v. length v.items) indices.now
        ≡ map (λ r. length r.items.items) requests.now }
    requires facts { map (λ v. length v.items) facts.now
        ≡ map (λ r. length r.items.items) requests.now }
    requires within { All (All (λ p. p < length numbers.now)) (runs indices.now) }
    ensures cites { IfOk result (λ v. all_numbered_cites_view T.answers requests.now v.items
        ≡ numbering_all P.eq (λ p. slice_index numbers.now p) None
        (all_cites_view T.answers requests.now indices.now facts.now)) }
    ensures entries { IfOk result (λ v. entries_by_request v.items ≡ runs indices.now) }
{
    let mut all = Vec::with_capacity(alloc, requests.len())?;
    let mut last = None;
    for (index, request) in requests.iter().enumerate() {
        let own_indices = indices[index].as_slice();
        let own_facts = facts[index].as_slice();
        let run = numbered_request(alloc, request, own_indices, own_facts, numbers, last)?;
        all.push(run)?;
        last = last_cite(request, own_indices, last);
    }
    Ok(all)
}

/// The last cite of a request, or the cite before it where the request has none.
fn last_cite<'r, T: EntryLike, P>(
    request: &'r CitationRequest<'r, T, P>,
    indices: &[usize],
    last: Option<LastCite<'r, T, P>>,
) -> Option<LastCite<'r, T, P>>
    requires { length indices.now ≡ length request.now.items.items }
    ensures { last_item T.answers result ≡ last_item_among T.answers
        (last_item T.answers last.entry) 0 request.now.items.items indices.now }
{
    let count = request.items.len();
    if count == 0 {
        return last;
    }
    let items = request.items.as_slice();
    let index = count - 1;
    Some(LastCite {
        item: &items[index],
        entry: indices[index],
        index,
    })
}

/// The cites of a request after another cite.
fn numbered_request<T: EntryLike, P: PartialEq>(
    alloc: Global,
    request: &CitationRequest<'_, T, P>,
    indices: &[usize],
    facts: &[CiteFacts],
    numbers: &[usize],
    before: Option<LastCite<'_, T, P>>,
) -> Result<Vec<NumberedCite<'static>>, AllocError>
    requires indices { length indices.now ≡ length request.now.items.items }
    requires facts { length facts.now ≡ length request.now.items.items }
    requires within { All (λ p. p < length numbers.now) indices.now }
    ensures cites { IfOk result (λ v. numbered_cites_view T.answers
        (context_of request.now) request.now.items.items v.items ≡ numbering P.eq
        (λ p. slice_index numbers.now p) (last_item T.answers before.entry)
        (cites_view T.answers (context_of request.now) request.now.note_number
        0 request.now.items.items indices.now facts.now)) }
    ensures entries { IfOk result (λ v. map entry_at v.items ≡ indices.now) }
{
    let note_number = request.note_number();
    let after_one = has_ibid_after_one(request);
    let mut run = Vec::with_capacity(alloc, request.items.len())?;
    let mut last = before;
    for (index, item) in request.items.iter().enumerate() {
        let entry = indices[index];
        let ibid = ibid_of(last, counts(last), after_one, index, item, entry);
        run.push(NumberedCite {
            entry,
            index,
            note_number,
            facts: facts[index],
            number: numbers[entry],
            ibid,
            first_names: None,
        })?;
        last = Some(LastCite { item, entry, index });
    }
    Ok(run)
}

/// Whether ibid is to follow citations of one cite, by the style of a request.
fn has_ibid_after_one<T: EntryLike, P>(request: &CitationRequest<'_, T, P>) -> bool
    ensures { result ≡ (context_of request.now).style.citation.ibid_after_one }
{
    request.style().parts().citation.ibid_after_one
}

/// Whether a cite counts for the one after it, as written: a hidden one does not.
fn counts<T, P>(last: Option<LastCite<'_, T, P>>) -> bool
    ensures { IfSome last.entry (λ l. result ≡ not l.item.now.hidden) }
{
    match last {
        Some(last) => !last.item.hidden,
        None => false,
    }
}
