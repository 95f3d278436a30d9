//! What is known of cites from their indices.

ghost use Rattle.std.specs.Prelude.{◌≡◌, ◌<◌, ℕ, List, All, length, map, IfOk, OnOk};
ghost use Rattle.rendering_entries.specs.Answers.{Answers};
ghost use Rattle.driver_requests.specs.Cites.{cites_of};
ghost use Rattle.driver_requests.specs.Notes.{facts_of, note_view, notes_view};
ghost use Rattle.driver_requests.specs.Indices.{runs};
ghost use Rattle.driver_requests.specs.History.{facts_after, facts_in, facts_of_all, after_request};
ghost use Rattle.driver_requests.specs.HistoryViews.{facts_by_request_view, facts_view, history_at};
ghost use Rattle.driver_requests.specs.Views.{entries_of, request_view};

use crate::history::{CiteFacts, History, RequestNote, UNCITED, facts_in};
use crate::request::CitationRequest;
use std::alloc::{AllocError, Global};

/// What is known from their indices of the cites of requests, whose items' entries have these indices among so many. The cost grows
/// with the items and the entries.
///
/// # Errors
/// Out of memory.
pub fn cites<'a, T, P>(
    alloc: Global,
    requests: &[CitationRequest<'a, T, P>],
    indices: &[Vec<usize>],
    count: usize,
) -> Result<Vec<Vec<CiteFacts>>, AllocError>
    requires runs { length indices.now ≡ length requests.now }
    requires within { All (All (λ p. p < count)) (runs indices.now) }
    ensures facts { IfOk result (λ c. facts_by_request_view c.items
        ≡ facts_of_all (notes_view requests.now (runs indices.now))) }
    ensures cites { IfOk result (λ c. (index : T → ℕ) (answers : T → Answers) → runs indices.now
        ≡ map (λ r. map index (entries_of r)) requests.now → facts_by_request_view c.items
        ≡ map (map facts_of) (cites_of (map (request_view index answers) requests.now))) }
{
    let mut histories = vec![in alloc; UNCITED; count]?;
    facts_of_each(alloc, &mut histories, requests, indices)
}

/// What is known of the cites of requests, whose items' entries have these indices, from how entries stand before them.
fn facts_of_each<'a, T, P>(
    alloc: Global,
    histories: &mut [History],
    requests: &[CitationRequest<'a, T, P>],
    indices: &[Vec<usize>],
) -> Result<Vec<Vec<CiteFacts>>, AllocError>
    requires runs { length indices.now ≡ length requests.now }
    requires within { All (All (λ p. p < length histories.old)) (runs indices.now) }
    ensures { IfOk result (λ c. facts_by_request_view c.items
        ≡ facts_after 0 (history_at histories.old) (notes_view requests.now (runs indices.now))) }
{
    let mut facts = Vec::with_capacity(alloc, requests.len())?;
    for (index, request) in requests.iter().enumerate() {
        let run = facts_of(alloc, histories, request, index, indices[index].as_slice())?;
        facts.push(run)?;
    }
    Ok(facts)
}

/// What is known of the cites of a request at an index among them all, and how entries stand after it.
fn facts_of<'a, T, P>(
    alloc: Global,
    histories: &mut [History],
    request: &CitationRequest<'a, T, P>,
    index: usize,
    indices: &[usize],
) -> Result<Vec<CiteFacts>, AllocError>
    requires { All (λ p. p < length histories.old) indices.now }
    ensures facts { IfOk result (λ f. map facts_view f.items
        ≡ facts_in index (note_view request.now indices.now) (history_at histories.old)) }
    ensures after_request { OnOk result ((q : ℕ) → history_at histories.new q
        ≡ after_request index (note_view request.now indices.now) q (history_at histories.old q)) }
{
    let note = RequestNote {
        index,
        number: request.note_number(),
        distance: request.style().parts().citation.near_note_distance as usize,
    };
    facts_in(alloc, histories, indices, note)
}
