//! What is known of cites before any is printed.

ghost use Rattle.std.specs.Prelude.{◌≡◌, ◌<◌, All, length, map, IfOk};
ghost use Rattle.laws.specs.Results.{Gives};
ghost use Rattle.driver_requests.specs.Errors.{overflow_of};
ghost use Rattle.driver_rounds.specs.OrderAndNumbers.{known_in, known_view};
ghost use Rattle.driver_rounds.specs.Rounding.{AreWithin};
ghost use Rattle.driver_rounds.specs.Views.{document_view};

use crate::cite::NumberedCite;
use crate::numbered::numbered;
use driver_requests::{
    BibliographyRequest, CitationRequest, Cited, DriverError, cites, numbers, ordered,
};
use rendering_entries::EntryLike;
use std::alloc::Global;
use std::hash::Hash;

/// How many entries are cited, their order, and the cites of each request with their numbers.
#[derive(Drop)]
pub struct OrderAndNumbers {
    pub count: usize,
    pub order: Vec<usize>,
    pub runs: Vec<Vec<NumberedCite<'static>>>,
}

/// What is known of the cites of requests. Equal entries are one.
///
/// # Errors
/// `Overflow` where a number, as it is printed, is above 2147483647; `Memory` where a request for memory was refused.
pub fn known_of<'r, T: EntryLike + Hash, P: PartialEq>(
    alloc: Global,
    requests: &'r [CitationRequest<'r, T, P>],
    offset: usize,
    request: &BibliographyRequest<'r, T>,
) -> Result<OrderAndNumbers, DriverError>
    ensures known { Gives overflow_of (known_view T.answers requests.now) result
        (known_in P.eq (document_view T.eq T.answers requests.now offset request.now)) }
    ensures runs { IfOk result (λ k. map (λ v. length v.items) k.runs.items
        ≡ map (λ r. length r.items.items) requests.now) }
    ensures within { IfOk result (λ k. AreWithin k.count k.runs.items) }
    ensures length { IfOk result (λ k. length k.order.items ≡ k.count) }
    ensures order { IfOk result (λ k. All (λ p. p < k.count) k.order.items) }
{
    let cited = Cited::new(alloc, requests)?;
    let count = cited.entries().len();
    let wanted = cited.indices(alloc, request.order())?;
    let order = ordered(alloc, request.style, &wanted, count)?;
    let numbers = numbers(alloc, offset, &order)?;
    let indices = cited.runs();
    let facts = cites(alloc, requests, indices, count)?;
    let runs = numbered(alloc, requests, indices, &facts, &numbers)?;
    Ok(OrderAndNumbers { count, order, runs })
}
