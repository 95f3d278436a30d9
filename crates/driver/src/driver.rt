//! From requests to citations and a bibliography.

ghost use Rattle.std.specs.Prelude.{◌≡◌, ◌+◌, ◌<◌, ◌≤◌, ◌++◌, ◌∷◌, [], ℕ, All, length, map, replicate, None, IfOk, OnErr, OnOk};
ghost use Rattle.std.specs.Option.{option_map};
ghost use Rattle.laws.specs.Results.{Gives, GivesBack};
ghost use Rattle.driver_disambiguation.specs.CitesViews.{printed_cites_view};
ghost use Rattle.driver_requests.specs.Errors.{overflow_of};
ghost use Rattle.driver_rounds.specs.CitesInStep.{cites_count, requests_by};
ghost use Rattle.rendering_entries.specs.Answers.{Answers};
ghost use Rattle.driver.specs.Alike.{AreAlikeIn, document_with};
ghost use Rattle.driver.specs.Finish.{effort_bound, finish, keys_in};
ghost use Rattle.driver.specs.Listing.{items_at_most, keys_made, rendered_of};
ghost use Rattle.driver.specs.Printing.{ArePrinted, document_citations, document_finals, document_listed, entries_listed};
ghost use Rattle.driver.specs.RenderedViews.{rendered_citation_view, keys_view, rendered_view};
ghost use Rattle.driver_rounds.specs.Rounding.{round_states_view};
ghost use Rattle.driver_rounds.specs.Views.{bibliography_context_of, document_view};

use crate::bibliography_items::bibliography;
use crate::contexts::contexts;
use crate::final_prints::{ListedCite, citations};
use crate::final_states::FinalStates;
use crate::rendered::{Rendered, RenderedCitation};
use driver_disambiguation::suffixes;
use driver_requests::{BibliographyRequest, CitationRequest, DriverError};
use driver_rounds::{
    DocumentCites, FirstPrints, RoundStates, disambiguated, first_prints, first_states, known_of,
    lent, named_runs,
};
use rendering::Effort;
use rendering_context::DisambiguateState;
use rendering_entries::EntryLike;
use rendering_taxonomy::IdentifierUsage;
use std::alloc::{AllocError, Global};
use std::fmt;
use std::hash::Hash;

/// The citations of requests, and what a bibliography lists entries by: the first cite of each, and the states of all.
#[derive(Drop)]
struct FinalCitations<'r, 'c, T> {
    citations: Vec<RenderedCitation>,
    listed: Vec<Option<ListedCite<'r, 'c, T>>>,
    states: Vec<DisambiguateState>,
}

/// Requests in the order of the text, from which citations and a bibliography are made.
///
/// Entries are of a type `T` and borrowed by the requests; `P` is the type of locators that the caller prints by itself.
pub struct BibliographyDriver<'a, T, P: Drop> {
    alloc: Global,
    citations: Vec<CitationRequest<'a, T, P>>,
    offset: usize,
}

impl<'a, T, P: Drop> Drop for BibliographyDriver<'a, T, P> {
    fn drop(self) {
        let BibliographyDriver {
            alloc: _,
            citations: _,
            offset: _,
        } = self;
    }
}

/// Written with the number of requests and the offset alone.
impl<'a, T, P: Drop> fmt::Debug for BibliographyDriver<'a, T, P> {
    fn fmt<W: fmt::Write>(&self, f: &mut fmt::Formatter<W>) -> fmt::Result {
        let count = self.citations.len();
        write!(
            f,
            "BibliographyDriver {{ citations: {count}, offset: {} }}",
            self.offset
        )
    }
}

impl<'a, T, P: Drop> BibliographyDriver<'a, T, P> {
    /// A driver without requests, which numbers entries from one on. It takes memory from the given allocator.
    pub fn new(alloc: Global) -> BibliographyDriver<'a, T, P>
        ensures requests { result.citations.items ≡ [] }
        ensures offset { result.offset ≡ 0 }
    {
        BibliographyDriver::from_citations(alloc, Vec::new(alloc))
    }

    /// A driver with these requests, which numbers entries from one on. It takes memory from the given allocator.
    pub fn from_citations(
        alloc: Global,
        citations: Vec<CitationRequest<'a, T, P>>,
    ) -> BibliographyDriver<'a, T, P>
        ensures requests { result.citations.items ≡ citations.entry.items }
        ensures offset { result.offset ≡ 0 }
    {
        BibliographyDriver {
            alloc,
            citations,
            offset: 0,
        }
    }

    /// The same driver with this offset added to the number of each entry. It replaces an offset that was set before.
    pub fn with_citation_number_offset(self, offset: usize) -> BibliographyDriver<'a, T, P>
        ensures requests { result.citations.items ≡ self.entry.citations.items }
        ensures offset { result.offset ≡ offset }
    {
        let BibliographyDriver {
            alloc,
            citations,
            offset: _,
        } = self;
        BibliographyDriver {
            alloc,
            citations,
            offset,
        }
    }

    /// Adds a request, whose cites come after those of the requests that were added before. Each request is printed in its own style.
    /// Without memory for it the driver is as it was.
    ///
    /// # Errors
    /// Out of memory.
    pub fn citation(&mut self, request: CitationRequest<'a, T, P>) -> Result<(), AllocError>
        ensures ok { OnOk result (self.new.citations.items
            ≡ self.old.citations.items ++ request.entry ∷ []) }
        ensures err { OnErr result (self.new.citations.items ≡ self.old.citations.items) }
        ensures offset { self.new.offset ≡ self.old.offset }
    {
        self.citations.push(request)?;
        Ok(())
    }
}

impl<'a, T: EntryLike + Hash, P: PartialEq + Drop> BibliographyDriver<'a, T, P> {
    /// Citations and bibliography of all requests.
    ///
    /// Equal entries are one. They are numbered in the order of the bibliography: where its style has one, the entries that its request
    /// wants first, so far as they are cited, then the others by their first cites. Hidden items are counted and numbered. Cites of
    /// different entries that print alike are disambiguated by more of their names, by other branches of a style or by the suffix after the
    /// year, as the styles say.
    ///
    /// # Errors
    /// `Overflow` where the offset and the number of cited entries are together above 2147483647, or where more than 256 entries that
    /// print alike need year suffixes; `Memory` where a request for memory was refused.
    pub fn finish(self, request: BibliographyRequest<'a, T>) -> Result<Rendered, DriverError>
        ensures rendered { Gives overflow_of rendered_view result (finish P.eq (document_view
            T.eq T.answers self.entry.citations.items self.entry.offset request.entry)) }
        ensures keys { IfOk result (λ r. option_map keys_view r.bibliography ≡ option_map
            (λ s. keys_in (document_view T.eq T.answers self.entry.citations.items self.entry.offset
            request.entry)) (bibliography_context_of request.entry).style.bibliography) }
        ensures alike { (others : ℕ → Answers) → AreAlikeIn (document_view T.eq T.answers
            self.entry.citations.items self.entry.offset request.entry) others
            → Gives overflow_of rendered_view result (finish P.eq (document_with others
            (document_view T.eq T.answers self.entry.citations.items self.entry.offset
            request.entry))) }
        ensures effort { IfOk result (λ r. r.effort ≤ effort_bound (document_view T.eq
            T.answers self.entry.citations.items self.entry.offset request.entry)) }
    {
        let BibliographyDriver {
            alloc,
            citations,
            offset,
        } = self;
        finish_requests(alloc, citations.as_slice(), offset, &request)
    }
}

fn finish_requests<'r, T: EntryLike + Hash, P: PartialEq>(
    alloc: Global,
    requests: &'r [CitationRequest<'r, T, P>],
    offset: usize,
    request: &BibliographyRequest<'r, T>,
) -> Result<Rendered, DriverError>
    ensures rendered { Gives overflow_of rendered_view result
        (finish P.eq (document_view T.eq T.answers requests.now offset request.now)) }
    ensures keys { IfOk result (λ r. option_map keys_view r.bibliography
        ≡ option_map (λ s. keys_in (document_view T.eq T.answers requests.now offset request.now))
        (bibliography_context_of request.now).style.bibliography) }
    ensures effort { IfOk result (λ r. r.effort
        ≤ effort_bound (document_view T.eq T.answers requests.now offset request.now)) }
{
    let known = known_of(alloc, requests, offset, request)?;
    let contexts = contexts(alloc, requests)?;
    let numbered = DocumentCites {
        requests,
        contexts: &contexts,
        runs: &known.runs,
    };
    let mut effort = Effort::default();
    let states = first_states(alloc, numbered, known.count, &mut effort)?;
    let runs = named_runs(alloc, &known.runs, lent(&states))?;
    let cites = DocumentCites {
        runs: &runs,
        ..numbered
    };
    let first = first_prints(alloc, cites, &mut effort)?;
    let FirstPrints { printed, usages } = first;
    let entry_states = disambiguated(alloc, cites, printed, known.count, &mut effort)?;
    render(
        alloc,
        cites,
        request,
        &known.order,
        &usages,
        entry_states,
        &mut effort,
    )
}

/// Citations and bibliography of requests by the final states. The bibliography is printed once what cites have printed is freed.
fn render<'r, T: EntryLike, P: PartialEq>(
    alloc: Global,
    cites: DocumentCites<'r, '_, T, P>,
    request: &BibliographyRequest<'_, T>,
    order: &[usize],
    usages: &[IdentifierUsage],
    entry_states: RoundStates,
    effort: &mut Effort,
) -> Result<Rendered, DriverError>
    requires printed { ArePrinted T.answers cites entry_states.states.items usages.now
        (printed_cites_view entry_states.printed) }
    requires order { All (λ p. p < length entry_states.states.items) order.now }
    ensures rendered { (index : T → ℕ) → GivesBack overflow_of rendered_view result
        (rendered_of (bibliography_context_of request.now) order.now
        (requests_by index T.answers cites.entry)
        (document_finals P.eq T.answers index (round_states_view entry_states).0 cites.entry)) }
    ensures keys { (index : T → ℕ) → IfOk result (λ r. option_map keys_view r.bibliography
        ≡ keys_made (bibliography_context_of request.now) order.now
        (document_finals P.eq T.answers index (round_states_view entry_states).0 cites.entry)) }
    ensures effort { IfOk result (λ r. r.effort ≤ effort.old + cites_count T.answers cites.entry
        + items_at_most (bibliography_context_of request.now) order.now) }
{
    let FinalCitations {
        citations,
        listed,
        states,
    } = final_citations(alloc, cites, usages, entry_states, effort)?;
    let bibliography = bibliography(alloc, request, order, &states, &listed, effort)?;
    Ok(Rendered {
        bibliography,
        citations,
        effort: effort.count(),
    })
}

/// The citations of requests by the final states, and what a bibliography lists entries by. What cites have printed goes into the
/// citations.
fn final_citations<'r, 'c, T: EntryLike, P: PartialEq>(
    alloc: Global,
    cites: DocumentCites<'r, 'c, T, P>,
    usages: &[IdentifierUsage],
    entry_states: RoundStates,
    effort: &mut Effort,
) -> Result<FinalCitations<'r, 'c, T>, AllocError>
    requires { ArePrinted T.answers cites entry_states.states.items usages.now
        (printed_cites_view entry_states.printed) }
    ensures citations { (index : T → ℕ)
        → IfOk result (λ c. map rendered_citation_view c.citations.items
        ≡ document_citations P.eq T.answers index (round_states_view entry_states).0 cites.entry) }
    ensures listed { (index : T → ℕ) → IfOk result (λ c.
        entries_listed T.answers c.states.items c.listed.items
        ≡ document_listed P.eq T.answers index (round_states_view entry_states).0
        (length entry_states.states.items) cites.entry) }
    ensures states { IfOk result (λ c. c.states.items ≡ entry_states.states.items) }
    ensures effort { OnOk result (effort.new ≤ effort.old + cites_count T.answers cites.entry) }
{
    let RoundStates {
        states,
        given,
        printed,
    } = entry_states;
    let year_suffixes = suffixes(alloc, &states, &given)?;
    let mut listed = unlisted(alloc, states.len())?;
    let finals = FinalStates {
        states: &states,
        given: &given,
        year_suffixes: &year_suffixes,
    };
    let printed = printed.into_cites();
    let citations = citations(alloc, cites, usages, finals, printed, &mut listed, effort)?;
    Ok(FinalCitations {
        citations,
        listed,
        states,
    })
}

/// For each entry that it is not listed by a cite yet.
fn unlisted<'r, 'c, T>(
    alloc: Global,
    count: usize,
) -> Result<Vec<Option<ListedCite<'r, 'c, T>>>, AllocError>
    ensures { IfOk result (λ v. v.items ≡ replicate count None) }
{
    let mut listed = Vec::with_capacity(alloc, count)?;
    for _ in 0..count {
        listed.push(None)?;
    }
    Ok(listed)
}
