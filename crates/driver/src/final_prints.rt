//! Last prints of cites, and citations from them.

ghost use Rattle.std.specs.Prelude.{◌≡◌, ℕ, ◌+◌, ◌<◌, ◌≤◌, ◌++◌, [], All, None, fold, length, map, replicate, is_some, true, IfOk, OnOk};
ghost use Rattle.std.specs.Option.{option_map};
ghost use Rattle.rendering_style.specs.Styles as styles;
ghost use Rattle.rendering_style.specs.Views.{citation_layout_view};
ghost use Rattle.rendering_tree.specs.Metas as metas;
ghost use Rattle.rendering_tree.specs.Trees.{element_with};
ghost use Rattle.rendering_tree.specs.Views.{tree_view};
ghost use Rattle.driver_blocks.specs.Collapsing.{arranged};
ghost use Rattle.driver_blocks.specs.Views.{arranged_view, gathered_view};
ghost use Rattle.driver_disambiguation.specs.States.{States};
ghost use Rattle.driver_names.specs.Views.{printed_view};
ghost use Rattle.driver_requests.specs.SuffixViews.{suffix_view};
ghost use Rattle.driver_requests.specs.Views.{request_view};
ghost use Rattle.driver_rounds.specs.CitesInStep.{cites_count};
ghost use Rattle.driver.specs.FinalPrints.{all_gathered, gathered_from, last_arranged, last_cite_view, listed_as, listed_view, final_listed_view, listed_with, nameless, placed_with};
ghost use Rattle.driver.specs.Finish as finish;
ghost use Rattle.driver.specs.Finish.{citation_in};
ghost use Rattle.driver_citations.specs.Joining.{shown_view};
ghost use Rattle.driver.specs.Printing.{AreIndices, ArePrinted, BelongTogether, HasPrinted, arranged_among, document_citations, document_listed, entries_listed, states_view, placed_so_far, printing_final, printing_gathered, printing_prints, request_arranged, request_finals, request_prints, final_states_view};
ghost use Rattle.driver.specs.RenderedViews.{rendered_citation_view};
ghost use Rattle.driver_rounds.specs.FirstPrints as first;
ghost use Rattle.driver.specs.Stages as stages;

use crate::final_states::FinalStates;
use crate::rendered::RenderedCitation;
use driver_blocks::{Arranged, Gathered, arrange};
use driver_citations::{ShownCite, citation_of, plain_locator};
use driver_disambiguation::Printed;
use driver_requests::{CitationItem, CitationRequest, LastCite, Suffix, ibid_of};
use driver_rounds::{DocumentCites, NumberedCite, RequestCites};
use rendering::Effort;
use rendering_entries::EntryLike;
use rendering_style::Citation;
use rendering_taxonomy::{CitePurpose, CollapseVerdict, IbidState, IdentifierUsage};
use rendering_tree::{ElemChildren, ElemMeta};
use std::alloc::{AllocError, Global};

/// The first cite of an entry in the final order, by which the bibliography lists it.
#[derive_where(Clone, Copy)]
pub(crate) struct ListedCite<'r, 'c, T> {
    pub(crate) entry: &'r T,
    pub(crate) cite: NumberedCite<'c>,
    pub(crate) ibid: IbidState,
    pub(crate) usage: IdentifierUsage,
}

/// A cite in the final order, with its ibid state there, and which identifiers it printed at first.
#[derive_where(Clone, Copy)]
struct FinalCite<'r, 'c, T, P> {
    item: &'r CitationItem<'r, T, P>,
    cite: NumberedCite<'c>,
    ibid: IbidState,
    usage: IdentifierUsage,
}

/// What the citation of a request is printed from: its cites, which identifiers they printed at first, its style, and the final states of
/// all entries.
#[derive_where(Clone, Copy)]
struct Printing<'r, 'c, 's, T, P> {
    cites: RequestCites<'r, 'c, T, P>,
    usages: &'s [IdentifierUsage],
    style: &'r Citation,
    entry_states: FinalStates<'s>,
}

/// The citations of requests, and of each entry its first cite in the final order. What cites have printed by their final states goes into
/// them.
pub(crate) fn citations<'r, 'c, T: EntryLike, P: PartialEq>(
    alloc: Global,
    cites: DocumentCites<'r, 'c, T, P>,
    usages: &[IdentifierUsage],
    entry_states: FinalStates<'_>,
    mut printed: Vec<Printed>,
    listed: &mut [Option<ListedCite<'r, 'c, T>>],
    effort: &mut Effort,
) -> Result<Vec<RenderedCitation>, AllocError>
    requires printed { ArePrinted T.answers cites entry_states.states.now usages.now
        (map printed_view printed.items) }
    requires unlisted { listed.old ≡ replicate (length entry_states.states.now) None }
    ensures citations { (at : T → ℕ) → IfOk result (λ v. map rendered_citation_view v.items
        ≡ document_citations P.eq T.answers at (final_states_view entry_states.entry) cites.entry) }
    ensures listed { (at : T → ℕ) → OnOk result (
        entries_listed T.answers entry_states.entry.states.now listed.new
        ≡ document_listed P.eq T.answers at (final_states_view entry_states.entry)
        (length entry_states.entry.states.now) cites.entry) }
    ensures effort { OnOk result (effort.new ≤ effort.old + cites_count T.answers cites.entry) }
{
    let mut citations = Vec::with_capacity(alloc, cites.requests.len())?;
    let mut last: Option<LastCite<'r, T, P>> = None;
    let mut left = printed.as_mut_slice();
    let mut usages = usages;
    for index in 0..cites.requests.len() {
        let own = cites.request(index);
        let (own_printed, other_printed) = left.split_at_mut(own.run.len());
        let (own_usages, other_usages) = usages.split_at(own.run.len());
        let printing = Printing {
            cites: own,
            usages: own_usages,
            style: &own.request.style().parts().citation,
            entry_states,
        };
        let citation = request_citation(alloc, printing, own_printed, &mut last, listed, effort)?;
        citations.push(citation)?;
        left = other_printed;
        usages = other_usages;
    }
    Ok(citations)
}

/// The citation of a request. Its cites follow the last one in the final order, and list the entries that they are the first cites of.
fn request_citation<'r, 'c, T: EntryLike, P: PartialEq>(
    alloc: Global,
    printing: Printing<'r, 'c, '_, T, P>,
    printed: &mut [Printed],
    last: &mut Option<LastCite<'r, T, P>>,
    listed: &mut [Option<ListedCite<'r, 'c, T>>],
    effort: &mut Effort,
) -> Result<RenderedCitation, AllocError>
    requires printing { BelongTogether T.answers printing }
    requires printed { map printed_view printed.old ≡ request_prints T.answers printing }
    requires listed { length listed.old ≡ length printing.entry_states.states.now }
    ensures citation { IfOk result (λ c. rendered_citation_view c
        ≡ citation_in (
          request_view (λ e. 0) T.answers printing.entry.cites.request.now,
          request_finals P.eq T.answers (last_cite_view T.answers last.old) printing.entry,
        )) }
    ensures listed { OnOk result (entries_listed T.answers
        printing.entry.entry_states.states.now listed.new ≡ fold listed_with
        (entries_listed T.answers printing.entry.entry_states.states.now listed.old) (map listed_as
        (request_finals P.eq T.answers (last_cite_view T.answers last.old) printing.entry))) }
    ensures last { OnOk result (last_cite_view T.answers last.new
        ≡ last_arranged (last_cite_view T.answers last.old)
        (request_arranged T.answers printing.entry)) }
    ensures effort { OnOk result (effort.new ≤ effort.old + length printing.entry.cites.run.now) }
{
    let request = printing.cites.request;
    let some_purpose = has_purpose(request);
    let arranged = arranged_cites(alloc, printing, some_purpose, printed)?;
    let shown = print_arranged(alloc, printing, printed, &arranged, last, listed, effort)?;
    let quotes = printing.cites.context.joining_quotes();
    let citation = citation_of(alloc, &printing.style.layout, quotes, some_purpose, shown)?;
    Ok(RenderedCitation {
        note_number: request.note_number(),
        citation,
    })
}

/// Whether an item of a request has a purpose.
fn has_purpose<T: EntryLike, P>(request: &CitationRequest<'_, T, P>) -> bool
    ensures { result ≡ stages.has_purpose (request_view (λ e. 0) T.answers request.now) }
{
    request.items.iter().any(|item| item.purpose.is_some())
}

/// The cites of a request as they are arranged, without the names by which they were.
fn arranged_cites<T, P>(
    alloc: Global,
    printing: Printing<'_, '_, '_, T, P>,
    some_purpose: bool,
    printed: &[Printed],
) -> Result<Vec<Arranged<'static>>, AllocError>
    requires run { length printing.cites.run.now ≡ length printing.cites.request.now.items.items }
    requires printed { length printed.now ≡ length printing.cites.request.now.items.items }
    requires within { All (λ n. n.entry < length printing.entry_states.year_suffixes.now)
        printing.cites.run.now }
    ensures { IfOk result (λ v.
        map (arranged_view (citation_layout_view printing.entry.style.now)) v.items
        ≡ map nameless (arranged (citation_layout_view printing.entry.style.now) some_purpose
        (printing_gathered printing.entry (map printed_view printed.now)))) }
{
    let RequestCites { request, run, .. } = printing.cites;
    let gathered = gathered_cites(
        alloc,
        request,
        run,
        printed,
        printing.entry_states.year_suffixes,
    )?;
    let arranged = arrange(alloc, printing.style, some_purpose, &gathered)?;
    without_names(alloc, &arranged)
}

/// Arranged cites without their names.
fn without_names(
    alloc: Global,
    arranged: &[Arranged<'_>],
) -> Result<Vec<Arranged<'static>>, AllocError>
    ensures { (c : styles.Citation) → IfOk result (λ v. map (arranged_view c) v.items
        ≡ map nameless (map (arranged_view c) arranged.now)) }
{
    let mut indices = Vec::with_capacity(alloc, arranged.len())?;
    for cite in arranged {
        indices.push(without_name(cite))?;
    }
    Ok(indices)
}

/// An arranged cite without its names.
fn without_name(cite: &Arranged<'_>) -> Arranged<'static>
    ensures { (c : styles.Citation) → arranged_view c result ≡ nameless (arranged_view c cite.now) }
{
    Arranged {
        cite: Gathered {
            cite: cite.cite.cite,
            names: None,
            number: cite.cite.number,
            is_shown: cite.cite.is_shown,
            has_locator: cite.cite.has_locator,
            suffix: cite.cite.suffix,
        },
        is_shown: cite.is_shown,
        before: cite.before,
        verdict: cite.verdict,
    }
}

/// The cites of a request as they are gathered and collapsed.
fn gathered_cites<'p, T, P>(
    alloc: Global,
    request: &CitationRequest<'_, T, P>,
    run: &[NumberedCite<'_>],
    printed: &'p [Printed],
    year_suffixes: &[Option<Suffix>],
) -> Result<Vec<Gathered<'p>>, AllocError>
    requires run { length run.now ≡ length request.now.items.items }
    requires printed { length printed.now ≡ length request.now.items.items }
    requires within { All (λ n. n.entry < length year_suffixes.now) run.now }
    ensures { IfOk result (λ v. map gathered_view v.items
        ≡ all_gathered (map (option_map suffix_view) year_suffixes.now) 0
        request.now.items.items run.now (map printed_view printed.entry.now)) }
{
    let mut gathered = Vec::with_capacity(alloc, run.len())?;
    for (at, item) in request.items.iter().enumerate() {
        let cite = run[at];
        let tree = printed[at].tree();
        let suffix = year_suffixes[cite.entry];
        gathered.push(gathered_cite(item, at, cite.number, tree, suffix))?;
    }
    Ok(gathered)
}

/// A cite as it is gathered and collapsed, at an index in its request.
fn gathered_cite<'p, T, P>(
    item: &CitationItem<'_, T, P>,
    at: usize,
    number: usize,
    printed: &'p ElemChildren,
    suffix: Option<Suffix>,
) -> Gathered<'p>
    ensures { gathered_view result ≡ gathered_from at number item.now.hidden
        (is_some item.now.locator) (tree_view printed.now) (option_map suffix_view suffix) }
{
    Gathered {
        cite: at,
        names: printed.find_names(),
        number: printed_number(printed, number),
        is_shown: !item.hidden,
        has_locator: item.locator.is_some(),
        suffix,
    }
}

/// The number of a cite, if it prints it.
fn printed_number(parts: &ElemChildren, number: usize) -> Option<usize>
    ensures { result
        ≡ option_map (λ e. number) (element_with metas.CitationNumber (tree_view parts.now)) }
{
    match parts.find_meta(&ElemMeta::CitationNumber) {
        Some(_) => Some(number),
        None => None,
    }
}

/// What the shown cites of a request print, in their final order. All of them follow the last one, and list their entries.
fn print_arranged<'r, 'c, T: EntryLike, P: PartialEq>(
    alloc: Global,
    printing: Printing<'r, 'c, '_, T, P>,
    printed: &mut [Printed],
    arranged: &[Arranged<'_>],
    last: &mut Option<LastCite<'r, T, P>>,
    listed: &mut [Option<ListedCite<'r, 'c, T>>],
    effort: &mut Effort,
) -> Result<Vec<ShownCite<'r>>, AllocError>
    requires printing { BelongTogether T.answers printing }
    requires printed { map printed_view printed.old ≡ printing_prints T.answers printing }
    requires listed { length listed.old ≡ length printing.entry_states.states.now }
    requires indices { AreIndices printing arranged.now }
    ensures placed { IfOk result (λ v.
        placed_so_far T.answers printing.entry v.items listed.new last.new
        ≡ fold (placed_with P.eq (states_view printing.entry.entry_states))
        (placed_so_far T.answers printing.entry [] listed.old last.old)
        (arranged_among T.answers printing.entry arranged.now)) }
    ensures effort { OnOk result (effort.new ≤ effort.old + length arranged.now) }
{
    let after_one = printing.style.ibid_after_one;
    let mut shown = Vec::with_capacity(alloc, arranged.len())?;
    for cite in arranged {
        let at = cite.cite.cite;
        let item = &printing.cites.request.items[at];
        let own = printing.cites.run[at];
        let next = FinalCite {
            item,
            cite: own,
            ibid: ibid_of(*last, true, after_one, own.index, item, own.entry),
            usage: printing.usages[at],
        };
        list(&next, listed);
        let tree = printed[at].take_tree(alloc);
        print_shown(printing, &next, cite, tree, &mut shown, effort)?;
        *last = Some(LastCite {
            item,
            entry: own.entry,
            index: own.index,
        });
    }
    Ok(shown)
}

/// Lists an entry by a cite of it, unless it is listed.
fn list<'r, 'c, T: EntryLike, P>(
    next: &FinalCite<'r, 'c, T, P>,
    listed: &mut [Option<ListedCite<'r, 'c, T>>],
)
    requires { next.now.cite.entry < length listed.old }
    ensures { (states : States) → map (option_map (listed_view T.answers states)) listed.new
        ≡ listed_with (map (option_map (listed_view T.answers states)) listed.old)
        (final_listed_view T.answers states next.now) }
{
    let at = next.cite.entry;
    if listed[at].is_none() {
        listed[at] = Some(ListedCite {
            entry: next.item.entry,
            cite: next.cite,
            ibid: next.ibid,
            usage: next.usage,
        });
    }
}

/// Appends what a cite prints, if it is shown. By its final state and without its locator it has printed this tree, unless nothing is left
/// of that.
fn print_shown<'r, T: EntryLike, P>(
    printing: Printing<'r, '_, '_, T, P>,
    next: &FinalCite<'_, '_, T, P>,
    cite: &Arranged<'_>,
    printed: ElemChildren,
    shown: &mut Vec<ShownCite<'r>>,
    effort: &mut Effort,
) -> Result<(), AllocError>
    requires within { next.now.cite.entry < length printing.entry_states.states.now }
    requires printed { HasPrinted T.answers printing next.now (tree_view printed) }
    ensures shown { OnOk result (map shown_view shown.new.items
        ≡ map shown_view shown.old.items
        ++ finish.shown (printing_final T.answers printing.entry next.now cite.now)) }
    ensures effort { OnOk result (effort.new ≤ effort.old + 1) }
{
    if !cite.is_shown {
        return Ok(());
    }
    let tree = printed_at_last(printing, next, cite, printed, effort)?;
    shown.push(ShownCite {
        delimiter: cite.before.text(printing.style),
        index: next.cite.index,
        tree,
    })?;
    Ok(())
}

/// What a cite prints. By its final state and without its locator it has printed this tree, unless nothing is left of that; it is not
/// printed again where nothing else is asked for.
fn printed_at_last<T: EntryLike, P>(
    printing: Printing<'_, '_, '_, T, P>,
    next: &FinalCite<'_, '_, T, P>,
    cite: &Arranged<'_>,
    printed: ElemChildren,
    effort: &mut Effort,
) -> Result<ElemChildren, AllocError>
    requires within { next.now.cite.entry < length printing.entry_states.states.now }
    requires printed { HasPrinted T.answers printing next.now (tree_view printed) }
    ensures printed { IfOk result (λ t. tree_view t
        ≡ stages.printed_at_last (printing_final T.answers printing.entry next.now cite.now)) }
    ensures effort { OnOk result (effort.new ≤ effort.old + 1) }
{
    if !printed.is_empty() && prints_as_before(next, cite) {
        return Ok(printed);
    }
    let state = printing.entry_states.states[next.cite.entry].clone()?;
    let locator = plain_locator(next.item);
    let properties = next
        .cite
        .properties(state, locator, next.ibid, IdentifierUsage::None);
    let rendering = printing.cites.context.citation(
        next.item.entry,
        &properties,
        None,
        next.item.purpose,
        cite.verdict,
        effort,
    )?;
    Ok(rendering.tree)
}

/// Whether a cite prints what it has printed without its locator: it has none, is not collapsed and no cite for its year, and stands to the
/// cite before it as it does in the text.
fn prints_as_before<T: EntryLike, P>(next: &FinalCite<'_, '_, T, P>, cite: &Arranged<'_>) -> bool
    ensures locator { result ≡ true → next.now.item.now.locator ≡ None }
    ensures verdict { result ≡ true → cite.now.verdict ≡ None }
    ensures purpose { result ≡ true
        → first.purpose_at_first next.now.item.now.purpose ≡ next.now.item.now.purpose }
    ensures ibid { result ≡ true → next.now.ibid ≡ next.now.cite.ibid }
{
    next.item.locator.is_none()
        && cite.verdict.is_none()
        && next.item.purpose != Some(CitePurpose::Year)
        && next.ibid == next.cite.ibid
}
