//! First prints of cites, undisambiguated.

ghost use Rattle.std.specs.Prelude.{◌≡◌, ◌+◌, ◌≤◌, ◌++◌, ◌∷◌, [], length, map, IfOk, OnOk};
ghost use Rattle.std.specs.Option.{option_map};
ghost use Rattle.laws.specs.Counts.{next_count};
ghost use Rattle.rendering_context.specs.Views.{lent_names};
ghost use Rattle.rendering_people.specs.Properties.{raised_to};
ghost use Rattle.rendering.specs.Views.{style_context_view};
ghost use Rattle.rendering_style.specs.Views.{citation_layout_view};
ghost use Rattle.driver_names.specs.Views.{printed_view};
ghost use Rattle.driver_rounds.specs.CitesInStep.{AreInStep, IsInStep, all_cites, cites_count, request_cites, styled_view};
ghost use Rattle.driver_rounds.specs.FirstPrints.{printed_undisambiguated, repeats_by};
ghost use Rattle.driver_rounds.specs.Views.{usage_of};

use crate::cite::{StyledCite, has_suffix_date, printed_by};
use crate::document_cites::{DocumentCites, RequestCites};
use driver_disambiguation::{Candidate, Printed};
use rendering::Effort;
use rendering_context::{DisambiguateState, is_ibid};
use rendering_entries::EntryLike;
use rendering_people::NameDisambiguationProperties;
use rendering_style::Citation;
use rendering_taxonomy::{IbidState, IdentifierUsage};
use std::alloc::{AllocError, Global};

/// What cites print undisambiguated, and which identifiers.
#[derive(Drop)]
pub struct FirstPrints {
    pub printed: Vec<Printed>,
    pub usages: Vec<IdentifierUsage>,
}

/// What the cites of requests print undisambiguated.
pub fn first_prints<T: EntryLike, P>(
    alloc: Global,
    cites: DocumentCites<'_, '_, T, P>,
    effort: &mut Effort,
) -> Result<FirstPrints, AllocError>
    requires { AreInStep cites }
    ensures printed { IfOk result (λ f. map printed_view f.printed.items
        ≡ map printed_undisambiguated (all_cites T.answers cites.entry)) }
    ensures usages { IfOk result (λ f. f.usages.items
        ≡ map usage_of (all_cites T.answers cites.entry)) }
    ensures effort { OnOk result (effort.new ≤ effort.old + cites_count T.answers cites.entry) }
{
    let printed = Vec::with_capacity(alloc, cites.requests.len())?;
    let usages = Vec::with_capacity(alloc, cites.requests.len())?;
    let mut prints = FirstPrints { printed, usages };
    for index in 0..cites.requests.len() {
        let own = cites.request(index);
        print_request(alloc, own, &mut prints, effort)?;
    }
    Ok(prints)
}

/// Appends what the cites of a request print undisambiguated.
fn print_request<T: EntryLike, P>(
    alloc: Global,
    cites: RequestCites<'_, '_, T, P>,
    prints: &mut FirstPrints,
    effort: &mut Effort,
) -> Result<(), AllocError>
    requires { IsInStep cites }
    ensures printed { OnOk result (map printed_view prints.new.printed.items
        ≡ map printed_view prints.old.printed.items
        ++ map printed_undisambiguated (request_cites T.answers cites.entry)) }
    ensures usages { OnOk result (prints.new.usages.items
        ≡ prints.old.usages.items ++ map usage_of (request_cites T.answers cites.entry)) }
    ensures effort { OnOk result (effort.new
        ≤ effort.old + length (request_cites T.answers cites.entry)) }
{
    let style = &cites.request.style().parts().citation;
    for (index, item) in cites.request.items.iter().enumerate() {
        let cite = StyledCite {
            item,
            context: cites.context,
            numbered: cites.run[index],
        };
        print_cite(alloc, style, cite, prints, effort)?;
    }
    Ok(())
}

/// Appends what a cite prints undisambiguated.
fn print_cite<T: EntryLike, P>(
    alloc: Global,
    style: &Citation,
    cite: StyledCite<'_, '_, T, P>,
    prints: &mut FirstPrints,
    effort: &mut Effort,
) -> Result<(), AllocError>
    requires { citation_layout_view style.now
        ≡ (style_context_view cite.context.now).style.citation }
    ensures printed { OnOk result (map printed_view prints.new.printed.items
        ≡ map printed_view prints.old.printed.items
        ++ printed_undisambiguated (styled_view T.answers cite.entry) ∷ []) }
    ensures usages { OnOk result (prints.new.usages.items
        ≡ prints.old.usages.items ++ usage_of (styled_view T.answers cite.entry) ∷ []) }
    ensures effort { effort.new ≡ next_count effort.old }
{
    let (printed, usage) = print_first(alloc, style, cite, effort)?;
    prints.printed.push(printed)?;
    prints.usages.push(usage)?;
    Ok(())
}

/// What a cite prints undisambiguated.
fn print_first<T: EntryLike, P>(
    alloc: Global,
    style: &Citation,
    cite: StyledCite<'_, '_, T, P>,
    effort: &mut Effort,
) -> Result<(Printed, IdentifierUsage), AllocError>
    requires { citation_layout_view style.now
        ≡ (style_context_view cite.context.now).style.citation }
    ensures printed { IfOk result (λ p. printed_view p.0
        ≡ printed_undisambiguated (styled_view T.answers cite.entry)) }
    ensures usage { IfOk result (λ p. p.1 ≡ usage_of (styled_view T.answers cite.entry)) }
    ensures effort { effort.new ≡ next_count effort.old }
{
    let first = printed_by(cite, DisambiguateState::None, effort)?;
    let usage = first.identifier_usage;
    let names = names_with_first(alloc, first.names, cite.numbered.first_names)?;
    let candidate = Candidate::new(
        cite.numbered.entry,
        cite.numbered.number,
        has_suffix_date(cite.item.entry),
        style,
        repeats(style, cite.numbered.ibid),
        first.met_disambiguate,
        names,
    );
    let printed = Printed::new(alloc, candidate, DisambiguateState::None, first.tree)?;
    Ok((printed, usage))
}

/// What a cite printed of names, with its first names, where there are some.
fn names_with_first(
    alloc: Global,
    names: Option<NameDisambiguationProperties>,
    first: Option<&NameDisambiguationProperties>,
) -> Result<Option<NameDisambiguationProperties>, AllocError>
    ensures { IfOk result (λ n. n ≡ option_map (raised_to (lent_names first.entry)) names) }
{
    match first {
        Some(first) => {
            let raised = raised_names(alloc, names, first)?;
            Ok(raised)
        }
        None => Ok(names),
    }
}

/// What a cite printed of names, raised to others.
fn raised_names(
    alloc: Global,
    names: Option<NameDisambiguationProperties>,
    others: &NameDisambiguationProperties,
) -> Result<Option<NameDisambiguationProperties>, AllocError>
    ensures { IfOk result (λ n. n ≡ option_map (raised_to others.now) names) }
{
    match names {
        Some(names) => Ok(Some(names.raised_to(alloc, others)?)),
        None => Ok(None),
    }
}

/// Whether a cite repeats the one before it, in a style that lets such cites be alike to none.
fn repeats(style: &Citation, ibid: IbidState) -> bool
    ensures { result ≡ repeats_by (citation_layout_view style.now) ibid }
{
    is_ibid(ibid) && style.ibid_after_one
}
