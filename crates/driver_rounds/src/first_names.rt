//! Names that are printed before cites are compared.

ghost use Rattle.std.specs.Prelude.{◌≡◌, ◌+◌, ◌≤◌, ◌∷◌, List, Some, map, IfOk, OnOk};
ghost use Rattle.std.specs.Option.{option_map};
ghost use Rattle.rendering_style.specs.Views.{citation_layout_view};
ghost use Rattle.rendering_context.specs.Cites.{names_of};
ghost use Rattle.rendering_context.specs.Views.{lent_names, state_view};
ghost use Rattle.driver_disambiguation.specs.States.{state_of};
ghost use Rattle.driver_disambiguation.specs.Rounds.{names_given};
ghost use Rattle.driver_names.specs.Views.{given_states_view};
ghost use Rattle.driver_requests.specs.Views.{request_view};
ghost use Rattle.driver_requests.specs.declared.request.CitationRequest.{CitationRequest};
ghost use Rattle.driver_rounds.specs.CitesInStep.{AreInStep, all_cites, cites_count, requests_by};
ghost use Rattle.driver_rounds.specs.FirstPrints as first;
ghost use Rattle.driver_rounds.specs.Naming.{calls_where, first_effort, seen, seen_under, states_by};

use crate::cite::NumberedCite;
use crate::document_cites::DocumentCites;
use crate::first_printing::{FirstPrints, first_prints};
use crate::rounds::undisambiguated_states;
use driver_disambiguation::{GivenState, PrintedCites, update_states};
use driver_names::first_names;
use driver_requests::CitationRequest;
use rendering::Effort;
use rendering_context::DisambiguateState;
use rendering_entries::EntryLike;
use rendering_people::NameDisambiguationProperties;
use rendering_style::Citation;
use rendering_taxonomy::DisambiguationRule;
use std::alloc::{AllocError, Global};

/// The states of so many entries by the names that are printed before cites are compared, where the style of the first request asks for
/// that.
///
/// # Errors
/// Out of memory.
pub fn first_states<T: EntryLike, P>(
    alloc: Global,
    cites: DocumentCites<'_, '_, T, P>,
    entries: usize,
    effort: &mut Effort,
) -> Result<Option<Vec<DisambiguateState>>, AllocError>
    requires { AreInStep cites }
    ensures states { IfOk result (λ s. option_map (λ v. map state_view v.items) s
        ≡ first.first_states (first.first_naming (requests_by (λ e. 0) T.answers cites.entry))
        entries (all_cites T.answers cites.entry)) }
    ensures effort { OnOk result (effort.new ≤ effort.old + first_effort
        (first.first_naming (requests_by (λ e. 0) T.answers cites.entry))
        (cites_count T.answers cites.entry)) }
{
    let naming = first_naming(cites.requests);
    let states = states_by_naming(alloc, naming.0, naming.1, cites, entries, effort)?;
    Ok(states)
}

/// The states of so many entries by a rule that prints names before cites are compared, and by what names give to alike cites, where that
/// stays.
fn states_by_naming<T: EntryLike, P>(
    alloc: Global,
    rule: Option<DisambiguationRule>,
    kept: Option<bool>,
    cites: DocumentCites<'_, '_, T, P>,
    entries: usize,
    effort: &mut Effort,
) -> Result<Option<Vec<DisambiguateState>>, AllocError>
    requires { AreInStep cites }
    ensures states { IfOk result (λ s. option_map (λ v. map state_view v.items) s
        ≡ first.states_by_naming kept rule entries (all_cites T.answers cites.entry)) }
    ensures effort { OnOk result (effort.new ≤ effort.old
        + (calls_where rule (cites_count T.answers cites.entry)
        + calls_where kept (cites_count T.answers cites.entry))) }
{
    match kept {
        Some(adds_names) => Ok(Some(kept_states(alloc, rule, adds_names, cites, entries, effort)?)),
        None => {
            let states = ruled_states(alloc, rule, cites, entries, effort)?;
            Ok(states)
        }
    }
}

/// The states of so many entries by what names give to cites that print alike with names by a rule.
fn kept_states<T: EntryLike, P>(
    alloc: Global,
    rule: Option<DisambiguationRule>,
    adds_names: bool,
    cites: DocumentCites<'_, '_, T, P>,
    entries: usize,
    effort: &mut Effort,
) -> Result<Vec<DisambiguateState>, AllocError>
    requires { AreInStep cites }
    ensures states { IfOk result (λ v. Some (map state_view v.items)
        ≡ first.states_by_naming (Some adds_names) rule entries
        (all_cites T.answers cites.entry)) }
    ensures effort { OnOk result (effort.new ≤ effort.old
        + (calls_where rule (cites_count T.answers cites.entry)
        + cites_count T.answers cites.entry)) }
{
    let named = ruled_states(alloc, rule, cites, entries, effort)?;
    let given = names_given(alloc, adds_names, cites, lent(&named), effort)?;
    let mut states = states_or(alloc, named, entries)?;
    let _is_given = update_states(alloc, &mut states, &given)?;
    Ok(states)
}

/// What names give to cites that print alike with first names by states.
fn names_given<T: EntryLike, P>(
    alloc: Global,
    adds_names: bool,
    cites: DocumentCites<'_, '_, T, P>,
    states: Option<&[DisambiguateState]>,
    effort: &mut Effort,
) -> Result<Vec<GivenState>, AllocError>
    requires { AreInStep cites }
    ensures given { IfOk result (λ g. given_states_view g.items ≡ names_given adds_names
        (first.printed_with (states_by states.entry) (all_cites T.answers cites.entry))) }
    ensures effort { OnOk result (effort.new ≤ effort.old + cites_count T.answers cites.entry) }
{
    let runs = named_runs(alloc, cites.runs, states)?;
    let named = DocumentCites {
        runs: &runs,
        ..cites
    };
    let prints = first_prints(alloc, named, effort)?;
    let FirstPrints { printed, usages: _ } = prints;
    let compared = PrintedCites::new(alloc, printed)?;
    let given = compared.names_given(alloc, adds_names)?;
    Ok(given)
}

/// The states of so many entries; where there are none yet, they are not disambiguated.
fn states_or(
    alloc: Global,
    states: Option<Vec<DisambiguateState>>,
    entries: usize,
) -> Result<Vec<DisambiguateState>, AllocError>
    ensures { IfOk result (λ v. map state_view v.items
        ≡ first.states_or entries (option_map (λ v. map state_view v.items) states)) }
{
    match states {
        Some(states) => Ok(states),
        None => {
            let fresh = undisambiguated_states(alloc, entries)?;
            Ok(fresh)
        }
    }
}

/// The states of entries, where there are some.
pub fn lent(states: &Option<Vec<DisambiguateState>>) -> Option<&[DisambiguateState]>
    ensures { option_map (λ s. s.now) result ≡ option_map (λ v. v.items) states.now }
{
    match states {
        Some(states) => Some(states.as_slice()),
        None => None,
    }
}

/// The states of so many entries by the names that a rule prints before cites are compared, where there is one.
fn ruled_states<T: EntryLike, P>(
    alloc: Global,
    rule: Option<DisambiguationRule>,
    cites: DocumentCites<'_, '_, T, P>,
    entries: usize,
    effort: &mut Effort,
) -> Result<Option<Vec<DisambiguateState>>, AllocError>
    requires { AreInStep cites }
    ensures states { IfOk result (λ s. option_map (λ v. map state_view v.items) s
        ≡ first.ruled_states rule entries (all_cites T.answers cites.entry)) }
    ensures effort { OnOk result (effort.new ≤ effort.old
        + calls_where rule (cites_count T.answers cites.entry)) }
{
    match rule {
        Some(rule) => Ok(Some(states_by(alloc, rule, cites, entries, effort)?)),
        None => Ok(None),
    }
}

/// The states of so many entries by the names that a rule prints before cites are compared.
fn states_by<T: EntryLike, P>(
    alloc: Global,
    rule: DisambiguationRule,
    cites: DocumentCites<'_, '_, T, P>,
    entries: usize,
    effort: &mut Effort,
) -> Result<Vec<DisambiguateState>, AllocError>
    requires { AreInStep cites }
    ensures states { IfOk result (λ v. Some (map state_view v.items)
        ≡ first.ruled_states (Some rule) entries (all_cites T.answers cites.entry)) }
    ensures effort { OnOk result (effort.new ≤ effort.old + cites_count T.answers cites.entry) }
{
    let prints = first_prints(alloc, cites, effort)?;
    let FirstPrints { printed, usages: _ } = prints;
    let given = first_names(alloc, rule, printed.as_slice())?;
    let mut states = undisambiguated_states(alloc, entries)?;
    let _is_given = update_states(alloc, &mut states, &given)?;
    Ok(states)
}

/// How names are printed before cites are compared, as the style of the first request says: the rule by which given names are, and whether
/// more people are shown in alike cites.
fn first_naming<T: EntryLike, P>(
    requests: &[CitationRequest<'_, T, P>],
) -> (Option<DisambiguationRule>, Option<bool>)
    ensures { result ≡ first.first_naming (map (request_view (λ e. 0) T.answers) requests.now) }
{
    match requests.first() {
        Some(request) => naming_of(request),
        None => (None, None),
    }
}

/// How the style of a request prints names before cites are compared.
fn naming_of<T: EntryLike, P>(
    request: &CitationRequest<'_, T, P>,
) -> (Option<DisambiguationRule>, Option<bool>)
    ensures { (rs : List (CitationRequest T P)) → result
        ≡ first.first_naming (map (request_view (λ e. 0) T.answers) (request.now ∷ rs)) }
{
    let citation = &request.style().parts().citation;
    (rule_in(citation), kept_in(citation))
}

/// The rule by which a style prints given names first, where it says so.
fn rule_in(citation: &Citation) -> Option<DisambiguationRule>
    ensures { result ≡ first.rule_in (citation_layout_view citation.now) }
{
    if citation.raises_names_first {
        Some(citation.givenname_rule)
    } else {
        None
    }
}

/// Whether a style shows more people in alike cites, where that stays.
fn kept_in(citation: &Citation) -> Option<bool>
    ensures { result ≡ first.kept_in (citation_layout_view citation.now) }
{
    if keeps_names(citation) {
        Some(citation.add_names)
    } else {
        None
    }
}

/// Whether what names give to alike cites stays.
fn keeps_names(citation: &Citation) -> bool
    ensures { result ≡ first.keeps_names (citation_layout_view citation.now) }
{
    citation.same_entry_is_no_rival && (citation.add_names || citation.add_givenname)
}

/// The cites of requests with the first names of their entries, by the states of these; without states as they are.
///
/// # Errors
/// Out of memory.
pub fn named_runs<'s>(
    alloc: Global,
    runs: &[Vec<NumberedCite<'s>>],
    states: Option<&'s [DisambiguateState]>,
) -> Result<Vec<Vec<NumberedCite<'s>>>, AllocError>
    ensures { IfOk result (λ v. map (λ r. map seen r.items) v.items
        ≡ map (λ r. map (seen_under (states_by states.entry)) r.items) runs.now) }
{
    let mut named = Vec::with_capacity(alloc, runs.len())?;
    for run in runs {
        named.push(named_run(alloc, run.as_slice(), states)?)?;
    }
    Ok(named)
}

/// The cites of a request with the first names of their entries.
fn named_run<'s>(
    alloc: Global,
    run: &[NumberedCite<'s>],
    states: Option<&'s [DisambiguateState]>,
) -> Result<Vec<NumberedCite<'s>>, AllocError>
    ensures { IfOk result (λ v. map seen v.items
        ≡ map (seen_under (states_by states.entry)) run.now) }
{
    let mut named = Vec::with_capacity(alloc, run.len())?;
    for cite in run {
        named.push(named_cite(*cite, states))?;
    }
    Ok(named)
}

/// A cite with the first names of its entry, where there are states.
fn named_cite<'s>(
    cite: NumberedCite<'s>,
    states: Option<&'s [DisambiguateState]>,
) -> NumberedCite<'s>
    ensures { seen result ≡ seen_under (states_by states.entry) cite.entry }
{
    match states {
        Some(states) => NumberedCite {
            first_names: names_at(states, cite.entry),
            ..cite
        },
        None => cite,
    }
}

/// How much of names the state of the entry at an index prints, where there is one of names.
fn names_at(states: &[DisambiguateState], entry: usize) -> Option<&NameDisambiguationProperties>
    ensures { lent_names result ≡ names_of (state_of (map state_view states.now) entry) }
{
    match states.get(entry) {
        Some(state) => names_of(state),
        None => None,
    }
}

/// How much of names a state prints, where it is one of names.
fn names_of(state: &DisambiguateState) -> Option<&NameDisambiguationProperties>
    ensures { lent_names result ≡ names_of (state_view state.now) }
{
    match state {
        DisambiguateState::NameDisambiguation(names) => Some(names),
        _ => None,
    }
}
