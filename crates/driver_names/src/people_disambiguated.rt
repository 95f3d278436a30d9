//! Given names that a rule prints before cites are compared.

ghost use Rattle.std.specs.Prelude.{◌≡◌, ◌++◌, List, map, IfOk, OnOk};
ghost use Rattle.std.specs.List.{flat_map};
ghost use Rattle.driver_names.specs.FirstNames as first;
ghost use Rattle.driver_names.specs.FirstNames.{form_first, disambiguated_at, disambiguated_names, disambiguated_state};
ghost use Rattle.driver_names.specs.Names as names_specs;
ghost use Rattle.driver_names.specs.Namesakes.{AreCounts, all_people};
ghost use Rattle.driver_names.specs.NamesViews.{member_view, members_view};
ghost use Rattle.driver_names.specs.Views.{given_states_view, printed_view};
ghost use Rattle.driver_requests.specs.SuffixViews.{origin_view};

use crate::given_state::GivenState;
use crate::names_members::{Member, member_at, push_if_more};
use crate::names_people::CitedPerson;
use crate::namesakes::NameCounts;
use crate::printed::Printed;
use driver_requests::Origin;
use rendering_people::NameDisambiguationProperties;
use rendering_taxonomy::{DisambiguatedNameForm, DisambiguationRule};
use std::alloc::{AllocError, Global};

/// What a rule gives to the entries of cites before these are compared: of each cite the names that a rule prints, disambiguated from
/// those of all cites of the document. The cost is a few look-ups for each person of all cites.
///
/// # Errors
/// Out of memory.
pub fn first_names(
    alloc: Global,
    rule: DisambiguationRule,
    cites: &[Printed],
) -> Result<Vec<GivenState>, AllocError>
    ensures { IfOk result (λ g. given_states_view g.items
        ≡ first.first_names rule (map printed_view cites.now)) }
{
    let members = named_members(alloc, rule, cites)?;
    disambiguated_states(alloc, rule, members.as_slice())
}

/// The cites of a document, with the people whose given names a rule prints.
fn named_members<'a>(
    alloc: Global,
    rule: DisambiguationRule,
    cites: &'a [Printed],
) -> Result<Vec<Member<'a>>, AllocError>
    ensures { IfOk result (λ ms. members_view ms.items
        ≡ first.named_members rule (map printed_view cites.now)) }
{
    let mut members = Vec::with_capacity(alloc, cites.len())?;
    for (nth, cite) in cites.iter().enumerate() {
        members.push(named_member(alloc, rule, nth, cite)?)?;
    }
    Ok(members)
}

/// A cite of a document by its index, with the people whose given names a rule prints.
fn named_member<'a>(
    alloc: Global,
    rule: DisambiguationRule,
    index: usize,
    cite: &'a Printed,
) -> Result<Member<'a>, AllocError>
    ensures { IfOk result (λ m. member_view m
        ≡ first.named_member rule (index, printed_view cite.now)) }
{
    let mut member = member_at(alloc, index, cite)?;
    name_by(rule, &mut member.people);
    Ok(member)
}

/// Leaves the people of a cite whose given names a rule prints.
fn name_by(rule: DisambiguationRule, people: &mut Vec<CitedPerson>)
    ensures { people.new.items ≡ first.named_by rule people.old.items }
{
    if is_primary(rule) {
        people.truncate(1);
    }
}

/// Whether a rule prints the given name of the first person alone.
fn is_primary(rule: DisambiguationRule) -> bool
    ensures { result ≡ first.is_primary rule }
{
    matches!(
        rule,
        DisambiguationRule::PrimaryName | DisambiguationRule::PrimaryNameWithInitials
    )
}

/// Whether a rule prints whole given names.
fn prints_whole(rule: DisambiguationRule) -> bool
    ensures { result ≡ first.prints_whole rule }
{
    !matches!(
        rule,
        DisambiguationRule::AllNamesWithInitials | DisambiguationRule::PrimaryNameWithInitials
    )
}

/// The states of the entries of cites of whose names more is printed where people are disambiguated.
fn disambiguated_states(
    alloc: Global,
    rule: DisambiguationRule,
    members: &[Member],
) -> Result<Vec<GivenState>, AllocError>
    ensures { IfOk result (λ g. given_states_view g.items
        ≡ flat_map (disambiguated_state rule (all_people (members_view members.now)))
        (members_view members.now)) }
{
    let counts = NameCounts::new(alloc, members)?;
    let mut given = Vec::new(alloc);
    for member in members {
        push_disambiguated(&mut given, &counts, rule, member)?;
    }
    Ok(given)
}

/// Appends the state of the entry of a cite, where more of its names is printed if people are disambiguated.
fn push_disambiguated<'m>(
    given: &mut Vec<GivenState>,
    counts: &NameCounts<'m>,
    rule: DisambiguationRule,
    member: &'m Member,
) -> Result<(), AllocError>
    ensures { (ms : List names_specs.Member) → AreCounts counts.now ms
        → OnOk result (given_states_view given.new.items ≡ given_states_view given.old.items
        ++ disambiguated_state rule (all_people ms) (member_view member.now)) }
{
    match &member.names {
        Some(own) => {
            let mut names = own.clone()?;
            disambiguate(&mut names, counts, rule, member.people.as_slice());
            push_if_more(given, first_origin(), member.cite.cite.entry, own, names)
        }
        None => Ok(()),
    }
}

/// What gives these names.
fn first_origin() -> Origin
    ensures { origin_view result ≡ first.first_origin }
{
    Origin { round: 0, class: 0 }
}

/// Disambiguates people, each by the form at its index.
fn disambiguate<'m>(
    names: &mut NameDisambiguationProperties,
    counts: &NameCounts<'m>,
    rule: DisambiguationRule,
    people: &'m [CitedPerson],
)
    ensures { (ms : List names_specs.Member) → AreCounts counts.now ms
        → names.new ≡ disambiguated_names rule (all_people ms) people.now names.old }
{
    for (index, person) in people.iter().enumerate() {
        disambiguate_at(names, counts, rule, index, person);
    }
}

/// Disambiguates a person by the form at an index, where there is one.
fn disambiguate_at<'m>(
    names: &mut NameDisambiguationProperties,
    counts: &NameCounts<'m>,
    rule: DisambiguationRule,
    index: usize,
    person: &'m CitedPerson,
)
    ensures { (ms : List names_specs.Member) → AreCounts counts.now ms
        → names.new ≡ disambiguated_at rule (all_people ms) names.old (index, person.now) }
{
    if let Some(own) = names.get_form_mut(index) {
        *own = form_first(counts, rule, person, *own);
    }
}

/// The form of a person, disambiguated where there are namesakes.
fn form_first<'m>(
    counts: &NameCounts<'m>,
    rule: DisambiguationRule,
    person: &'m CitedPerson,
    own: DisambiguatedNameForm,
) -> DisambiguatedNameForm
    ensures { (ms : List names_specs.Member) → AreCounts counts.now ms
        → result ≡ form_first rule (all_people ms) person.now own }
{
    if counts.namesakes_within(None, person) > 0 {
        let is_alike = counts.alike_namesakes_within(None, person) > 0;
        disambiguated_form(prints_whole(rule), is_alike, own)
    } else {
        own
    }
}

/// A form by which a person is disambiguated from namesakes, of whom some have the same initials or none.
fn disambiguated_form(
    whole: bool,
    is_alike: bool,
    form: DisambiguatedNameForm,
) -> DisambiguatedNameForm
    ensures { result ≡ first.disambiguated_form whole is_alike form }
{
    match form {
        DisambiguatedNameForm::ShortInitialized if !is_alike => {
            DisambiguatedNameForm::LongInitialized
        }
        DisambiguatedNameForm::ShortInitialized | DisambiguatedNameForm::ShortFull if whole => {
            DisambiguatedNameForm::LongFull
        }
        DisambiguatedNameForm::LongInitialized if whole && is_alike => {
            DisambiguatedNameForm::LongFull
        }
        other => other,
    }
}
