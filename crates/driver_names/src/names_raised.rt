//! How much of names is printed where people disambiguate cites.

ghost use Rattle.std.specs.Prelude.{◌≡◌, ◌==◌, List, None, length, map, replicate, IfOk};
ghost use Rattle.std.specs.List.{list_any};
ghost use Rattle.std.specs.Option.{option_map};
ghost use Rattle.rendering_people.specs.Properties.{with_name};
ghost use Rattle.driver_names.specs.Names as names_specs;
ghost use Rattle.driver_names.specs.Names.{raised_form, raised_names, raises};
ghost use Rattle.driver_names.specs.Namesakes as namesakes_specs;
ghost use Rattle.driver_names.specs.Namesakes.{AreCounts, form_among, form_at, form_counted, is_raised, is_raised_after};
ghost use Rattle.driver_names.specs.NamesViews.{member_view, members_view, raised_if};
ghost use Rattle.driver_names.specs.Shared.{AreInOrder, shared_people};

use crate::names_members::Member;
use crate::names_people::CitedPerson;
use crate::namesakes::NameCounts;
use rendering_people::NameDisambiguationProperties;
use rendering_taxonomy::{DisambiguatedNameForm, DisambiguationRule};
use std::alloc::{AllocError, Global};

/// For each cite the form to which the name is raised of the first person that it shares with no other one, where its rule raises
/// names and the person is among so many and has a namesake in another cite. The cost is a few look-ups for each person of all cites.
pub(crate) fn forms_after(
    alloc: Global,
    members: &[Member],
    shared: &[usize],
    most: usize,
) -> Result<Vec<Option<DisambiguatedNameForm>>, AllocError>
    requires order { AreInOrder (members_view members.now) }
    requires len { length shared.now ≡ length members.now }
    requires shared { shared.now
        ≡ map (shared_people most (members_view members.now)) (members_view members.now) }
    ensures { IfOk result (λ forms. forms.items
        ≡ namesakes_specs.forms_after most (members_view members.now)) }
{
    if !are_raised(members, shared, most) {
        return no_forms(alloc, members.len());
    }
    let counts = NameCounts::new(alloc, members)?;
    let mut forms = Vec::with_capacity(alloc, members.len())?;
    for (at, member) in members.iter().enumerate() {
        forms.push(form_after(&counts, member, shared[at], most))?;
    }
    Ok(forms)
}

/// Whether a name of some cite may be raised.
fn are_raised(members: &[Member], shared: &[usize], most: usize) -> bool
    requires len { length shared.now ≡ length members.now }
    requires shared { shared.now
        ≡ map (shared_people most (members_view members.now)) (members_view members.now) }
    ensures { result
        ≡ list_any (is_raised_after most (members_view members.now)) (members_view members.now) }
{
    for (at, member) in members.iter().enumerate() {
        if member.is_raised(most, shared[at]) {
            return true;
        }
    }
    false
}

/// For each of so many cites that no name is raised.
fn no_forms(alloc: Global, count: usize) -> Result<Vec<Option<DisambiguatedNameForm>>, AllocError>
    ensures { IfOk result (λ forms. forms.items ≡ replicate count None) }
{
    vec![in alloc; None; count]
}

/// The form to which the name is raised of the first person that a cite shares with no other one, by how many it shares.
fn form_after<'m>(
    counts: &NameCounts<'m>,
    member: &'m Member,
    shared: usize,
    most: usize,
) -> Option<DisambiguatedNameForm>
    ensures { (ms : List names_specs.Member) → AreCounts counts.now ms
        → result ≡ form_counted ms most shared (member_view member.now) }
{
    if member.is_raised(most, shared) {
        form_at(counts, member, shared)
    } else {
        None
    }
}

/// The form that disambiguates the person at an index from namesakes in other cites.
fn form_at<'m>(
    counts: &NameCounts<'m>,
    member: &'m Member,
    index: usize,
) -> Option<DisambiguatedNameForm>
    ensures { (ms : List names_specs.Member) → AreCounts counts.now ms
        → result ≡ form_at ms index (member_view member.now) }
{
    match member.people.get(index) {
        Some(person) => form_among(counts, member, person),
        None => None,
    }
}

/// The form that disambiguates a person from namesakes in other cites: whole where one of them has the same initials, else with
/// initials.
fn form_among<'m>(
    counts: &NameCounts<'m>,
    member: &Member,
    person: &'m CitedPerson,
) -> Option<DisambiguatedNameForm>
    ensures { (ms : List names_specs.Member) → AreCounts counts.now ms
        → result ≡ form_among ms (member_view member.now) person.now }
{
    if counts.has_alike_namesake(member, person) {
        Some(DisambiguatedNameForm::LongFull)
    } else if counts.has_namesake(member, person) {
        Some(DisambiguatedNameForm::LongInitialized)
    } else {
        None
    }
}

impl<'a> Member<'a> {
    /// Whether its rule raises names, and the first person that it shares with no other one is among so many.
    fn is_raised(&self, most: usize, shared: usize) -> bool
        ensures { result ≡ is_raised most shared (member_view self.now) }
    {
        raises(self.cite.cite.rule) && shared < most
    }
}

/// Whether a rule raises names that disambiguate a cite.
fn raises(rule: Option<DisambiguationRule>) -> bool
    ensures { result ≡ raises rule }
{
    matches!(rule, Some(DisambiguationRule::ByCite))
}

/// Raises the form of the name at an index to another one, where there are both.
pub(crate) fn raise(
    names: &mut Option<NameDisambiguationProperties>,
    index: usize,
    form: Option<DisambiguatedNameForm>,
)
    ensures { names.new ≡ raised_if index form names.old }
{
    if let Some(form) = form {
        if let Some(names) = names {
            raise_name(names, index, form);
        }
    }
}

fn raise_name(names: &mut NameDisambiguationProperties, index: usize, form: DisambiguatedNameForm)
    ensures { names.new ≡ raised_names index form names.old }
{
    if let Some(own) = names.get_form_mut(index) {
        *own = raised_form(*own, form);
    }
}

/// A form that is raised to another one; a count is not raised.
fn raised_form(own: DisambiguatedNameForm, form: DisambiguatedNameForm) -> DisambiguatedNameForm
    ensures { result ≡ raised_form own form }
{
    match (own, form) {
        (DisambiguatedNameForm::Count, _) => DisambiguatedNameForm::Count,
        (DisambiguatedNameForm::LongFull, _) | (_, DisambiguatedNameForm::LongFull) => {
            DisambiguatedNameForm::LongFull
        }
        (DisambiguatedNameForm::LongInitialized, _) | (_, DisambiguatedNameForm::LongInitialized) =>
            DisambiguatedNameForm::LongInitialized,
        (DisambiguatedNameForm::ShortFull, _) | (_, DisambiguatedNameForm::ShortFull) => {
            DisambiguatedNameForm::ShortFull
        }
        (DisambiguatedNameForm::ShortInitialized, _) => DisambiguatedNameForm::ShortInitialized,
    }
}

/// Shows so many names at least.
pub(crate) fn show_names(names: &mut Option<NameDisambiguationProperties>, count: usize)
    ensures { names.new ≡ option_map (with_name count) names.old }
{
    if let Some(names) = names {
        let _shows_more = names.add_name(count);
    }
}
