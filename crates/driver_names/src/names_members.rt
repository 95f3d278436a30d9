//! The cites of a class, and how their people disambiguate them.

ghost use Rattle.std.specs.Prelude.{◌≡◌, ◌+◌, ◌<◌, ◌^◌, ◌&&◌, nat_lt, not, Some, is_some, ◌++◌, fold, length, map, max, zip, if◌then◌else◌, IfOk, OnOk};
ghost use Rattle.std.specs.List.{flat_map, list_any};
ghost use Rattle.std.specs.Option.{option_map};
ghost use Rattle.driver_requests.specs.SuffixViews.{origin_view};
ghost use Rattle.driver_names.specs.Names as names;
ghost use Rattle.driver_names.specs.Names.{is_by_entry, states_by_names_of, own_names, people_compared, showing_up_to};
ghost use Rattle.driver_names.specs.Namesakes.{AreFormsAt, may_be_distinguished, distinction_of};
ghost use Rattle.driver_names.specs.NamesViews.{distinction, state_of_member, member_view, members_view, shown_with, with_distinction};
ghost use Rattle.driver_names.specs.Shared.{AreShared};
ghost use Rattle.driver_names.specs.Views.{class_view, given_states_view, printed_view};

use crate::given_state::GivenState;
use crate::names_people::{CitedPerson, people_in};
use crate::names_raised::{raise, show_names};
use crate::printed::Printed;
use driver_requests::Origin;
use rendering_context::DisambiguateState;
use rendering_people::NameDisambiguationProperties;
use rendering_taxonomy::DisambiguatedNameForm;
use std::alloc::{AllocError, Global};

/// A cite of a class.
#[derive(Drop)]
pub(crate) struct Member<'a> {
    /// Its index in the class, from zero.
    pub(crate) index: usize,
    pub(crate) cite: &'a Printed,
    pub(crate) people: Vec<CitedPerson<'a>>,
    /// How much of its names is to be printed.
    pub(crate) names: Option<NameDisambiguationProperties>,
    /// Whether names have disambiguated it from all others.
    pub(crate) is_distinguished: bool,
}

/// What is found of a cite that people newly disambiguate.
#[derive(Clone, Copy)]
pub(crate) struct Distinction {
    /// The form to which the name of the last of these people is raised.
    pub(crate) form: Option<DisambiguatedNameForm>,
}

impl Printed {
    /// How much of its names it prints.
    fn own_names(&self) -> Option<&NameDisambiguationProperties>
        ensures { option_map (λ p. p.now) result ≡ own_names (printed_view self.now) }
    {
        match &self.state {
            DisambiguateState::NameDisambiguation(names) => Some(names),
            _ => self.cite.names.as_ref(),
        }
    }

    /// A copy of how much of its names it prints.
    fn copied_names(&self) -> Result<Option<NameDisambiguationProperties>, AllocError>
        ensures { IfOk result (λ n. n ≡ own_names (printed_view self.now)) }
    {
        match self.own_names() {
            Some(names) => Ok(Some(names.clone()?)),
            None => Ok(None),
        }
    }
}

/// The cites of a class, before people are compared.
pub(crate) fn members<'a>(
    alloc: Global,
    class: &[&'a Printed],
) -> Result<Vec<Member<'a>>, AllocError>
    ensures { IfOk result (λ ms. members_view ms.items ≡ names.members (class_view class.now)) }
{
    let mut members = Vec::with_capacity(alloc, class.len())?;
    for (nth, cite) in class.iter().enumerate() {
        members.push(member_at(alloc, nth, *cite)?)?;
    }
    Ok(members)
}

/// A cite of a class, before people are compared.
pub(crate) fn member_at<'a>(
    alloc: Global,
    index: usize,
    cite: &'a Printed,
) -> Result<Member<'a>, AllocError>
    ensures { IfOk result (λ m. member_view m ≡ names.member (index, printed_view cite.now)) }
{
    let people = people_in(alloc, &cite.tree)?;
    let names = cite.copied_names()?;
    Ok(Member {
        index,
        cite,
        people,
        names,
        is_distinguished: false,
    })
}

/// How many people are compared at most: as many as the cite with the most people has, where names are added, else one.
pub(crate) fn people_compared(adds_names: bool, members: &[Member]) -> usize
    ensures { result ≡ people_compared adds_names (members_view members.now) }
{
    if adds_names { most_people(members) } else { 1 }
}

/// How many people the cite with the most people has.
fn most_people(members: &[Member]) -> usize
    ensures { result ≡ fold max 0 (map (λ m. length m.people) (members_view members.now)) }
{
    let mut most = 0;
    for member in members {
        most = most.max(member.people.len());
    }
    most
}

/// What the people up to an index tell of each cite, by how many first people it shares with another one, and by the form to which the
/// name of the next one is raised.
pub(crate) fn distinctions(
    alloc: Global,
    members: &[Member],
    shared: &[usize],
    forms: &[Option<DisambiguatedNameForm>],
    nth: usize,
) -> Result<Vec<Option<Distinction>>, AllocError>
    requires room { nth + 1 < 2 ^ 64 }
    requires len { length shared.now ≡ length members.now }
    requires shared { AreShared nth (members_view members.now) shared.now }
    requires form_len { length forms.now ≡ length members.now }
    requires forms { AreFormsAt nth (members_view members.now) forms.now }
    ensures { IfOk result (λ ds. ds.items
        ≡ map (distinction (members_view members.now) nth) (members_view members.now)) }
{
    let mut distinctions = Vec::with_capacity(alloc, members.len())?;
    for (at, member) in members.iter().enumerate() {
        distinctions.push(member.distinction(nth, shared[at], forms[at]))?;
    }
    Ok(distinctions)
}

/// Where the people up to an index disambiguate some cite, shows the names of each up to it, with what these people tell of each.
pub(crate) fn show_found(members: &mut [Member], nth: usize, distinctions: &[Option<Distinction>])
    requires room { nth + 1 < 2 ^ 64 }
    requires length { length distinctions.now ≡ length members.old }
    ensures { members_view members.new ≡ (if list_any (λ d. is_some d) distinctions.now
        then map (λ p. shown_with nth p.0 p.1) (zip distinctions.now (members_view members.old))
        else members_view members.old) }
{
    if has_distinction(distinctions) {
        show_all(members, nth, distinctions);
    }
}

/// Whether some cite is disambiguated.
fn has_distinction(distinctions: &[Option<Distinction>]) -> bool
    ensures { result ≡ list_any (λ d. is_some d) distinctions.now }
{
    distinctions.iter().any(|distinction| distinction.is_some())
}

/// Shows the names of each cite up to an index, with what the people up to it tell of each.
fn show_all(members: &mut [Member], nth: usize, distinctions: &[Option<Distinction>])
    requires room { nth + 1 < 2 ^ 64 }
    requires length { length distinctions.now ≡ length members.old }
    ensures { members_view members.new
        ≡ map (λ p. shown_with nth p.0 p.1) (zip distinctions.now (members_view members.old)) }
{
    for (index, member) in members.iter_mut().enumerate() {
        member.show(nth, distinctions[index]);
    }
}

impl<'a> Member<'a> {
    /// Whether its style says that cites of one entry are not compared with each other.
    pub(crate) fn is_by_entry(&self) -> bool
        ensures { result ≡ is_by_entry (member_view self.now) }
    {
        self.cite.cite.same_entry_is_no_rival
    }

    /// What the people up to an index tell of it, where it shares so many first people with another cite, by the form to which the name
    /// at that index is raised.
    fn distinction(
        &self,
        nth: usize,
        shared: usize,
        form: Option<DisambiguatedNameForm>,
    ) -> Option<Distinction>
        ensures { result ≡ distinction_of nth shared form (member_view self.now) }
    {
        if self.is_disambiguated_at(nth, shared) {
            Some(Distinction { form })
        } else {
            None
        }
    }

    /// Whether the people up to an index newly disambiguate it, where it shares so many first people with another cite.
    fn is_disambiguated_at(&self, nth: usize, shared: usize) -> bool
        ensures { result
            ≡ (may_be_distinguished (member_view self.now) && not (nat_lt nth shared)) }
    {
        self.may_be_distinguished() && shared <= nth
    }

    /// Whether names have not disambiguated it, and may still change what it prints.
    fn may_be_distinguished(&self) -> bool
        ensures { result ≡ may_be_distinguished (member_view self.now) }
    {
        !self.is_distinguished && self.cite.may_change()
    }

    /// Shows the names up to an index, with what the people up to it tell.
    fn show(&mut self, nth: usize, distinction: Option<Distinction>)
        requires { nth + 1 < 2 ^ 64 }
        ensures { member_view self.new ≡ shown_with nth distinction (member_view self.old) }
    {
        if let Some(distinction) = distinction {
            self.distinguish(nth, distinction);
        }
        self.show_up_to(nth + 1);
    }

    /// Disambiguates it by the people up to an index.
    fn distinguish(&mut self, nth: usize, distinction: Distinction)
        ensures { member_view self.new
            ≡ with_distinction nth (Some distinction) (member_view self.old) }
    {
        self.is_distinguished = true;
        raise(&mut self.names, nth, distinction.form);
    }

    /// Shows so many names at least, if names may still change what it prints.
    fn show_up_to(&mut self, count: usize)
        ensures { member_view self.new ≡ showing_up_to count (member_view self.old) }
    {
        if self.cite.may_change() {
            show_names(&mut self.names, count);
        }
    }
}

/// The states of the entries of which more of the names is to be printed than before.
pub(crate) fn states(
    alloc: Global,
    origin: Origin,
    members: Vec<Member>,
) -> Result<Vec<GivenState>, AllocError>
    ensures { IfOk result (λ g. given_states_view g.items
        ≡ flat_map (state_of_member (origin_view origin)) (members_view members.entry.items)) }
{
    let mut given = Vec::new(alloc);
    for member in members {
        push_state(&mut given, origin, member)?;
    }
    Ok(given)
}

/// Appends the state of an entry, where more of the names is to be printed than before.
fn push_state(given: &mut Vec<GivenState>, origin: Origin, member: Member) -> Result<(), AllocError>
    ensures { OnOk result (given_states_view given.new.items ≡ given_states_view given.old.items
        ++ state_of_member (origin_view origin) (member_view member.entry)) }
{
    let Member { cite, names, .. } = member;
    match (cite.own_names(), names) {
        (Some(old), Some(new)) => push_if_more(given, origin, cite.cite.entry, old, new),
        _ => Ok(()),
    }
}

/// Appends the state of an entry by names, where these print more than others.
pub(crate) fn push_if_more(
    given: &mut Vec<GivenState>,
    origin: Origin,
    entry: usize,
    old: &NameDisambiguationProperties,
    new: NameDisambiguationProperties,
) -> Result<(), AllocError>
    ensures { OnOk result (given_states_view given.new.items ≡ given_states_view given.old.items
        ++ states_by_names_of entry (origin_view origin) (Some old.now) (Some new)) }
{
    if new.prints_more(old) {
        given.push(GivenState {
            entry,
            state: DisambiguateState::NameDisambiguation(new),
            origin,
        })?;
    }
    Ok(())
}
