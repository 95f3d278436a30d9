//! How many people of the cites of a class are namesakes of a person.

ghost use Rattle.std.specs.Prelude.{◌≡◌, ◌++◌, List, None, count_by, map, IfOk, OnOk};
ghost use Rattle.std.specs.List.{flat_map};
ghost use Rattle.std.specs.Option.{option_copied, option_map};
ghost use Rattle.laws.specs.Text.{characters};
ghost use Rattle.rendering_tree.specs.Metas.{is_person};
ghost use Rattle.driver_names.specs.Names as names_specs;
ghost use Rattle.driver_names.specs.Names.{is_namesake};
ghost use Rattle.driver_names.specs.NamesViews.{is_alike_namesake, member_view, members_view};
ghost use Rattle.driver_names.specs.Namesakes.{AreCounts, IsCount, family, has_more, own_parts, own_people, part_of, parts_within, people_within, scoped_parts, scoped_view};
ghost use Rattle.driver_names.specs.Shared.{compared_name_view};

use crate::names_compared::ComparedName;
use crate::names_members::Member;
use crate::names_people::CitedPerson;
use crate::same_keys::Tally;
use std::alloc::{AllocError, Global};

/// What of a name people have in common.
#[derive(Clone, Copy)]
pub(crate) enum NamePart {
    /// The family name alone.
    Family,
    /// The family name and the initials of the given name.
    FamilyAndInitials,
    /// All of the name.
    Whole,
}

/// How many people of the cites of a class have each name: all of them, and those of each entry whose cites are not compared with each
/// other.
#[derive(Drop)]
pub(crate) struct NameCounts<'m> {
    pub(crate) families: Tally<(Option<usize>, ComparedName<'m>)>,
    pub(crate) initialed: Tally<(Option<usize>, ComparedName<'m>)>,
    pub(crate) whole: Tally<(Option<usize>, ComparedName<'m>)>,
}

impl<'m> NameCounts<'m> {
    /// Counts the people of all cites.
    pub(crate) fn new(alloc: Global, members: &'m [Member]) -> Result<NameCounts<'m>, AllocError>
        ensures { IfOk result (λ c. AreCounts c (members_view members.now)) }
    {
        let families = counts_by(alloc, NamePart::Family, members)?;
        let initialed = counts_by(alloc, NamePart::FamilyAndInitials, members)?;
        let whole = counts_by(alloc, NamePart::Whole, members)?;
        Ok(NameCounts {
            families,
            initialed,
            whole,
        })
    }

    /// Whether a person has a namesake in a cite that a cite is compared with: more than in those that it is not compared with.
    pub(crate) fn has_namesake(&self, member: &Member, person: &'m CitedPerson) -> bool
        ensures { (ms : List names_specs.Member) → AreCounts self.now ms
            → result ≡ has_more (is_namesake person.now) ms (member_view member.now) }
    {
        self.own_namesakes(member, person) < self.namesakes_within(None, person)
    }

    /// Whether a person has a namesake with the same initials in a cite that a cite is compared with.
    pub(crate) fn has_alike_namesake(&self, member: &Member, person: &'m CitedPerson) -> bool
        ensures { (ms : List names_specs.Member) → AreCounts self.now ms
            → result ≡ has_more (is_alike_namesake person.now) ms (member_view member.now) }
    {
        self.own_alike_namesakes(member, person) < self.alike_namesakes_within(None, person)
    }

    /// How many namesakes a person has in the cites that a cite is not compared with.
    fn own_namesakes(&self, member: &Member, person: &'m CitedPerson) -> usize
        ensures { (ms : List names_specs.Member) → AreCounts self.now ms → result
            ≡ count_by (is_namesake person.now) (own_people ms (member_view member.now)) }
    {
        if member.is_by_entry() {
            self.namesakes_within(Some(member.cite.cite.entry), person)
        } else {
            member.namesakes(person)
        }
    }

    /// How many namesakes with the same initials a person has in the cites that a cite is not compared with.
    fn own_alike_namesakes(&self, member: &Member, person: &'m CitedPerson) -> usize
        ensures { (ms : List names_specs.Member) → AreCounts self.now ms → result
            ≡ count_by (is_alike_namesake person.now) (own_people ms (member_view member.now)) }
    {
        if member.is_by_entry() {
            self.alike_namesakes_within(Some(member.cite.cite.entry), person)
        } else {
            member.alike_namesakes(person)
        }
    }

    /// How many people, of all or of an entry, are namesakes of a person: those of the same family name without those of the same name.
    pub(crate) fn namesakes_within(&self, scope: Option<usize>, person: &'m CitedPerson) -> usize
        ensures { (ms : List names_specs.Member) → AreCounts self.now ms
            → result ≡ count_by (is_namesake person.now) (people_within scope ms) }
    {
        self.families
            .count(&(scope, person.part(NamePart::Family)))
            .saturating_sub(self.same_people(scope, person))
    }

    /// How many people, of all or of an entry, are namesakes of a person and have the same initials.
    pub(crate) fn alike_namesakes_within(
        &self,
        scope: Option<usize>,
        person: &'m CitedPerson,
    ) -> usize
        ensures { (ms : List names_specs.Member) → AreCounts self.now ms
            → result ≡ count_by (is_alike_namesake person.now) (people_within scope ms) }
    {
        self.initialed
            .count(&(scope, person.part(NamePart::FamilyAndInitials)))
            .saturating_sub(self.same_people(scope, person))
    }

    /// How many people, of all or of an entry, have the name of a person.
    fn same_people(&self, scope: Option<usize>, person: &'m CitedPerson) -> usize
        ensures { (ms : List names_specs.Member) → AreCounts self.now ms
            → result ≡ count_by (is_person person.now) (people_within scope ms) }
    {
        self.whole.count(&(scope, person.part(NamePart::Whole)))
    }
}

/// How many people of all cites have each name, by a part of names.
fn counts_by<'m>(
    alloc: Global,
    part: NamePart,
    members: &'m [Member],
) -> Result<Tally<(Option<usize>, ComparedName<'m>)>, AllocError>
    ensures { IfOk result (λ t. IsCount part t (members_view members.now)) }
{
    let names = names_by(alloc, part, members)?;
    Tally::new(alloc, names.as_slice())
}

/// A part of the name of each person of all cites, among all people and, where that is asked for, among those of the entry.
fn names_by<'m>(
    alloc: Global,
    part: NamePart,
    members: &'m [Member],
) -> Result<Vec<(Option<usize>, ComparedName<'m>)>, AllocError>
    ensures { IfOk result (λ names. map scoped_view names.items
        ≡ flat_map (scoped_parts part) (members_view members.now)) }
{
    let mut names = Vec::new(alloc);
    for member in members {
        push_parts(&mut names, part, member)?;
    }
    Ok(names)
}

/// Appends a part of the name of each person of a cite.
fn push_parts<'m>(
    names: &mut Vec<(Option<usize>, ComparedName<'m>)>,
    part: NamePart,
    member: &'m Member,
) -> Result<(), AllocError>
    ensures { OnOk result (map scoped_view names.new.items
        ≡ map scoped_view names.old.items ++ scoped_parts part (member_view member.now)) }
{
    push_names(names, part, None, member.people.as_slice())?;
    push_own_parts(names, part, member)
}

/// Appends them among those of the entry, where the cite's style asks for that.
fn push_own_parts<'m>(
    names: &mut Vec<(Option<usize>, ComparedName<'m>)>,
    part: NamePart,
    member: &'m Member,
) -> Result<(), AllocError>
    ensures { OnOk result (map scoped_view names.new.items
        ≡ map scoped_view names.old.items ++ own_parts part (member_view member.now)) }
{
    if member.is_by_entry() {
        let entry = member.cite.cite.entry;
        push_names(names, part, Some(entry), member.people.as_slice())
    } else {
        Ok(())
    }
}

fn push_names<'m>(
    names: &mut Vec<(Option<usize>, ComparedName<'m>)>,
    part: NamePart,
    scope: Option<usize>,
    people: &'m [CitedPerson],
) -> Result<(), AllocError>
    ensures { OnOk result (map scoped_view names.new.items
        ≡ map scoped_view names.old.items ++ parts_within part scope people.now) }
{
    for person in people {
        names.push((scope, person.part(part)))?;
    }
    Ok(())
}

impl<'a> CitedPerson<'a> {
    fn part(&self, part: NamePart) -> ComparedName<'_>
        ensures { compared_name_view result ≡ part_of part self.now }
    {
        match part {
            NamePart::Family => self.family(None),
            NamePart::FamilyAndInitials => self.family(Some(&self.initials)),
            NamePart::Whole => self.whole(),
        }
    }

    /// The family name and another given name.
    fn family<'p>(&'p self, given_name: Option<&'p String>) -> ComparedName<'p>
        ensures { compared_name_view result
            ≡ family (self.now) (option_map characters (option_copied given_name.entry)) }
    {
        ComparedName {
            name: &self.person.name,
            given_name,
            prefix: None,
            suffix: None,
        }
    }
}

impl<'a> Member<'a> {
    /// How many of its people are namesakes of a person.
    fn namesakes(&self, person: &CitedPerson) -> usize
        ensures { result ≡ count_by (is_namesake person.now) (member_view self.now).people }
    {
        self.people
            .iter()
            .filter(|other| person.is_namesake(other))
            .count()
    }

    /// How many of its people are namesakes of a person and have the same initials.
    fn alike_namesakes(&self, person: &CitedPerson) -> usize
        ensures { result ≡ count_by (is_alike_namesake person.now) (member_view self.now).people }
    {
        self.people
            .iter()
            .filter(|other| person.is_alike_namesake(other))
            .count()
    }
}
