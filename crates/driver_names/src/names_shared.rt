//! How many of the first people of cites are the same.

ghost use Rattle.std.specs.Prelude.{◌≡◌, ℕ, ◌+◌, ◌<◌, ◌^◌, ◌&&◌, ◌++◌, nat_lt, List, length, map, replicate, if◌then◌else◌, IfOk, OnOk};
ghost use Rattle.std.specs.List.{list_any, zip};
ghost use Rattle.std.specs.Option.{option_map};
ghost use Rattle.driver_names.specs.Keys.{IsTally};
ghost use Rattle.driver_names.specs.Names.{rule_for};
ghost use Rattle.driver_names.specs.NamesViews.{member_view, members_view};
ghost use Rattle.driver_names.specs.Shared as shared_specs;
ghost use Rattle.driver_names.specs.Shared.{AreInOrder, all_shared_where, compared_at, groups_by, is_own_key, is_rule, key_at, key_view, compared_name_view, shares};

use crate::names_compared::ComparedName;
use crate::names_members::Member;
use crate::same_keys::{Tally, firsts};
use rendering_taxonomy::DisambiguationRule as Rule;
use std::alloc::{AllocError, Global};

/// For each cite the greatest number of first people, at most so many, that it shares with another one, by the rule of its style. For
/// each rule that a style has, and each number up to that one, the cost is two look-ups a cite.
pub(crate) fn shared_people(
    alloc: Global,
    members: &[Member],
    most: usize,
) -> Result<Vec<usize>, AllocError>
    requires { AreInOrder (members_view members.now) }
    ensures { IfOk result (λ v. v.items ≡ map
        (shared_specs.shared_people most (members_view members.now)) (members_view members.now)) }
{
    let mut shared = zeros(alloc, members.len())?;
    share_where(alloc, None, members, most, &mut shared)?;
    share_where(alloc, Some(Rule::ByCite), members, most, &mut shared)?;
    share_where(alloc, Some(Rule::AllNames), members, most, &mut shared)?;
    share_where(
        alloc,
        Some(Rule::AllNamesWithInitials),
        members,
        most,
        &mut shared,
    )?;
    share_where(alloc, Some(Rule::PrimaryName), members, most, &mut shared)?;
    share_where(
        alloc,
        Some(Rule::PrimaryNameWithInitials),
        members,
        most,
        &mut shared,
    )?;
    Ok(shared)
}

/// Changes the numbers of the cites whose style has a rule, if there are any: to the greatest number of first people, at most so many, that
/// each shares with another one.
fn share_where(
    alloc: Global,
    rule: Option<Rule>,
    members: &[Member],
    most: usize,
    shared: &mut Vec<usize>,
) -> Result<(), AllocError>
    requires order { AreInOrder (members_view members.now) }
    requires len { length shared.old.items ≡ length members.now }
    ensures shared { OnOk result (shared.new.items
        ≡ all_shared_where rule most (members_view members.now) shared.old.items) }
    ensures len { length shared.new.items ≡ length shared.old.items }
{
    if !has_rule(rule, members) {
        return Ok(());
    }
    let mut groups = zeros(alloc, members.len())?;
    for index in 0..most {
        let next = parted(alloc, rule, members, index, groups.as_slice())?;
        let wanted = are_sharing(alloc, rule, members, index, next.as_slice())?;
        set_where(shared, wanted.as_slice(), index + 1);
        groups = next;
    }
    Ok(())
}

/// Whether the style of some cite has a rule.
fn has_rule(rule: Option<Rule>, members: &[Member]) -> bool
    ensures { result ≡ list_any (λ m. is_rule (rule_for (member_view m)) rule) members.now }
{
    members.iter().any(|member| member.has_rule(rule))
}

fn zeros(alloc: Global, count: usize) -> Result<Vec<usize>, AllocError>
    ensures { IfOk result (λ v. v.items ≡ replicate count 0) }
{
    vec![in alloc; 0; count]
}

/// Groups of cites whose people up to an index are the same, from groups by the people before it. Each is known by its first cite.
fn parted(
    alloc: Global,
    rule: Option<Rule>,
    members: &[Member],
    index: usize,
    groups: &[usize],
) -> Result<Vec<usize>, AllocError>
    requires { groups.now ≡ groups_by rule (members_view members.now) index }
    ensures { IfOk result (λ v. v.items ≡ groups_by rule (members_view members.now) (index + 1)) }
{
    let keys = keys(alloc, rule, members, index, groups)?;
    firsts(alloc, keys.as_slice())
}

/// The group of each cite, beside the name of its person at an index.
fn keys<'m>(
    alloc: Global,
    rule: Option<Rule>,
    members: &'m [Member],
    index: usize,
    groups: &[usize],
) -> Result<Vec<(usize, Option<ComparedName<'m>>)>, AllocError>
    requires { length groups.now ≡ length members.now }
    ensures { IfOk result (λ ks. map key_view ks.items
        ≡ map (λ p. key_at rule index p.0 p.1) (zip groups.now (members_view members.now))) }
{
    let mut keys = Vec::with_capacity(alloc, members.len())?;
    for (at, member) in members.iter().enumerate() {
        keys.push((groups[at], member.compared_at(rule, index)))?;
    }
    Ok(keys)
}

/// Whether each cite's style has a rule, and its people up to an index are those of another cite.
fn are_sharing(
    alloc: Global,
    rule: Option<Rule>,
    members: &[Member],
    index: usize,
    groups: &[usize],
) -> Result<Vec<bool>, AllocError>
    requires order { AreInOrder (members_view members.now) }
    requires len { length groups.now ≡ length members.now }
    requires groups { groups.now ≡ groups_by rule (members_view members.now) (index + 1) }
    ensures { IfOk result (λ v. v.items
        ≡ map (λ m. is_rule (rule_for m) rule && shares rule (members_view members.now) m index)
        (members_view members.now)) }
{
    let sizes = Tally::new(alloc, groups)?;
    let keys = own_keys(alloc, members, groups)?;
    let own_sizes = Tally::new(alloc, keys.as_slice())?;
    let mut sharing = Vec::with_capacity(alloc, members.len())?;
    for (at, member) in members.iter().enumerate() {
        let own = member.own_size(&own_sizes, groups[at]);
        sharing.push(member.is_sharing(rule, own, sizes.count(&groups[at])))?;
    }
    Ok(sharing)
}

/// The groups of cites whose styles do not compare cites of one entry, beside their entries.
fn own_keys(
    alloc: Global,
    members: &[Member],
    groups: &[usize],
) -> Result<Vec<(usize, usize)>, AllocError>
    requires { length groups.now ≡ length members.now }
    ensures { IfOk result (λ ks. ks.items
        ≡ shared_specs.own_keys groups.now (members_view members.now)) }
{
    let mut keys = Vec::new(alloc);
    for (at, member) in members.iter().enumerate() {
        member.push_own_key(groups[at], &mut keys)?;
    }
    Ok(keys)
}

/// Puts a number where it is wanted.
fn set_where(numbers: &mut Vec<usize>, wanted: &[bool], number: usize)
    requires { length wanted.now ≡ length numbers.old.items }
    ensures set { numbers.new.items
        ≡ map (λ p. if p.0 then number else p.1) (zip wanted.now numbers.old.items) }
    ensures len { length numbers.new.items ≡ length numbers.old.items }
{
    for at in 0..wanted.len() {
        numbers[at] = chosen(wanted[at], number, numbers[at]);
    }
}

/// A number that is wanted, or another one.
fn chosen(is_wanted: bool, number: usize, other: usize) -> usize
    ensures { result ≡ (if is_wanted then number else other) }
{
    if is_wanted { number } else { other }
}

impl<'a> Member<'a> {
    /// Whether its style has a rule.
    fn has_rule(&self, rule: Option<Rule>) -> bool
        ensures { result ≡ is_rule (rule_for (member_view self.now)) rule }
    {
        self.cite.cite.rule == rule
    }

    /// Whether its style has a rule, and it is compared with some cite in a group of so many, of which so many are its own.
    fn is_sharing(&self, rule: Option<Rule>, own: usize, size: usize) -> bool
        ensures { result ≡ (is_rule (rule_for (member_view self.now)) rule && nat_lt own size) }
    {
        self.has_rule(rule) && own < size
    }

    /// Appends its group beside its entry, where its style does not compare cites of one entry.
    fn push_own_key(&self, group: usize, keys: &mut Vec<(usize, usize)>) -> Result<(), AllocError>
        ensures { OnOk result (keys.new.items
            ≡ keys.old.items ++ shared_specs.own_key group (member_view self.now)) }
    {
        if self.is_by_entry() {
            keys.push((group, self.cite.cite.entry))?;
        }
        Ok(())
    }

    /// How many cites of its group it is not compared with, by how often the group stands beside each entry.
    fn own_size(&self, sizes: &Tally<(usize, usize)>, group: usize) -> usize
        ensures { (keys : List (ℕ × ℕ)) → IsTally is_own_key sizes.now keys
            → result ≡ shared_specs.own_size keys group (member_view self.now) }
    {
        if self.is_by_entry() {
            sizes.count(&(group, self.cite.cite.entry))
        } else {
            1
        }
    }

    /// The name of its person at an index, as a rule compares names.
    fn compared_at(&self, rule: Option<Rule>, index: usize) -> Option<ComparedName<'_>>
        ensures { option_map compared_name_view result
            ≡ compared_at rule index (member_view self.now) }
    {
        match self.people.get(index) {
            Some(person) => Some(person.compared(rule, index)),
            None => None,
        }
    }
}
