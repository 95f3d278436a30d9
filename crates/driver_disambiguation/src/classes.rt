//! Classes of cites that print alike.

ghost use Rattle.std.specs.Prelude.{◌≡◌, ◌<◌, ◌==◌, nat_eq, not, if◌then◌else◌, ℕ, All, [], ◌∷◌, ◌++◌, length, map, replicate, IfOk, OnOk};
ghost use Rattle.std.specs.List.{flat_map, list_any, zip};
ghost use Rattle.driver_disambiguation.specs.Classes as classes;
ghost use Rattle.driver_disambiguation.specs.Classes.{is_mixed};
ghost use Rattle.driver_disambiguation.specs.Grouping.{allowing, if_mixed, of_number, put_where, second_where, seconds, under};
ghost use Rattle.driver_disambiguation.specs.Numbered.{AreNumbered};
ghost use Rattle.driver_names.specs.Views.{printed_view, class_view};

use crate::hashed_text::HashedText;
use driver_names::Printed;
use std::alloc::{AllocError, Global};
use std::collections::BTreeMap;

/// Cites that may be alike to those of other entries, in groups of those that print one text.
#[derive(Drop)]
struct Groups<'a> {
    /// The cites of each group, by its number.
    members: Vec<Vec<&'a Printed>>,
    /// The numbers of the groups of two cites or more, in the order of their second ones.
    shared: Vec<usize>,
}

/// The classes: cites that may be alike to those of other entries, in parts of those that print alike, in the order of their second
/// members. Cites of one entry alone are no class.
pub(crate) fn classes<'a>(
    alloc: Global,
    texts: &BTreeMap<HashedText, usize>,
    numbers: &[usize],
    cites: &'a [Printed],
) -> Result<Vec<Vec<&'a Printed>>, AllocError>
    requires { AreNumbered texts.now numbers.now cites.now }
    ensures { IfOk result (λ cs. map (λ c. class_view c.items) cs.items
        ≡ classes.classes (map printed_view cites.now)) }
{
    let groups = grouped(alloc, texts.len(), numbers, cites)?;
    mixed_parts(alloc, groups.members.as_slice(), groups.shared.as_slice())
}

/// The cites that may be alike to those of other entries, in so many groups by their numbers.
fn grouped<'a>(
    alloc: Global,
    count: usize,
    numbers: &[usize],
    cites: &'a [Printed],
) -> Result<Groups<'a>, AllocError>
    requires len { length numbers.now ≡ length cites.now }
    requires below { All (λ n. n < count) numbers.now }
    ensures members { IfOk result (λ g. (n : ℕ) → map (λ s. s.now) (under g.members.items n)
        ≡ of_number n (allowing (zip numbers.now cites.now))) }
    ensures shared { IfOk result (λ g. g.shared.items
        ≡ seconds (allowing (zip numbers.now cites.now))) }
    ensures len { IfOk result (λ g. length g.members.items ≡ count) }
{
    let mut members = no_groups(alloc, count)?;
    let mut shared = Vec::new(alloc);
    for (index, cite) in cites.iter().enumerate() {
        let is_wanted = cite.may_be_alike();
        add_where(&mut members, &mut shared, numbers[index], cite, is_wanted)?;
    }
    Ok(Groups { members, shared })
}

/// So many groups without cites.
fn no_groups<'a>(alloc: Global, count: usize) -> Result<Vec<Vec<&'a Printed>>, AllocError>
    ensures { IfOk result (λ gs. map (λ g. g.items) gs.items ≡ replicate count []) }
{
    let mut groups = Vec::with_capacity(alloc, count)?;
    for _group in 0..count {
        groups.push(Vec::new(alloc))?;
    }
    Ok(groups)
}

/// Adds a cite to the group of its number, where it is wanted. Where it is the second one there, the number is appended to `shared`.
fn add_where<'a>(
    members: &mut Vec<Vec<&'a Printed>>,
    shared: &mut Vec<usize>,
    number: usize,
    cite: &'a Printed,
    is_wanted: bool,
) -> Result<(), AllocError>
    requires { number < length members.old.items }
    ensures members { OnOk result ((n : ℕ) → under members.new.items n
        ≡ under members.old.items n ++ put_where is_wanted number cite.entry n) }
    ensures shared { OnOk result (shared.new.items
        ≡ shared.old.items ++ second_where is_wanted number (under members.old.items number)) }
    ensures len { length members.new.items ≡ length members.old.items }
{
    if is_wanted {
        add(members, shared, number, cite)?;
    }
    Ok(())
}

/// Adds a cite to the group of its number. Where it is the second one there, the number is appended to `shared`.
fn add<'a>(
    members: &mut Vec<Vec<&'a Printed>>,
    shared: &mut Vec<usize>,
    number: usize,
    cite: &'a Printed,
) -> Result<(), AllocError>
    requires { number < length members.old.items }
    ensures members { OnOk result ((n : ℕ) → under members.new.items n
        ≡ under members.old.items n ++ (if nat_eq n number then cite.entry ∷ [] else [])) }
    ensures shared { OnOk result (shared.new.items ≡ shared.old.items
        ++ (if length (under members.old.items number) == 1 then number ∷ [] else [])) }
    ensures len { length members.new.items ≡ length members.old.items }
{
    if members[number].len() == 1 {
        shared.push(number)?;
    }
    members[number].push(cite)?;
    Ok(())
}

/// Groups by their numbers, but for those of one entry alone.
fn mixed_parts<'a>(
    alloc: Global,
    groups: &[Vec<&'a Printed>],
    numbers: &[usize],
) -> Result<Vec<Vec<&'a Printed>>, AllocError>
    requires { All (λ n. n < length groups.now) numbers.now }
    ensures { IfOk result (λ ps. map (λ p. p.items) ps.items
        ≡ flat_map if_mixed (map (under groups.now) numbers.now)) }
{
    let mut parts = Vec::new(alloc);
    for number in numbers {
        push_mixed(&mut parts, &groups[*number])?;
    }
    Ok(parts)
}

/// Appends a group, where its cites are of more than one entry.
fn push_mixed<'a>(
    parts: &mut Vec<Vec<&'a Printed>>,
    group: &Vec<&'a Printed>,
) -> Result<(), AllocError>
    ensures { OnOk result (map (λ p. p.items) parts.new.items
        ≡ map (λ p. p.items) parts.old.items ++ if_mixed group.now.items) }
{
    if is_mixed(group.as_slice()) {
        parts.push(group.clone()?)?;
    }
    Ok(())
}

/// Whether cites are of more than one entry.
fn is_mixed(part: &[&Printed]) -> bool
    ensures { result ≡ is_mixed (class_view part.now) }
{
    match part.split_first() {
        Some((first, others)) => is_of_another(first.cite.entry, others),
        None => false,
    }
}

/// Whether some cite is of another entry.
fn is_of_another(entry: usize, cites: &[&Printed]) -> bool
    ensures { result ≡ list_any (λ s. not (s.entry == entry)) (class_view cites.now) }
{
    cites.iter().any(|cite| cite.cite.entry != entry)
}
