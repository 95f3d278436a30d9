//! What the names of selectors are bound to.

ghost use Rattle.std.specs.Prelude.{◌≡◌, ◌∷◌, ◌++◌, ◌<◌, ◌&&◌, [], length, map, remove, slice_get, IfOk, IfSome, Some};
ghost use Rattle.std.specs.Option.{option_map};
ghost use Rattle.std.specs.List.{list_any};
ghost use Rattle.literature_entries.specs.Views.{parents};
ghost use Rattle.laws.specs.Text.{text, characters};
ghost use Rattle.laws.specs.Borrowed.{borrowed};
ghost use Rattle.literature.specs.Holding.{meaning, each_takes, take_first};
ghost use Rattle.literature.specs.Bindings.{binds, of_first, each_binds, taken_binds};
ghost use Rattle.literature.specs.Found.{Adds, all_named, side_view};
ghost use Rattle.literature.specs.Views.{tree_view};

use crate::holding::{has_each, is_of};
use crate::node::Node;
use literature_entries::Entry;
use std::alloc::{AllocError, Global};

/// A name and the entry that it is bound to.
#[derive(Clone, Copy)]
pub(crate) struct Named<'s, 'e> {
    pub(crate) name: &'s str,
    pub(crate) entry: &'e Entry,
}

/// Each of these returns whether the selector holds, and if so adds what it binds.
impl Node {
    /// Binds names at an entry.
    #[cycle(binding)]
    pub(crate) fn bind<'s, 'e>(
        &'s self,
        entry: &'e Entry,
        found: &mut Vec<Named<'s, 'e>>,
    ) -> Result<bool, AllocError>
        ensures { IfOk result (Adds ((meaning (tree_view self.now)).at entry.now)
            ((binds (tree_view self.now)).at entry.now) found.old.items found.new.items) }
    {
        match self {
            Node::Any => Ok(true),
            Node::Entry(entry_type) => Ok(is_of(entry, entry_type)),
            Node::Not(negated) => Ok(!negated.holds(entry)),
            Node::Binding(name, bound) => bound.bind_name(name.as_str(), entry, found),
            Node::Attributes(of, names) => {
                if !has_each(entry, names.as_slice()) {
                    return Ok(false);
                }
                of.bind(entry, found)
            }
            Node::Alternatives(sides) => bind_first_side(sides.as_slice(), entry, found),
            Node::Multi(_) => Ok(false),
            Node::Ancestry(of, above) => bind_ancestry(of, above, entry, found),
        }
    }

    /// Binds the name to the entry, and the selector's own names at it.
    #[cycle(binding)]
    fn bind_name<'s, 'e>(
        &'s self,
        name: &'s str,
        entry: &'e Entry,
        found: &mut Vec<Named<'s, 'e>>,
    ) -> Result<bool, AllocError>
        ensures { IfOk result (Adds ((meaning (tree_view self.now)).at entry.now)
            ((name.now, entry.now) ∷ (binds (tree_view self.now)).at entry.now)
            found.old.items found.new.items) }
    {
        let before = found.len();
        found.push(Named { name, entry })?;
        let holds = self.bind(entry, found)?;
        if !holds {
            found.truncate(before);
        }
        Ok(holds)
    }

    /// Binds names at the parents of an entry.
    #[cycle(binding)]
    fn bind_above<'s, 'e>(
        &'s self,
        parents: &'e [Entry],
        found: &mut Vec<Named<'s, 'e>>,
    ) -> Result<bool, AllocError>
        ensures { IfOk result (Adds ((meaning (tree_view self.now)).above parents.now)
            ((binds (tree_view self.now)).above parents.now) found.old.items found.new.items) }
    {
        match self {
            Node::Not(negated) => Ok(!negated.holds_above(parents)),
            Node::Alternatives(sides) => bind_first_side_above(sides.as_slice(), parents, found),
            Node::Multi(members) => bind_each(members.as_slice(), parents, found),
            Node::Any
            | Node::Entry(_)
            | Node::Binding(_, _)
            | Node::Attributes(_, _)
            | Node::Ancestry(_, _) => self.bind_at_first(parents, found),
        }
    }

    /// Binds names at the first of the entries at which the selector holds.
    #[cycle(binding)]
    fn bind_at_first<'s, 'e>(
        &'s self,
        entries: &'e [Entry],
        found: &mut Vec<Named<'s, 'e>>,
    ) -> Result<bool, AllocError>
        ensures { IfOk result (Adds (list_any (meaning (tree_view self.now)).at entries.now)
            (of_first (meaning (tree_view self.now)).at (binds (tree_view self.now)).at entries.now)
            found.old.items found.new.items) }
    {
        for entry in entries {
            if self.bind(entry, found)? {
                return Ok(true);
            }
        }
        Ok(false)
    }

    /// The index of the first of the entries at which it holds; what is bound there is added.
    #[cycle(binding)]
    fn bind_first<'s, 'e>(
        &'s self,
        entries: &[&'e Entry],
        found: &mut Vec<Named<'s, 'e>>,
    ) -> Result<Option<usize>, AllocError>
        ensures taken { IfOk result (λ o. option_map (λ p. p.1)
            (take_first (meaning (tree_view self.now)).at (borrowed entries.now))
            ≡ option_map (remove (borrowed entries.now)) o) }
        ensures within { IfOk result (λ o. IfSome o (λ index. index < length entries.now)) }
        ensures added { IfOk result (λ o. all_named found.new.items
            ≡ all_named found.old.items ++ taken_binds (binds (tree_view self.now)).at
            (λ es. []) (take_first (meaning (tree_view self.now)).at (borrowed entries.now))) }
    {
        for (index, entry) in entries.iter().enumerate() {
            if self.bind(*entry, found)? {
                return Ok(Some(index));
            }
        }
        Ok(None)
    }
}

/// Binds names where the first selector holds at the entry and its parents satisfy the second.
#[cycle(binding)]
fn bind_ancestry<'s, 'e>(
    of: &'s Node,
    above: &'s Node,
    entry: &'e Entry,
    found: &mut Vec<Named<'s, 'e>>,
) -> Result<bool, AllocError>
    ensures { IfOk result (Adds ((meaning (tree_view of.now)).at entry.now
        && (meaning (tree_view above.now)).above (parents entry.now))
        ((binds (tree_view of.now)).at entry.now ++ (binds (tree_view above.now)).above
        (parents entry.now)) found.old.items found.new.items) }
{
    let before = found.len();
    if !of.bind(entry, found)? {
        return Ok(false);
    }
    let holds = above.bind_above(entry.parents(), found)?;
    if !holds {
        found.truncate(before);
    }
    Ok(holds)
}

/// Binds names by the first of the selectors that holds at the entry.
#[cycle(binding)]
#[tactic(auto, using(crate::proofs::TreesWeights::heft_at))]
fn bind_first_side<'s, 'e>(
    selectors: &'s [Node],
    entry: &'e Entry,
    found: &mut Vec<Named<'s, 'e>>,
) -> Result<bool, AllocError>
    ensures { IfOk result (Adds (list_any (λ x. (meaning (tree_view x)).at entry.now) selectors.now)
        (of_first (λ x. (meaning (tree_view x)).at entry.now)
        (λ x. (binds (tree_view x)).at entry.now) selectors.now) found.old.items found.new.items) }
{
    for selector in selectors {
        if selector.bind(entry, found)? {
            return Ok(true);
        }
    }
    Ok(false)
}

/// Binds names by the first of the selectors that the parents satisfy.
#[cycle(binding)]
#[tactic(auto, using(crate::proofs::TreesWeights::heft_at))]
fn bind_first_side_above<'s, 'e>(
    selectors: &'s [Node],
    parents: &'e [Entry],
    found: &mut Vec<Named<'s, 'e>>,
) -> Result<bool, AllocError>
    ensures { IfOk result
        (Adds (list_any (λ x. (meaning (tree_view x)).above parents.now) selectors.now)
        (of_first (λ x. (meaning (tree_view x)).above parents.now) (λ x.
        (binds (tree_view x)).above parents.now) selectors.now) found.old.items found.new.items) }
{
    for selector in selectors {
        if selector.bind_above(parents, found)? {
            return Ok(true);
        }
    }
    Ok(false)
}

/// Binds names by each of the selectors in turn, at the first parent that is left and at which it holds.
#[cycle(binding)]
#[tactic(auto, using(crate::proofs::TreesWeights::heft_at))]
fn bind_each<'s, 'e>(
    members: &'s [Node],
    parents: &'e [Entry],
    found: &mut Vec<Named<'s, 'e>>,
) -> Result<bool, AllocError>
    ensures { IfOk result
        (Adds (each_takes (map (λ x. (meaning (tree_view x)).at) members.now) parents.now)
        (each_binds (map side_view members.now) parents.now) found.old.items found.new.items) }
{
    let before = found.len();
    let mut left = borrow_each(*found.allocator(), parents)?;
    for member in members {
        match member.bind_first(left.as_slice(), found)? {
            Some(index) => {
                left.remove(index);
            }
            None => {
                found.truncate(before);
                return Ok(false);
            }
        }
    }
    Ok(true)
}

/// References to each of the entries.
fn borrow_each(alloc: Global, entries: &[Entry]) -> Result<Vec<&Entry>, AllocError>
    ensures { IfOk result (λ v. borrowed v.items ≡ entries.now) }
{
    let mut all = Vec::with_capacity(alloc, entries.len())?;
    for entry in entries {
        all.push(entry)?;
    }
    Ok(all)
}
