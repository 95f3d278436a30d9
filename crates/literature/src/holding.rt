//! At which entries selectors hold. This takes no memory.

ghost use Rattle.std.specs.Prelude.{◌≡◌, ◌∷◌, map};
ghost use Rattle.std.specs.Option.{option_map};
ghost use Rattle.std.specs.List.{list_any};
ghost use Rattle.literature.specs.Holding.{meaning, is_of, has_each, each_takes, take_first};
ghost use Rattle.literature.specs.Left.{left_of, is_among, taken_indices};
ghost use Rattle.literature.specs.Views.{tree_view};
ghost use Rattle.laws.specs.Text.{characters};

use crate::node::Node;
use literature_entries::Entry;
use literature_values::EntryType;

/// The index of a parent that was taken, and those that were taken before.
#[derive(Clone, Copy)]
struct Taken<'t> {
    index: usize,
    before: Option<&'t Taken<'t>>,
}

impl Node {
    /// Whether it holds at the entry.
    #[cycle(holding)]
    pub(crate) fn holds(&self, entry: &Entry) -> bool
        ensures { result ≡ (meaning (tree_view self.now)).at entry.now }
    {
        match self {
            Node::Any => true,
            Node::Entry(entry_type) => is_of(entry, entry_type),
            Node::Not(negated) => !negated.holds(entry),
            Node::Binding(_, bound) => bound.holds(entry),
            Node::Attributes(of, names) => of.holds(entry) && has_each(entry, names.as_slice()),
            Node::Alternatives(sides) => one_holds(sides.as_slice(), entry),
            Node::Multi(_) => false,
            Node::Ancestry(of, above) => of.holds(entry) && above.holds_above(entry.parents()),
        }
    }

    /// Whether an entry's parents satisfy it.
    #[cycle(holding)]
    #[tactic(auto, using(crate::proofs::HoldingMembers::above_multi, crate::proofs::HoldingMembers::above_too_few))]
    pub(crate) fn holds_above(&self, parents: &[Entry]) -> bool
        ensures { result ≡ (meaning (tree_view self.now)).above parents.now }
    {
        match self {
            Node::Not(negated) => !negated.holds_above(parents),
            Node::Alternatives(sides) => one_holds_above(sides.as_slice(), parents),
            Node::Multi(members) => {
                members.len() <= parents.len() && each_takes(members.as_slice(), parents, None)
            }
            Node::Any
            | Node::Entry(_)
            | Node::Binding(_, _)
            | Node::Attributes(_, _)
            | Node::Ancestry(_, _) => self.holds_at_one(parents),
        }
    }

    /// Whether it holds at one of the entries.
    #[cycle(holding)]
    fn holds_at_one(&self, entries: &[Entry]) -> bool
        ensures { result ≡ list_any (meaning (tree_view self.now)).at entries.now }
    {
        for entry in entries {
            if self.holds(entry) {
                return true;
            }
        }
        false
    }

    /// The index of the first entry that was not taken and at which it holds.
    #[cycle(holding)]
    fn free_index(&self, entries: &[Entry], taken: Option<&Taken<'_>>) -> Option<usize>
        ensures { option_map (λ p. p.1) (take_first (meaning (tree_view self.now)).at
            (left_of (taken_indices taken.entry) entries.now))
            ≡ option_map (λ index. left_of (index ∷ taken_indices taken.entry) entries.now) result }
    {
        for (index, entry) in entries.iter().enumerate() {
            if !is_taken(taken, index) && self.holds(entry) {
                return Some(index);
            }
        }
        None
    }
}

/// Whether the entry is of the type.
pub(crate) fn is_of(entry: &Entry, wanted: &EntryType) -> bool
    ensures { result ≡ is_of wanted.now entry.now }
{
    wanted == entry.entry_type()
}

/// Whether the entry has each of the named fields.
pub(crate) fn has_each(entry: &Entry, names: &[String]) -> bool
    ensures { result ≡ has_each (map characters names.now) entry.now }
{
    for name in names {
        if !entry.has(name.as_str()) {
            return false;
        }
    }
    true
}

/// Whether one of the selectors holds at the entry.
#[cycle(holding)]
#[tactic(auto, using(crate::proofs::TreesWeights::heft_at))]
fn one_holds(selectors: &[Node], entry: &Entry) -> bool
    ensures { result ≡ list_any (λ x. (meaning (tree_view x)).at entry.now) selectors.now }
{
    for selector in selectors {
        if selector.holds(entry) {
            return true;
        }
    }
    false
}

/// Whether the parents satisfy one of the selectors.
#[cycle(holding)]
#[tactic(auto, using(crate::proofs::TreesWeights::heft_at))]
fn one_holds_above(selectors: &[Node], parents: &[Entry]) -> bool
    ensures { result ≡ list_any (λ x. (meaning (tree_view x)).above parents.now) selectors.now }
{
    for selector in selectors {
        if selector.holds_above(parents) {
            return true;
        }
    }
    false
}

/// Whether the index was taken.
fn is_taken(taken: Option<&Taken<'_>>, index: usize) -> bool
    ensures { result ≡ is_among index (taken_indices taken.entry) }
{
    let mut next = taken;
    while let Some(here) = next {
        if here.index == index {
            return true;
        }
        next = here.before;
    }
    false
}

/// Whether each of the selectors in turn can take the first parent that was not taken and at which it holds. There are
/// no more calls in one another than parents; to find out which parents are taken costs at most the square of the
/// number of members times the number of parents.
#[cycle(holding)]
fn each_takes(members: &[Node], parents: &[Entry], taken: Option<&Taken<'_>>) -> bool
    ensures { result ≡ each_takes (map (λ x. (meaning (tree_view x)).at) members.now)
        (left_of (taken_indices taken.entry) parents.now) }
{
    let Some((first, others)) = members.split_first() else {
        return true;
    };
    match first.free_index(parents, taken) {
        Some(index) => {
            let now = Taken {
                index,
                before: taken,
            };
            each_takes(others, parents, Some(&now))
        }
        None => false,
    }
}
