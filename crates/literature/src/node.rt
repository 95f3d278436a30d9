//! The trees that texts of selectors spell.

ghost use Rattle.std.specs.Prelude.{◌≡◌, IfOk, map};
ghost use Rattle.std.specs.Str.{chars};
ghost use Rattle.literature.specs.Trees.{Tree, one_or_alternatives, one_or_multi, with_attributes};
ghost use Rattle.literature.specs.Trees as trees;
ghost use Rattle.literature.specs.Views.{tree_view};
ghost use Rattle.laws.specs.Text.{characters};

use literature_values::EntryType;
use std::alloc::{AllocError, Global};

/// What is asked of an entry and of its parents.
#[derive(Debug, PartialEq, Eq)]
pub(crate) enum Node {
    /// `*`: every entry.
    Any,
    /// An entry of the type.
    Entry(EntryType),
    /// `!x`: what `x` does not ask.
    Not(Box<Node>),
    /// `name:x`: as `x`, and what it holds at gets the name.
    Binding(String, Box<Node>),
    /// `x[name, name]`: as `x`, and the entry has each of the one or more fields. Several lists one after the other are one.
    Attributes(Box<Node>, Vec<String>),
    /// `x | y`: one of the two or more.
    Alternatives(Vec<Node>),
    /// `x & y`: of two or more each in turn takes the first parent that is left and at which it holds.
    Multi(Vec<Node>),
    /// `x > y`: `x` of the entry and `y` of its parents.
    Ancestry(Box<Node>, Box<Node>),
}

impl Drop for Node {
    fn drop(self) {
        match self {
            Node::Any => {}
            Node::Entry(_) => {}
            Node::Not(_) => {}
            Node::Binding(_, _) => {}
            Node::Attributes(_, _) => {}
            Node::Alternatives(_) => {}
            Node::Multi(_) => {}
            Node::Ancestry(_, _) => {}
        }
    }
}

/// `!x`.
#[tactic(auto, using(crate::proofs::Views::view_not))]
pub(crate) fn not(alloc: Global, negated: Node) -> Result<Node, AllocError>
    ensures { IfOk result (λ s. tree_view s ≡ trees.Not (tree_view negated)) }
{
    Ok(Node::Not(Box::new(alloc, negated)?))
}

/// `name:x`.
#[tactic(auto, using(crate::proofs::Views::view_binding))]
pub(crate) fn binding(alloc: Global, name: &str, bound: Node) -> Result<Node, AllocError>
    ensures { IfOk result (λ s. tree_view s ≡ trees.Binding (chars name.now) (tree_view bound)) }
{
    let name = String::from_str(alloc, name)?;
    Ok(Node::Binding(name, Box::new(alloc, bound)?))
}

/// `x > y`.
#[tactic(auto, using(crate::proofs::Views::view_ancestry))]
pub(crate) fn ancestry(alloc: Global, of: Node, above: Node) -> Result<Node, AllocError>
    ensures { IfOk result (λ s. tree_view s ≡ trees.Ancestry (tree_view of) (tree_view above)) }
{
    let of = Box::new(alloc, of)?;
    Ok(Node::Ancestry(of, Box::new(alloc, above)?))
}

/// `x[names]`, or `x` where there are no names.
#[tactic(auto, using(crate::proofs::Views::view_attributes))]
pub(crate) fn with_attributes(
    alloc: Global,
    selector: Node,
    names: Vec<String>,
) -> Result<Node, AllocError>
    ensures { IfOk result (λ s. tree_view s
        ≡ with_attributes (tree_view selector) (map characters names.items)) }
{
    if names.is_empty() {
        return Ok(selector);
    }
    Ok(Node::Attributes(Box::new(alloc, selector)?, names))
}

/// `x | y` of the first and the others, or the first alone.
#[tactic(auto, using(crate::proofs::Views::view_alternatives))]
pub(crate) fn one_or_alternatives(first: Node, mut others: Vec<Node>) -> Result<Node, AllocError>
    ensures { IfOk result (λ s. tree_view s
        ≡ one_or_alternatives (tree_view first) (map tree_view others.items)) }
{
    if others.is_empty() {
        return Ok(first);
    }
    others.insert(0, first)?;
    Ok(Node::Alternatives(others))
}

/// `x & y` of the first and the others, or the first alone.
#[tactic(auto, using(crate::proofs::Views::view_multi))]
pub(crate) fn one_or_multi(first: Node, mut others: Vec<Node>) -> Result<Node, AllocError>
    ensures { IfOk result (λ s. tree_view s
        ≡ one_or_multi (tree_view first) (map tree_view others.items)) }
{
    if others.is_empty() {
        return Ok(first);
    }
    others.insert(0, first)?;
    Ok(Node::Multi(others))
}
