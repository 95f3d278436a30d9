//! Nodes, with the nodes in them.

ghost use Rattle.std.specs.Prelude.{◌≡◌, ℕ, List, Some, map, IfOk, codes};
ghost use Rattle.std.specs.Option.{option_map};
ghost use Rattle.rendering_style.specs.Views.{group_node_view, node_view, branch_view};
ghost use Rattle.xml_tree.specs.Trees.{content_of};
ghost use Rattle.xml_tree.specs.Views.{element_view, children_of};
ghost use Rattle.xml_schema.specs.Faults.{name_of};
ghost use Rattle.csl_words.specs.Elements.{content_in};
ghost use Rattle.csl_nodes.specs.Nodes.{group_node, node_by, is_branch, node_of, nodes_in, nodes_inside, nodes_under, branch_of, branches_in, names_whole, choose_whole, group_whole};
ghost use Rattle.csl_nodes.specs.Views.{words_view};

use crate::conditions::condition;
use crate::leaves::{date_node, label_node, number_node, text_node};
use crate::looks::look;
use crate::names::names_of;
use crate::pushing::push_if;
use crate::words::Words;
use csl_words::{children_of, is_called, named_by, part_called, printed};
use rendering_style::{ChooseBranch, Group, Node};
use std::alloc::{AllocError, Global};
use xml_tree::Element;

/// What an element is that prints something.
#[derive(Clone, Copy)]
pub(crate) enum Printing {
    Text,
    Number,
    Label,
    Date,
    Names,
    Choose,
    Group,
}

/// The elements that print something.
pub(crate) const PRINTING: &[(&str, Printing)] = &[
    ("text", Printing::Text),
    ("number", Printing::Number),
    ("label", Printing::Label),
    ("date", Printing::Date),
    ("names", Printing::Names),
    ("choose", Printing::Choose),
    ("group", Printing::Group),
];

/// A group's look, and what stands between its children.
fn group_of(alloc: Global, element: &Element<'_>) -> Result<Group, AllocError>
    ensures { IfOk result (λ g. group_node_view g ≡ group_node (element_view element.now)) }
{
    let delimiter = printed(alloc, "delimiter", element)?;
    let look = look(alloc, element)?;
    Ok(Group { delimiter, look })
}

/// Whether an element is a branch with a condition.
fn is_branch(element: &Element<'_>) -> bool
    ensures { result ≡ is_branch (name_of (element_view element.now)) }
{
    is_called("if", element) || is_called("else-if", element)
}

/// The node of an element, if it is one that prints something. It recurses as deep as elements are nested, so no branch keeps a node of its own.
#[cycle(reading)]
fn node_of(
    alloc: Global,
    unlisted: &Words,
    element: &Element<'_>,
) -> Result<Option<Node>, AllocError>
    ensures { IfOk result (λ n. option_map node_view n
        ≡ node_of (words_view unlisted.now) (element_view element.now)) }
{
    match named_by(PRINTING, element) {
        Some(Printing::Text) => text_node(alloc, unlisted, element),
        Some(Printing::Number) => number_node(alloc, element),
        Some(Printing::Label) => label_node(alloc, element),
        Some(Printing::Date) => date_node(alloc, element),
        Some(Printing::Names) => names_whole(alloc, unlisted, element),
        Some(Printing::Choose) => choose_whole(alloc, unlisted, element),
        Some(Printing::Group) => group_whole(alloc, unlisted, element),
        None => Ok(None),
    }
}

/// Names, and their substitute.
#[cycle(reading)]
fn names_whole(
    alloc: Global,
    unlisted: &Words,
    element: &Element<'_>,
) -> Result<Option<Node>, AllocError>
    ensures { IfOk result (λ n. option_map node_view n
        ≡ Some (names_whole (words_view unlisted.now) (element_view element.now))) }
{
    let names = names_of(alloc, element)?;
    let substitute = nodes_under(alloc, unlisted, "substitute", element)?;
    Ok(Some(Node::Names(names, substitute)))
}

/// Branches, and the nodes that stand where no condition is met.
#[cycle(reading)]
fn choose_whole(
    alloc: Global,
    unlisted: &Words,
    element: &Element<'_>,
) -> Result<Option<Node>, AllocError>
    ensures { IfOk result (λ n. option_map node_view n
        ≡ Some (choose_whole (words_view unlisted.now) (element_view element.now))) }
{
    let branches = branches_in(alloc, unlisted, element)?;
    let otherwise = nodes_under(alloc, unlisted, "else", element)?;
    Ok(Some(Node::Choose(branches, otherwise)))
}

/// A group, and its children.
#[cycle(reading)]
fn group_whole(
    alloc: Global,
    unlisted: &Words,
    element: &Element<'_>,
) -> Result<Option<Node>, AllocError>
    ensures { IfOk result (λ n. option_map node_view n
        ≡ Some (group_whole (words_view unlisted.now) (element_view element.now))) }
{
    let group = group_of(alloc, element)?;
    let inside = nodes_inside(alloc, unlisted, element)?;
    Ok(Some(Node::Group(group, inside)))
}

/// The nodes in an element, in their order. The words of terms that no list has are given. It recurses as deep as elements are nested.
///
/// # Errors
/// Where a request for memory was refused.
#[cycle(reading)]
#[tactic(auto, using(crate::proofs::Weights::found_lighter, crate::proofs::Weights::child_lighter))]
pub fn nodes_inside(
    alloc: Global,
    unlisted: &Words,
    element: &Element<'_>,
) -> Result<Vec<Node>, AllocError>
    ensures { IfOk result (λ v. map node_view v.items
        ≡ nodes_in (words_view unlisted.now) (content_in (element_view element.now))) }
{
    let children = children_of(element);
    let mut nodes = Vec::with_capacity(alloc, children.len())?;
    for child in children {
        let node = node_of(alloc, unlisted, &child.1)?;
        push_if(&mut nodes, node)?;
    }
    Ok(nodes)
}

/// The nodes in the first element of that name in an element.
#[cycle(reading)]
#[tactic(auto, using(crate::proofs::Weights::found_lighter, crate::proofs::Weights::child_lighter))]
fn nodes_under(
    alloc: Global,
    unlisted: &Words,
    part: &str,
    element: &Element<'_>,
) -> Result<Vec<Node>, AllocError>
    ensures { IfOk result (λ v. map node_view v.items
        ≡ nodes_under (words_view unlisted.now) part.now (content_in (element_view element.now))) }
{
    match part_called(part, element) {
        Some(found) => nodes_inside(alloc, unlisted, found),
        None => Ok(Vec::new(alloc)),
    }
}

/// The branch that an element is, if it is one.
#[cycle(reading)]
fn branch_of(
    alloc: Global,
    unlisted: &Words,
    element: &Element<'_>,
) -> Result<Option<ChooseBranch>, AllocError>
    ensures { IfOk result (λ b. option_map branch_view b
        ≡ branch_of (words_view unlisted.now) (element_view element.now)) }
{
    if !is_branch(element) {
        return Ok(None);
    }
    let condition = condition(alloc, element)?;
    let children = nodes_inside(alloc, unlisted, element)?;
    Ok(Some(ChooseBranch {
        condition,
        children,
    }))
}

/// The branches of a choose, in their order.
#[cycle(reading)]
#[tactic(auto, using(crate::proofs::Weights::found_lighter, crate::proofs::Weights::child_lighter))]
fn branches_in(
    alloc: Global,
    unlisted: &Words,
    element: &Element<'_>,
) -> Result<Vec<ChooseBranch>, AllocError>
    ensures { IfOk result (λ v. map branch_view v.items
        ≡ branches_in (words_view unlisted.now) (content_in (element_view element.now))) }
{
    let children = children_of(element);
    let mut branches = Vec::with_capacity(alloc, children.len())?;
    for child in children {
        let branch = branch_of(alloc, unlisted, &child.1)?;
        push_if(&mut branches, branch)?;
    }
    Ok(branches)
}
