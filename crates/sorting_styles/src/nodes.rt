//! Nodes as they print for sorting, changed where they stand.

ghost use Rattle.std.specs.Prelude.{◌≡◌, map, OnOk};
ghost use Rattle.rendering_style.specs.Views.{branch_view, node_view};
ghost use Rattle.sorting_styles.specs.Nodes.{sorting_branch, sorting_node};

use crate::dates::change_date;
use crate::names::change_names;
use rendering_style::{ChooseBranch, Node};
use std::alloc::{AllocError, Global};

/// Makes nodes print for sorting, with all that are in them. It recurses as deep as nodes are nested.
#[cycle(changing)]
pub(crate) fn change_nodes(alloc: Global, nodes: &mut [Node]) -> Result<(), AllocError>
    ensures { OnOk result (map node_view nodes.new ≡ map sorting_node (map node_view nodes.old)) }
{
    for node in nodes.iter_mut() {
        change_node(alloc, node)?;
    }
    Ok(())
}

/// Makes a node print for sorting.
#[cycle(changing)]
fn change_node(alloc: Global, node: &mut Node) -> Result<(), AllocError>
    ensures { OnOk result (node_view node.new ≡ sorting_node (node_view node.old)) }
{
    match node {
        Node::Text(_) | Node::Number(_) | Node::Label(_) => Ok(()),
        Node::Date(date) => change_date(alloc, date),
        Node::Names(names, substitute) => {
            change_names(names);
            change_nodes(alloc, substitute)
        }
        Node::Choose(branches, otherwise) => {
            change_branches(alloc, branches)?;
            change_nodes(alloc, otherwise)
        }
        Node::Group(_, children) => change_nodes(alloc, children),
    }
}

/// Makes the nodes of branches print for sorting.
#[cycle(changing)]
fn change_branches(alloc: Global, branches: &mut [ChooseBranch]) -> Result<(), AllocError>
    ensures { OnOk result (map branch_view branches.new
        ≡ map sorting_branch (map branch_view branches.old)) }
{
    for branch in branches.iter_mut() {
        change_branch(alloc, branch)?;
    }
    Ok(())
}

/// Makes the nodes of a branch print for sorting.
#[cycle(changing)]
fn change_branch(alloc: Global, branch: &mut ChooseBranch) -> Result<(), AllocError>
    ensures { OnOk result (branch_view branch.new ≡ sorting_branch (branch_view branch.old)) }
{
    change_nodes(alloc, &mut branch.children)
}
