//! Whether nodes print the year suffix by itself.

ghost use Rattle.std.specs.Prelude.{◌≡◌, ◌||◌, suc, map};
ghost use Rattle.rendering_nodes.specs.Named as named;
ghost use Rattle.rendering_style.specs.Nodes.{Nodes, TextLook};
ghost use Rattle.rendering_style.specs.Opening.{each_branch, each_node, open_node, opened_nodes};
ghost use Rattle.rendering_style.specs.StyleViews.{style_view};
ghost use Rattle.rendering_style.specs.Views.{branch_view, branches_of, node_view, nodes_view, text_node_view};

use crate::form_admission::is_suffix_variable;
use crate::style_walk::LIMIT;
use rendering_style::{ChooseBranch, Node, Style, TextTarget};

/// Whether one of the nodes prints the year suffix by itself, in a branch that is taken or in another one, macros
/// opened.
pub fn has_suffix(style: &Style, nodes: &[Node]) -> bool
    ensures { result
        ≡ named.has_suffix (opened_nodes (style_view style.now).macros (map node_view nodes.now)) }
{
    has_suffix_below(style, LIMIT, nodes)
}

/// Whether one of the nodes does, macros opened down to so many levels of nodes.
#[cycle(suffixes)]
fn has_suffix_below(style: &Style, levels: usize, nodes: &[Node]) -> bool
    ensures { result ≡ named.has_suffix
        (each_node (open_node levels (style_view style.now).macros) (nodes_view nodes.now)) }
{
    for node in nodes {
        if has_suffix_in(style, levels, node) {
            return true;
        }
    }
    false
}

/// Whether a node does.
#[cycle(suffixes)]
fn has_suffix_in(style: &Style, levels: usize, node: &Node) -> bool
    ensures { result ≡ named.has_suffix_in
        (open_node levels (style_view style.now).macros (node_view node.now)) }
{
    if levels == 0 {
        return false;
    }
    match node {
        Node::Text(text) => has_suffix_in_text(style, levels - 1, &text.target),
        Node::Number(_) | Node::Label(_) | Node::Date(_) => false,
        Node::Names(_, substitute) => has_suffix_below(style, levels - 1, substitute),
        Node::Choose(branches, otherwise) => {
            has_suffix_in_branches(style, levels - 1, branches)
                || has_suffix_below(style, levels - 1, otherwise)
        }
        Node::Group(_, children) => has_suffix_below(style, levels - 1, children),
    }
}

/// Whether a text that prints this does.
#[cycle(suffixes)]
fn has_suffix_in_text(style: &Style, levels: usize, target: &TextTarget) -> bool
    ensures { (look : TextLook) → result ≡ named.has_suffix_in
        (open_node (suc levels) (style_view style.now).macros (text_node_view target.now look)) }
{
    match target {
        TextTarget::Variable(variable, _) => is_suffix_variable(*variable),
        TextTarget::Macro(name) => match style.macro_named(name.as_str()) {
            Some(nodes) => has_suffix_below(style, levels, nodes),
            None => false,
        },
        TextTarget::Term(_, _, _) | TextTarget::Value(_) => false,
    }
}

/// Whether a node in one of the branches does.
#[cycle(suffixes)]
fn has_suffix_in_branches(style: &Style, levels: usize, branches: &[ChooseBranch]) -> bool
    ensures { (xs : Nodes)
        → named.has_suffix_in_branches (each_branch (open_node levels (style_view style.now).macros)
        (branches_of (map branch_view branches.now) xs)) ≡ (result
        || named.has_suffix (each_node (open_node levels (style_view style.now).macros) xs)) }
{
    for branch in branches {
        if has_suffix_below(style, levels, &branch.children) {
            return true;
        }
    }
    false
}
