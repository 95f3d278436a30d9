//! Macros by their names, and which of them call which.

ghost use Rattle.std.specs.Prelude.{◌≡◌, ◌++◌, ℕ, List, Some, None, map, filter_map, if◌then◌else◌, IfOk, OnOk};
ghost use Rattle.std.specs.Option.{option_or, option_to_list};
ghost use Rattle.std.specs.Str.{bytes_eq};
ghost use Rattle.std.specs.BTreeMap.{get_by_text};
ghost use Rattle.reference_graph.specs.References.{lists};
ghost use Rattle.rendering_style.specs.Nodes.{Nodes, TextLook};
ghost use Rattle.rendering_style.specs.Opening.{calls, calls_in, calls_of_branches, references};
ghost use Rattle.rendering_style.specs.Tables.{IsIndex};
ghost use Rattle.rendering_style.specs.Views.{macro_view, node_view, nodes_view, text_node_view, branch_view, branches_of};

use crate::node::{ChooseBranch, Node, TextTarget};
use crate::parts::Macro;
use std::alloc::{AllocError, Global};
use std::collections::BTreeMap;

/// The index of the first macro of each name.
pub(crate) fn table_of(
    alloc: Global,
    macros: &[Macro],
) -> Result<BTreeMap<String, usize>, AllocError>
    ensures { IfOk result (λ table. IsIndex table (map macro_view macros.now)) }
{
    let mut table = BTreeMap::new(alloc);
    for index in 0..macros.len() {
        bind(alloc, &mut table, macros[index].name.as_str(), index)?;
    }
    Ok(table)
}

/// Binds a name to an index, unless it is bound already.
fn bind(
    alloc: Global,
    table: &mut BTreeMap<String, usize>,
    name: &str,
    index: usize,
) -> Result<(), AllocError>
    ensures { OnOk result ((q : List ℕ) → get_by_text table.new q
        ≡ option_or (get_by_text table.old q) (if bytes_eq name.now q then Some index else None)) }
{
    if table.contains_key(name) {
        return Ok(());
    }
    table.insert(String::from_str(alloc, name)?, index)?;
    Ok(())
}

/// Of each macro, the indices of the macros that it calls.
pub(crate) fn references_of(
    alloc: Global,
    table: &BTreeMap<String, usize>,
    macros: &[Macro],
) -> Result<Vec<Vec<usize>>, AllocError>
    requires { IsIndex table.now (map macro_view macros.now) }
    ensures { IfOk result (λ v. lists v.items ≡ references (map macro_view macros.now)) }
{
    let mut all = Vec::with_capacity(alloc, macros.len())?;
    for called in macros {
        all.push(calls_of(alloc, table, &called.nodes)?)?;
    }
    Ok(all)
}

/// The indices of the macros that nodes call.
fn calls_of(
    alloc: Global,
    table: &BTreeMap<String, usize>,
    nodes: &[Node],
) -> Result<Vec<usize>, AllocError>
    ensures { IfOk result (λ v. v.items
        ≡ filter_map (get_by_text table.now) (calls (nodes_view nodes.now))) }
{
    let mut found = Vec::new(alloc);
    push_calls(nodes, table, &mut found)?;
    Ok(found)
}

/// Appends the indices of the macros that nodes call.
#[cycle(calls)]
fn push_calls(
    nodes: &[Node],
    table: &BTreeMap<String, usize>,
    found: &mut Vec<usize>,
) -> Result<(), AllocError>
    ensures { OnOk result (found.new.items
        ≡ found.old.items ++ filter_map (get_by_text table.now) (calls (nodes_view nodes.now))) }
{
    for node in nodes {
        push_calls_in(node, table, found)?;
    }
    Ok(())
}

/// Appends the indices of the macros that a node calls.
#[cycle(calls)]
fn push_calls_in(
    node: &Node,
    table: &BTreeMap<String, usize>,
    found: &mut Vec<usize>,
) -> Result<(), AllocError>
    ensures { OnOk result (found.new.items
        ≡ found.old.items ++ filter_map (get_by_text table.now) (calls_in (node_view node.now))) }
{
    match node {
        Node::Text(text) => push_target(&text.target, table, found),
        Node::Number(_) | Node::Label(_) | Node::Date(_) => Ok(()),
        Node::Names(_, substitute) => push_calls(substitute, table, found),
        Node::Choose(branches, otherwise) => {
            push_calls_of_branches(branches, table, found)?;
            push_calls(otherwise, table, found)
        }
        Node::Group(_, children) => push_calls(children, table, found),
    }
}

/// Appends the indices of the macros that the nodes of branches call.
#[cycle(calls)]
fn push_calls_of_branches(
    branches: &[ChooseBranch],
    table: &BTreeMap<String, usize>,
    found: &mut Vec<usize>,
) -> Result<(), AllocError>
    ensures { OnOk result ((xs : Nodes)
        → found.new.items ++ filter_map (get_by_text table.now) (calls xs)
        ≡ found.old.items ++ filter_map (get_by_text table.now)
        (calls_of_branches (branches_of (map branch_view branches.now) xs))) }
{
    for branch in branches {
        push_calls(&branch.children, table, found)?;
    }
    Ok(())
}

/// Appends the index of the macro that a text node calls, if it calls one.
fn push_target(
    target: &TextTarget,
    table: &BTreeMap<String, usize>,
    found: &mut Vec<usize>,
) -> Result<(), AllocError>
    ensures { OnOk result ((look : TextLook) → found.new.items ≡ found.old.items
        ++ filter_map (get_by_text table.now) (calls_in (text_node_view target.now look))) }
{
    match target {
        TextTarget::Macro(name) => push_index(table.get(name.as_str()).copied(), found),
        TextTarget::Variable(_, _) | TextTarget::Term(_, _, _) | TextTarget::Value(_) => Ok(()),
    }
}

fn push_index(index: Option<usize>, found: &mut Vec<usize>) -> Result<(), AllocError>
    ensures { OnOk result (found.new.items ≡ found.old.items ++ option_to_list index) }
{
    if let Some(index) = index {
        found.push(index)?;
    }
    Ok(())
}
