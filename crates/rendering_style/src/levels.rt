//! How many levels nodes have, once macros are opened. Macros are not opened for it: each has been counted before those that
//! call it.

ghost use Rattle.std.specs.Prelude.{◌≡◌, ℕ, min, max, map, nat_le, string_bytes, true, IfOk};
ghost use Rattle.std.specs.Option.{option_map_or};
ghost use Rattle.std.specs.List.{list_all};
ghost use Rattle.reference_graph.specs.References.{IsCircular};
ghost use Rattle.reference_graph.specs.Order.{IsOrder};
ghost use Rattle.rendering_style.specs.Nodes.{Nodes, TextLook};
ghost use Rattle.rendering_style.specs.Opening.{references, limit, style_fits};
ghost use Rattle.rendering_style.specs.Levels.{levels, levels_below, branch_levels};
ghost use Rattle.rendering_style.specs.Tables.{IsIndex, AreHeights, height_of};
ghost use Rattle.rendering_style.specs.Views.{macro_view, node_view, nodes_view, text_node_view, branch_view, branches_of, style_parts_view, macros_view};

use crate::node::{ChooseBranch, Node, TextTarget};
use crate::parts::{Bibliography, Layout, Macro, StyleParts};
use std::alloc::{AllocError, Global};
use std::collections::BTreeMap;

/// The most levels that a layout or a macro may have.
const LIMIT: usize = 200;

/// How many levels each macro has, or one more than may be, by an order in which each comes after those that it calls.
pub(crate) fn heights_of(
    alloc: Global,
    macros: &[Macro],
    table: &BTreeMap<String, usize>,
    order: &[usize],
) -> Result<Vec<usize>, AllocError>
    requires table { IsIndex table.now (map macro_view macros.now) }
    requires order { IsOrder (references (map macro_view macros.now)) order.now }
    requires none { (i : ℕ) → IsCircular (references (map macro_view macros.now)) i → ⊥ }
    ensures { IfOk result (λ v. AreHeights v.items (map macro_view macros.now)) }
{
    let mut heights = vec![in alloc; 0; macros.len()]?;
    for &index in order {
        heights[index] = levels(&macros[index].nodes, LIMIT + 1, table, &heights);
    }
    Ok(heights)
}

/// How many levels the nodes have, counted up to as many as there is room for.
#[cycle(levels)]
fn levels(nodes: &[Node], room: usize, table: &BTreeMap<String, usize>, heights: &[usize]) -> usize
    ensures { result ≡ min (levels (height_of table.now heights.now) (nodes_view nodes.now)) room }
{
    if room == 0 {
        return 0;
    }
    let mut most = 0;
    for node in nodes {
        most = most.max(levels_below(node, room - 1, table, heights) + 1);
    }
    most
}

/// How many levels there are below a node, counted in the same way.
#[cycle(levels)]
fn levels_below(
    node: &Node,
    room: usize,
    table: &BTreeMap<String, usize>,
    heights: &[usize],
) -> usize
    ensures { result
        ≡ min (levels_below (height_of table.now heights.now) (node_view node.now)) room }
{
    match node {
        Node::Text(text) => levels_of_target(&text.target, room, table, heights),
        Node::Number(_) | Node::Label(_) | Node::Date(_) => 0,
        Node::Names(_, substitute) => levels(substitute, room, table, heights),
        Node::Choose(branches, otherwise) => branch_levels(branches, room, table, heights).max(
            levels(otherwise, room, table, heights),
        ),
        Node::Group(_, children) => levels(children, room, table, heights),
    }
}

/// How many levels the nodes of branches have, counted in the same way.
#[cycle(levels)]
fn branch_levels(
    branches: &[ChooseBranch],
    room: usize,
    table: &BTreeMap<String, usize>,
    heights: &[usize],
) -> usize
    ensures { (xs : Nodes)
        → max result (min (levels (height_of table.now heights.now) xs) room) ≡ min (branch_levels
        (height_of table.now heights.now) (branches_of (map branch_view branches.now) xs)) room }
{
    let mut most = 0;
    for branch in branches {
        most = most.max(levels(&branch.children, room, table, heights));
    }
    most
}

/// How many levels there are below a text node that prints this, counted in the same way.
fn levels_of_target(
    target: &TextTarget,
    room: usize,
    table: &BTreeMap<String, usize>,
    heights: &[usize],
) -> usize
    ensures { (look : TextLook) → result ≡ min
        (levels_below (height_of table.now heights.now) (text_node_view target.now look)) room }
{
    match target {
        TextTarget::Macro(name) => height_of(name.as_str(), table, heights).min(room),
        TextTarget::Variable(_, _) | TextTarget::Term(_, _, _) | TextTarget::Value(_) => 0,
    }
}

/// How many levels the macro of that name has; none where there is no such macro.
fn height_of(name: &str, table: &BTreeMap<String, usize>, heights: &[usize]) -> usize
    ensures { result ≡ height_of table.now heights.now name.now }
{
    match table.get(name) {
        Some(index) => heights.get(*index).copied().unwrap_or(0),
        None => 0,
    }
}

/// Whether no layout and no macro has more levels than may be. Of equal names the first macro counts.
pub(crate) fn fits(parts: &StyleParts, table: &BTreeMap<String, usize>, heights: &[usize]) -> bool
    requires table { IsIndex table.now (macros_view parts.now) }
    requires heights { AreHeights heights.now (macros_view parts.now) }
    ensures { result ≡ style_fits (style_parts_view parts.now) }
{
    layout_fits(&parts.citation.layout, table, heights)
        && bibliography_fits(&parts.bibliography, table, heights)
        && macros_fit(&parts.macros, table, heights)
}

/// Whether the layout has no more levels than may be.
fn layout_fits(layout: &Layout, table: &BTreeMap<String, usize>, heights: &[usize]) -> bool
    ensures { result ≡ nat_le
        (levels (height_of table.now heights.now) (nodes_view layout.now.nodes.items)) limit }
{
    levels(&layout.nodes, LIMIT + 1, table, heights) <= LIMIT
}

/// Whether the layout of the bibliography, if there is one, has no more levels than may be.
fn bibliography_fits(
    bibliography: &Option<Bibliography>,
    table: &BTreeMap<String, usize>,
    heights: &[usize],
) -> bool
    ensures { result ≡ option_map_or (λ b.
        nat_le (levels (height_of table.now heights.now) (nodes_view b.layout.nodes.items)) limit)
        bibliography.now true }
{
    match bibliography {
        Some(bibliography) => layout_fits(&bibliography.layout, table, heights),
        None => true,
    }
}

/// Whether no macro that is the first of its name has more levels than may be.
fn macros_fit(macros: &[Macro], table: &BTreeMap<String, usize>, heights: &[usize]) -> bool
    ensures { result ≡ list_all
        (λ m. nat_le (height_of table.now heights.now (string_bytes m.name)) limit) macros.now }
{
    for each in macros {
        if height_of(each.name.as_str(), table, heights) > LIMIT {
            return false;
        }
    }
    true
}
