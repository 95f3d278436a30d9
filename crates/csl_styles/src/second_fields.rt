//! Bibliographies whose second field is aligned.

ghost use Rattle.std.specs.Prelude.{◌≡◌, ◌++◌, if◌then◌else◌, map, IfOk, None, OnOk};
ghost use Rattle.std.specs.Option.{option_map};
ghost use Rattle.std.specs.Str.{chars};
ghost use Rattle.laws.specs.Text.{characters};
ghost use Rattle.rendering_style.specs.Views.{look_view, node_view, layout_view};
ghost use Rattle.csl_styles.specs.SecondFields.{
  spaced,
  spaced_look,
  spaced_node,
  first_spaced,
  has_affixes,
  takes_prefix,
  outside,
  prefixed_look,
  prefixed_node,
  first_prefixed,
  with_first_apart,
  aligned,
};

use rendering_style::{Layout, Look, Node};
use rendering_taxonomy::SecondFieldAlign;
use std::alloc::{AllocError, Global};
use texts::{empty_text, owned, push_character, push_text, text_or_empty};

/// Parts the first field of a layout from the second one, where the second one is aligned: the prefix of the layout, and of groups in
/// front, goes before the first field, and a space after it.
pub(crate) fn part_first(
    alloc: Global,
    align: Option<SecondFieldAlign>,
    layout: &mut Layout,
) -> Result<(), AllocError>
    ensures { OnOk result (layout_view layout.new ≡ aligned align (layout_view layout.old)) }
{
    match align {
        Some(_) => align_first(alloc, layout),
        None => Ok(()),
    }
}

/// Puts the prefix of a layout before its first field, and a space after that.
fn align_first(alloc: Global, layout: &mut Layout) -> Result<(), AllocError>
    ensures { OnOk result (layout_view layout.new ≡ with_first_apart (layout_view layout.old)) }
{
    let is_taken = takes_prefix(&layout.nodes);
    space_first(alloc, &mut layout.nodes)?;
    prefix_first(alloc, text_or_empty(&layout.prefix), &mut layout.nodes)?;
    leave_prefix(is_taken, &mut layout.prefix);
    Ok(())
}

/// Whether the first node takes the prefix of its layout.
fn takes_prefix(nodes: &Vec<Node>) -> bool
    ensures { result ≡ takes_prefix (map node_view nodes.now.items) }
{
    if nodes.is_empty() {
        return false;
    }
    has_affixes(&nodes[0])
}

/// Whether a node has affixes in a file of CSL.
fn has_affixes(node: &Node) -> bool
    ensures { result ≡ has_affixes (node_view node.now) }
{
    match node {
        Node::Text(_) | Node::Number(_) | Node::Label(_) | Node::Date(_) => true,
        Node::Names(_, _) | Node::Group(_, _) => true,
        Node::Choose(_, _) => false,
    }
}

/// Leaves nothing of a prefix that was taken.
fn leave_prefix(is_taken: bool, prefix: &mut Option<String>)
    ensures { option_map characters prefix.new
        ≡ (if is_taken then None else option_map characters prefix.old) }
{
    if is_taken {
        *prefix = None;
    }
}

/// Ends the suffix of the first node in one space.
fn space_first(alloc: Global, nodes: &mut Vec<Node>) -> Result<(), AllocError>
    ensures { OnOk result (map node_view nodes.new.items
        ≡ first_spaced (map node_view nodes.old.items)) }
{
    if nodes.is_empty() {
        return Ok(());
    }
    space_node(alloc, &mut nodes[0])
}

/// Ends the suffix of a node in one space, if it has affixes.
fn space_node(alloc: Global, node: &mut Node) -> Result<(), AllocError>
    ensures { OnOk result (node_view node.new ≡ spaced_node (node_view node.old)) }
{
    match node {
        Node::Text(text) => space_after(alloc, &mut text.look.look),
        Node::Number(number) => space_after(alloc, &mut number.look),
        Node::Label(label) => space_after(alloc, &mut label.label.look),
        Node::Date(date) => space_after(alloc, &mut date.look),
        Node::Names(names, _) => space_after(alloc, &mut names.look),
        Node::Choose(_, _) => Ok(()),
        Node::Group(group, _) => space_after(alloc, &mut group.look),
    }
}

/// Ends the suffix of a look in one space.
fn space_after(alloc: Global, look: &mut Look) -> Result<(), AllocError>
    ensures { OnOk result (look_view look.new ≡ spaced_look (look_view look.old)) }
{
    look.suffix = spaced(alloc, look.suffix.as_str())?;
    Ok(())
}

/// Puts a prefix before that of the first node.
#[cycle(prefixing)]
fn prefix_first(alloc: Global, prefix: &str, nodes: &mut Vec<Node>) -> Result<(), AllocError>
    ensures { OnOk result (map node_view nodes.new.items
        ≡ first_prefixed (chars prefix.now) (map node_view nodes.old.items)) }
{
    if nodes.is_empty() {
        return Ok(());
    }
    prefix_node(alloc, prefix, &mut nodes[0])
}

/// Puts a prefix before that of a node, if it has affixes.
#[cycle(prefixing)]
fn prefix_node(alloc: Global, prefix: &str, node: &mut Node) -> Result<(), AllocError>
    ensures { OnOk result (node_view node.new
        ≡ prefixed_node (chars prefix.now) (node_view node.old)) }
{
    match node {
        Node::Text(text) => put_before(alloc, prefix, &mut text.look.look),
        Node::Number(number) => put_before(alloc, prefix, &mut number.look),
        Node::Label(label) => put_before(alloc, prefix, &mut label.label.look),
        Node::Date(date) => put_before(alloc, prefix, &mut date.look),
        Node::Names(names, _) => put_before(alloc, prefix, &mut names.look),
        Node::Choose(_, _) => Ok(()),
        Node::Group(group, children) => prefix_group(alloc, prefix, &mut group.look, children),
    }
}

/// Puts a prefix before that of a group, and all of it before that of the group's first node, where this has affixes.
#[cycle(prefixing)]
#[tactic(auto, using(crate::proofs::Prefixed::none_taken))]
fn prefix_group(
    alloc: Global,
    prefix: &str,
    look: &mut Look,
    children: &mut Vec<Node>,
) -> Result<(), AllocError>
    ensures { OnOk result ((look_view look.new ≡ outside
        (takes_prefix (map node_view children.old.items)) (chars prefix.now) (look_view look.old))
        × (map node_view children.new.items
        ≡ first_prefixed (chars prefix.now ++ characters look.old.prefix)
        (map node_view children.old.items))) }
{
    let all = joined(alloc, prefix, look.prefix.as_str())?;
    if !takes_prefix(children) {
        look.prefix = all;
        return Ok(());
    }
    prefix_first(alloc, all.as_str(), children)?;
    look.prefix = empty_text(alloc);
    Ok(())
}

/// Puts a prefix before that of a look.
fn put_before(alloc: Global, prefix: &str, look: &mut Look) -> Result<(), AllocError>
    ensures { OnOk result (look_view look.new
        ≡ prefixed_look (chars prefix.now) (look_view look.old)) }
{
    look.prefix = joined(alloc, prefix, look.prefix.as_str())?;
    Ok(())
}

/// Two prefixes, one after the other.
fn joined(alloc: Global, first: &str, second: &str) -> Result<String, AllocError>
    ensures { IfOk result (λ s. characters s ≡ chars first.now ++ chars second.now) }
{
    let mut prefix = owned(alloc, first)?;
    push_text(&mut prefix, second)?;
    Ok(prefix)
}

/// A suffix that ends in one space, whatever white space ends it.
fn spaced(alloc: Global, suffix: &str) -> Result<String, AllocError>
    ensures { IfOk result (λ s. characters s ≡ spaced (chars suffix.now)) }
{
    let mut spaced = owned(alloc, suffix.trim_end())?;
    push_character(&mut spaced, ' ')?;
    Ok(spaced)
}
