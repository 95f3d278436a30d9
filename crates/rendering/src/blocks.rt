//! Texts after the last block of an item.

ghost use Rattle.std.specs.Prelude.{◌≡◌, ◌||◌, is_some, IfOk, OnOk};
ghost use Rattle.laws.specs.Text.{characters};
ghost use Rattle.rendering_tree.specs.Trees.{Text, before, followed_by, nothing};
ghost use Rattle.rendering_tree.specs.Views.{child_view, children_view, tree_view};
ghost use Rattle.rendering.specs.Blocks.{block_ended, blocks_ended, by_display, child_ends_in_block, ends_in_block, text_in_block, then_child};

use rendering_tree::{Elem, ElemChild, ElemChildren, Formatted};
use std::alloc::AllocError;

/// A tree whose last child, if it is a text, stands in the block before it, if one ends there. A block is an element with a display.
pub(crate) fn text_in_block(tree: ElemChildren) -> Result<ElemChildren, AllocError>
    ensures { IfOk result (λ t. tree_view t ≡ text_in_block (tree_view tree)) }
{
    let mut parts = tree.into_vec();
    match parts.pop() {
        Some(last) => with_child(ElemChildren(parts), last),
        None => Ok(ElemChildren(parts)),
    }
}

/// Children and one more; a text stands in the block in which they end.
fn with_child(mut parts: ElemChildren, last: ElemChild) -> Result<ElemChildren, AllocError>
    ensures { IfOk result (λ t. tree_view t ≡ then_child (tree_view parts) (child_view last)) }
{
    put_child(&mut parts, last)?;
    Ok(parts)
}

/// Appends a child; a text goes in the block in which the others end.
fn put_child(parts: &mut ElemChildren, last: ElemChild) -> Result<(), AllocError>
    ensures { OnOk result (tree_view parts.new
        ≡ then_child (tree_view parts.old) (child_view last)) }
{
    match last {
        ElemChild::Text(text) => put_text(parts, text),
        other => parts.push(other),
    }
}

/// Appends a text, in the block in which the others end.
fn put_text(parts: &mut ElemChildren, text: Formatted) -> Result<(), AllocError>
    ensures { OnOk result (tree_view parts.new
        ≡ then_child (tree_view parts.old) (Text text.formatting (characters text.text))) }
{
    if !ends_in_block(parts) {
        return parts.push(ElemChild::Text(text));
    }
    end_blocks(&mut parts.0, text)
}

/// Whether the last child ends in a block.
#[cycle(block)]
fn ends_in_block(parts: &ElemChildren) -> bool
    ensures { result ≡ ends_in_block (tree_view parts.now) }
{
    match parts.0.last() {
        Some(part) => child_ends_in_block(part),
        None => false,
    }
}

/// Whether a child ends in a block.
#[cycle(block)]
fn child_ends_in_block(part: &ElemChild) -> bool
    ensures { result ≡ child_ends_in_block (child_view part.now) }
{
    match part {
        ElemChild::Elem(elem) => element_ends_in_block(elem),
        _ => false,
    }
}

/// Whether an element is a block or ends in one.
#[cycle(block)]
fn element_ends_in_block(elem: &Elem) -> bool
    ensures { result ≡ (is_some elem.now.display || ends_in_block (tree_view elem.now.children)) }
{
    match elem.display {
        Some(_) => true,
        None => ends_in_block(&elem.children),
    }
}

/// Puts a text at the end of the block in which children end.
#[cycle(ending)]
fn end_blocks(parts: &mut Vec<ElemChild>, text: Formatted) -> Result<(), AllocError>
    ensures { OnOk result (children_view parts.new.items
        ≡ blocks_ended (Text text.formatting (characters text.text))
        (children_view parts.old.items)) }
{
    let count = parts.len();
    if count == 0 {
        return Ok(());
    }
    end_block(&mut parts[count - 1], text)
}

/// Puts a text at the end of the block in which a child ends.
#[cycle(ending)]
fn end_block(part: &mut ElemChild, text: Formatted) -> Result<(), AllocError>
    ensures { OnOk result (child_view part.new
        ≡ block_ended (Text text.formatting (characters text.text)) (child_view part.old)) }
{
    match part {
        ElemChild::Elem(elem) => end_element(elem, text),
        ElemChild::Text(_)
        | ElemChild::Markup(_)
        | ElemChild::Link { .. }
        | ElemChild::Transparent { .. } => Ok(()),
    }
}

/// Puts a text at the end of an element that is a block, or of the block in which its children end.
#[cycle(ending)]
fn end_element(elem: &mut Elem, text: Formatted) -> Result<(), AllocError>
    ensures children { OnOk result (tree_view elem.new.children ≡ by_display elem.old.display
        (followed_by (tree_view elem.old.children)
        (before (Text text.formatting (characters text.text)) nothing))
        (blocks_ended (Text text.formatting (characters text.text))
        (tree_view elem.old.children))) }
    ensures same { (elem.new.display ≡ elem.old.display) × (elem.new.meta ≡ elem.old.meta) }
{
    match elem.display {
        Some(_) => elem.children.push(ElemChild::Text(text)),
        None => end_blocks(&mut elem.children.0, text),
    }
}
