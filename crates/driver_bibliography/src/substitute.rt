//! A text instead of repeated names.

ghost use Rattle.std.specs.Prelude.{◌≡◌, IfOk, OnOk};
ghost use Rattle.std.specs.Option.{option_map_or};
ghost use Rattle.std.specs.Str.{chars};
ghost use Rattle.rendering_tree.specs.Trees.{simplified};
ghost use Rattle.rendering_tree.specs.Views.{child_view, element_view, children_view, tree_view};
ghost use Rattle.driver_bibliography.specs.Substitution.{changed, changed_in, is_some_names, names_replaced, names_replaced_in, text_alone, text_for};
ghost use Rattle.driver_bibliography.specs.Views.{Changes, as_child, children_for, repeated_view};

use crate::lists::replace_lists;
use crate::repeats::{Repetition, is_name};
use rendering_taxonomy::Formatting;
use rendering_tree::{Elem, ElemChild, ElemChildren, ElemMeta, Formatted, simplify_children};
use std::alloc::{AllocError, Global};
use texts::owned;

/// An item in which a text stands for what is repeated of its names, in its normal form.
pub(crate) fn substitute(
    alloc: Global,
    text: &str,
    repeated: Repetition,
    mut item: ElemChildren,
) -> Result<ElemChildren, AllocError>
    ensures { IfOk result (λ t. tree_view t
        ≡ simplified (text_for (chars text.now) (repeated_view repeated) (tree_view item))) }
{
    match repeated {
        Repetition::Nothing => simplify_children(item),
        _ => {
            change_names(alloc, &mut item.0, text, repeated)?;
            simplify_children(item)
        }
    }
}

/// Changes the first names in a list of children. Returns whether there are names.
#[cycle(changing)]
fn change_names(
    alloc: Global,
    parts: &mut [ElemChild],
    text: &str,
    repeated: Repetition,
) -> Result<bool, AllocError>
    ensures { IfOk result (λ found. Changes
        (changed (children_for (chars text.now) (repeated_view repeated)) (children_view parts.old))
        (children_view parts.old) (children_view parts.new) found) }
{
    for part in parts.iter_mut() {
        if change_names_in(alloc, part, text, repeated)? {
            return Ok(true);
        }
    }
    Ok(false)
}

/// Changes the first names in a child. Returns whether there are names.
#[cycle(changing)]
fn change_names_in(
    alloc: Global,
    part: &mut ElemChild,
    text: &str,
    repeated: Repetition,
) -> Result<bool, AllocError>
    ensures { IfOk result (λ found. Changes
        (changed_in (children_for (chars text.now) (repeated_view repeated)) (child_view part.old))
        (child_view part.old) (child_view part.new) found) }
{
    match part {
        ElemChild::Elem(elem) => change_names_of(alloc, elem, text, repeated),
        _ => Ok(false),
    }
}

/// Changes an element that stands for a names node, or the first names in it. Returns whether there are names.
#[cycle(changing)]
fn change_names_of(
    alloc: Global,
    elem: &mut Elem,
    text: &str,
    repeated: Repetition,
) -> Result<bool, AllocError>
    ensures { IfOk result (λ found. Changes (changed_in
        (children_for (chars text.now) (repeated_view repeated)) (as_child (element_view elem.old)))
        (as_child (element_view elem.old)) (as_child (element_view elem.new)) found) }
{
    if is_names(elem) {
        change_children(alloc, &mut elem.children, text, repeated)?;
        return Ok(true);
    }
    change_names(alloc, &mut elem.children.0, text, repeated)
}

/// Whether an element stands for a names node.
fn is_names(elem: &Elem) -> bool
    ensures { result ≡ is_some_names (element_view elem.now).meta }
{
    matches!(elem.meta, Some(ElemMeta::Names(_)))
}

/// Puts a text instead of what is repeated of the children of a names node.
fn change_children(
    alloc: Global,
    parts: &mut ElemChildren,
    text: &str,
    repeated: Repetition,
) -> Result<(), AllocError>
    ensures { OnOk result (tree_view parts.new
        ≡ children_for (chars text.now) (repeated_view repeated) (tree_view parts.old)) }
{
    match repeated {
        Repetition::Nothing => {}
        Repetition::All => *parts = text_alone(alloc, text)?,
        Repetition::Lists => replace_lists(alloc, &mut parts.0, text)?,
        Repetition::First(count) => {
            change_singles(alloc, &mut parts.0, text, count)?;
        }
    }
    Ok(())
}

/// Puts a text instead of the first single names in a list of children, so many as are wanted. Returns how many are still wanted.
#[cycle(singles)]
fn change_singles(
    alloc: Global,
    parts: &mut [ElemChild],
    text: &str,
    wanted: usize,
) -> Result<usize, AllocError>
    ensures { IfOk result (λ left. (children_view parts.new, left)
        ≡ names_replaced (text_alone (chars text.now)) (children_view parts.old) wanted) }
{
    let mut left = wanted;
    for part in parts.iter_mut() {
        left = change_singles_in(alloc, part, text, left)?;
    }
    Ok(left)
}

/// Puts a text instead of the first single names in a child.
#[cycle(singles)]
fn change_singles_in(
    alloc: Global,
    part: &mut ElemChild,
    text: &str,
    wanted: usize,
) -> Result<usize, AllocError>
    ensures { IfOk result (λ left. (child_view part.new, left)
        ≡ names_replaced_in (text_alone (chars text.now)) (child_view part.old) wanted) }
{
    match part {
        ElemChild::Elem(elem) => change_single(alloc, elem, text, wanted),
        _ => Ok(wanted),
    }
}

/// Puts a text instead of what a single name contains, or of the first single names in another element.
#[cycle(singles)]
fn change_single(
    alloc: Global,
    elem: &mut Elem,
    text: &str,
    wanted: usize,
) -> Result<usize, AllocError>
    ensures { IfOk result (λ left. (as_child (element_view elem.new), left) ≡ names_replaced_in
        (text_alone (chars text.now)) (as_child (element_view elem.old)) wanted) }
{
    if wanted == 0 {
        return Ok(0);
    }
    if is_name(elem) {
        elem.children = text_alone(alloc, text)?;
        return Ok(wanted - 1);
    }
    change_singles(alloc, &mut elem.children.0, text, wanted)
}

/// A text in the default formatting, alone.
pub(crate) fn text_alone(alloc: Global, text: &str) -> Result<ElemChildren, AllocError>
    ensures { IfOk result (λ t. tree_view t ≡ text_alone (chars text.now)) }
{
    let mut alone = ElemChildren::new(alloc);
    alone.push(ElemChild::Text(Formatted {
        text: owned(alloc, text)?,
        formatting: Formatting::plain(),
    }))?;
    Ok(alone)
}
