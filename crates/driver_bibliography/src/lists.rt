//! A text instead of lists of single names.

ghost use Rattle.std.specs.Prelude.{◌≡◌, ◌≤◌, ◌++◌, true, drop, length, take, OnOk};
ghost use Rattle.std.specs.Str.{chars};
ghost use Rattle.rendering_tree.specs.Views.{child_view, element_view, children_view};
ghost use Rattle.driver_bibliography.specs.Substitution.{after_names, before_names, has_single_names, is_single_name, list_replaced, lists_replaced, lists_replaced_in, text_alone};
ghost use Rattle.driver_bibliography.specs.Views.{as_child};

use crate::repeats::is_name;
use crate::substitute::text_alone;
use rendering_tree::{Elem, ElemChild};
use std::alloc::{AllocError, Global};

/// Puts a text instead of each list of single names in a list of children.
#[cycle(lists)]
pub(crate) fn replace_lists(
    alloc: Global,
    parts: &mut [ElemChild],
    text: &str,
) -> Result<(), AllocError>
    ensures { OnOk result (children_view parts.new
        ≡ lists_replaced (text_alone (chars text.now)) (children_view parts.old)) }
{
    for part in parts.iter_mut() {
        replace_lists_in(alloc, part, text)?;
    }
    Ok(())
}

/// Puts a text instead of each list of single names in a child.
#[cycle(lists)]
fn replace_lists_in(alloc: Global, part: &mut ElemChild, text: &str) -> Result<(), AllocError>
    ensures { OnOk result (child_view part.new
        ≡ lists_replaced_in (text_alone (chars text.now)) (child_view part.old)) }
{
    match part {
        ElemChild::Elem(elem) => replace_lists_of(alloc, elem, text),
        _ => Ok(()),
    }
}

/// Puts a text instead of the list of single names that an element contains, or of those in other elements.
#[cycle(lists)]
fn replace_lists_of(alloc: Global, elem: &mut Elem, text: &str) -> Result<(), AllocError>
    ensures { OnOk result (as_child (element_view elem.new)
        ≡ lists_replaced_in (text_alone (chars text.now)) (as_child (element_view elem.old))) }
{
    if has_single_names(&elem.children.0) {
        return replace_list(alloc, &mut elem.children.0, text);
    }
    replace_lists(alloc, &mut elem.children.0, text)
}

/// Puts a text instead of the list of single names in some children, and of what stands between these.
fn replace_list(alloc: Global, parts: &mut Vec<ElemChild>, text: &str) -> Result<(), AllocError>
    requires { has_single_names (children_view parts.old.items) ≡ true }
    ensures { OnOk result (children_view parts.new.items
        ≡ list_replaced (text_alone (chars text.now)) (children_view parts.old.items)) }
{
    let own = text_alone(alloc, text)?;
    let start = count_before(parts);
    let mut rest = parts.split_off(start)?;
    let end = count_to_last(&rest);
    let after = rest.split_off(end)?;
    append_all(parts, own.into_vec())?;
    append_all(parts, after)
}

/// Appends children to others.
fn append_all(parts: &mut Vec<ElemChild>, more: Vec<ElemChild>) -> Result<(), AllocError>
    ensures { OnOk result (parts.new.items ≡ parts.old.items ++ more.items) }
{
    let mut more = more;
    parts.append(&mut more)
}

/// Whether one of the children is a single name.
fn has_single_names(parts: &[ElemChild]) -> bool
    ensures { result ≡ has_single_names (children_view parts.now) }
{
    for part in parts {
        if is_single_name(part) {
            return true;
        }
    }
    false
}

/// Whether a child is a single name.
fn is_single_name(part: &ElemChild) -> bool
    ensures { result ≡ is_single_name (child_view part.now) }
{
    match part {
        ElemChild::Elem(elem) => is_name(elem),
        _ => false,
    }
}

/// How many children stand before the first single name.
fn count_before(parts: &[ElemChild]) -> usize
    ensures within { result ≤ length parts.now }
    ensures before { children_view (take result parts.now)
        ≡ before_names (children_view parts.now) }
    ensures others { has_single_names (children_view (drop result parts.now))
        ≡ has_single_names (children_view parts.now) }
{
    let mut count = 0;
    while count < parts.len() {
        if is_single_name(&parts[count]) {
            return count;
        }
        count += 1;
    }
    count
}

/// How many children there are up to the last single name.
fn count_to_last(parts: &[ElemChild]) -> usize
    ensures within { result ≤ length parts.now }
    ensures after { has_single_names (children_view parts.now) ≡ true
        → children_view (drop result parts.now) ≡ after_names (children_view parts.now) }
{
    let mut count = parts.len();
    while count > 0 {
        if is_single_name(&parts[count - 1]) {
            return count;
        }
        count -= 1;
    }
    count
}
