//! The normal form of trees.

ghost use Rattle.std.specs.Prelude.{◌≡◌, true, [], IfOk, OnOk};
ghost use Rattle.laws.specs.Text.{characters};
ghost use Rattle.rendering_tree.specs.Simplify.{Puts, is_whole, text_after};
ghost use Rattle.rendering_tree.specs.Tokens.{with_letters};
ghost use Rattle.rendering_tree.specs.Trees.{Text, nothing, before, flat, flat_child, followed_by, simplified};
ghost use Rattle.rendering_tree.specs.Views.{child_view, children_view, tree_view};

use crate::normal::{is_normal, says_something};
use crate::{Elem, ElemChild, ElemChildren, Formatted};
use std::alloc::AllocError;
use texts::{has_text, push_text};

/// The tree in its normal form: the children of an element without display and meta stand instead of it, there are no empty texts,
/// and neighbouring texts of one formatting are joined. A tree that is in its normal form is handed back.
///
/// # Errors
/// Out of memory.
#[tactic(auto, using(crate::proofs::LawsNormal::stays))]
pub fn simplify_children(parts: ElemChildren) -> Result<ElemChildren, AllocError>
    ensures { IfOk result (λ t. tree_view t ≡ simplified (tree_view parts)) }
{
    if is_normal(&parts) {
        return Ok(parts);
    }
    simplified(parts)
}

/// The tree in its normal form, made anew.
#[cycle(simplify)]
fn simplified(parts: ElemChildren) -> Result<ElemChildren, AllocError>
    ensures { IfOk result (λ t. tree_view t ≡ simplified (tree_view parts)) }
{
    let mut simple = Vec::with_capacity(*parts.0.allocator(), parts.0.len())?;
    push_all(parts, &mut simple)?;
    Ok(ElemChildren(simple))
}

/// Appends a list in its normal form.
#[cycle(simplify)]
fn push_all(parts: ElemChildren, simple: &mut Vec<ElemChild>) -> Result<(), AllocError>
    ensures { OnOk result (Puts (flat (tree_view parts))
        (children_view simple.old.items) (children_view simple.new.items)) }
{
    for part in parts.into_vec() {
        push_child(part, simple)?;
    }
    Ok(())
}

/// Appends a child in its normal form.
#[cycle(simplify)]
fn push_child(part: ElemChild, simple: &mut Vec<ElemChild>) -> Result<(), AllocError>
    ensures { OnOk result (Puts (flat_child (child_view part))
        (children_view simple.old.items) (children_view simple.new.items)) }
{
    match part {
        ElemChild::Text(text) => push_formatted(text, simple),
        ElemChild::Elem(elem) => push_element(elem, simple),
        ElemChild::Markup(formula) => push_whole(ElemChild::Markup(formula), simple),
        ElemChild::Link { text, url } => push_whole(ElemChild::Link { text, url }, simple),
        ElemChild::Transparent { cite_idx, format } => {
            push_whole(ElemChild::Transparent { cite_idx, format }, simple)
        }
    }
}

/// Appends an element in its normal form.
#[cycle(simplify)]
fn push_element(elem: Elem, simple: &mut Vec<ElemChild>) -> Result<(), AllocError>
    ensures { OnOk result (Puts (flat_child (child_view (ElemChild.Elem elem)))
        (children_view simple.old.items) (children_view simple.new.items)) }
{
    let Elem {
        children,
        display,
        meta,
    } = elem;
    if !says_something(&display, &meta) {
        return push_all(children, simple);
    }
    let children = simplified(children)?;
    push_whole(
        ElemChild::Elem(Elem {
            children,
            display,
            meta,
        }),
        simple,
    )
}

/// Appends a text, joined with the last one where that has its formatting; an empty one is passed over.
fn push_formatted(text: Formatted, simple: &mut Vec<ElemChild>) -> Result<(), AllocError>
    ensures { OnOk result (Puts (with_letters text.formatting (characters text.text) [])
        (children_view simple.old.items) (children_view simple.new.items)) }
{
    if !has_text(text.text.as_str()) {
        return Ok(());
    }
    match simple.pop() {
        Some(last) => push_after(last, text, simple),
        None => {
            simple.push(ElemChild::Text(text))?;
            Ok(())
        }
    }
}

/// Appends the last child and a text after it, joined where it is a text of the same formatting.
fn push_after(
    last: ElemChild,
    text: Formatted,
    simple: &mut Vec<ElemChild>,
) -> Result<(), AllocError>
    ensures { OnOk result (children_view simple.new.items
        ≡ followed_by (children_view simple.old.items)
        (text_after (child_view last) text.formatting (characters text.text))) }
{
    match last {
        ElemChild::Text(first) => push_texts(first, text, simple),
        other => push_both(other, text, simple),
    }
}

/// Appends two texts, joined where they have the same formatting.
fn push_texts(
    mut first: Formatted,
    text: Formatted,
    simple: &mut Vec<ElemChild>,
) -> Result<(), AllocError>
    ensures { OnOk result (children_view simple.new.items
        ≡ followed_by (children_view simple.old.items) (text_after
        (Text first.formatting (characters first.text)) text.formatting (characters text.text))) }
{
    if first.formatting != text.formatting {
        return push_both(ElemChild::Text(first), text, simple);
    }
    push_text(&mut first.text, text.text.as_str())?;
    simple.push(ElemChild::Text(first))?;
    Ok(())
}

/// Appends a child and a text after it.
fn push_both(
    first: ElemChild,
    text: Formatted,
    simple: &mut Vec<ElemChild>,
) -> Result<(), AllocError>
    ensures { OnOk result (children_view simple.new.items
        ≡ followed_by (children_view simple.old.items) (before (child_view first)
        (before (Text text.formatting (characters text.text)) nothing))) }
{
    simple.push(first)?;
    simple.push(ElemChild::Text(text))?;
    Ok(())
}

/// Appends a child that is no text and in its normal form.
fn push_whole(part: ElemChild, simple: &mut Vec<ElemChild>) -> Result<(), AllocError>
    requires { is_whole (child_view part) ≡ true }
    ensures { OnOk result (Puts (flat_child (child_view part))
        (children_view simple.old.items) (children_view simple.new.items)) }
{
    simple.push(part)?;
    Ok(())
}
