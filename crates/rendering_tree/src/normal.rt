//! Whether trees are in their normal form.

ghost use Rattle.std.specs.Prelude.{◌≡◌, ◌&&◌, not};
ghost use Rattle.std.specs.Option.{option_map};
ghost use Rattle.rendering_taxonomy.specs.Formats.{looks_like};
ghost use Rattle.rendering_tree.specs.Laws.{is_normal, is_normal_child, says_something};
ghost use Rattle.rendering_tree.specs.Normal.{joins_after, text_look};
ghost use Rattle.rendering_tree.specs.Views.{child_view, meta_view, tree_view};

use crate::{ElemChild, ElemChildren, ElemMeta};
use rendering_taxonomy::{Display, Formatting};
use texts::has_text;

/// Whether a tree is in its normal form.
#[cycle(normal)]
pub(crate) fn is_normal(parts: &ElemChildren) -> bool
    ensures { result ≡ is_normal (tree_view parts.now) }
{
    let mut look = None;
    for part in &parts.0 {
        if !stands_after(look, part) {
            return false;
        }
        look = text_look(part);
    }
    true
}

/// Whether a child is in its normal form and does not join the text before it.
#[cycle(normal)]
fn stands_after(look: Option<Formatting>, part: &ElemChild) -> bool
    ensures { result
        ≡ (is_normal_child (child_view part.now) && not (joins_after look (child_view part.now))) }
{
    is_normal_child(part) && !joins_after(look, part)
}

/// Whether a child is in its normal form.
#[cycle(normal)]
fn is_normal_child(part: &ElemChild) -> bool
    ensures { result ≡ is_normal_child (child_view part.now) }
{
    match part {
        ElemChild::Text(text) => has_text(text.text.as_str()),
        ElemChild::Elem(elem) => {
            says_something(&elem.display, &elem.meta) && is_normal(&elem.children)
        }
        ElemChild::Markup(_) | ElemChild::Link { .. } | ElemChild::Transparent { .. } => true,
    }
}

/// Whether there is a display or a meta.
pub(crate) fn says_something(display: &Option<Display>, meta: &Option<ElemMeta>) -> bool
    ensures { result ≡ says_something display.now (option_map meta_view meta.now) }
{
    display.is_some() || meta.is_some()
}

fn text_look(part: &ElemChild) -> Option<Formatting>
    ensures { result ≡ text_look (child_view part.now) }
{
    match part {
        ElemChild::Text(text) => Some(text.formatting),
        _ => None,
    }
}

/// Whether a child would join the text before it.
fn joins_after(look: Option<Formatting>, part: &ElemChild) -> bool
    ensures { result ≡ joins_after look (child_view part.now) }
{
    match (look, part) {
        (Some(look), ElemChild::Text(text)) => looks_like(look, text.formatting),
        _ => false,
    }
}

/// Whether two look alike.
fn looks_like(one: Formatting, other: Formatting) -> bool
    ensures { result ≡ looks_like one other }
{
    one == other
}
