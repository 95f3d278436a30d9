//! Items whose second field is aligned.

ghost use Rattle.std.specs.Prelude.{◌≡◌, ◌++◌, [], List, IfOk, OnOk};
ghost use Rattle.laws.specs.Characters.{space};
ghost use Rattle.laws.specs.Text.{characters};
ghost use Rattle.rendering_tree.specs.Tokens.{Token, with_letter_after, with_letters};
ghost use Rattle.rendering_tree.specs.Trees.{Elem as Element, flat, flat_child, parted, tree_of};
ghost use Rattle.rendering_tree.specs.Views.{child_view, element_view, children_view, tree_view};
ghost use Rattle.rendering.specs.Ends.{has_end};
ghost use Rattle.rendering_page.specs.Pages.{is_joined as joins};
ghost use Rattle.rendering_taxonomy.specs.declared.page.PageRule.{PageRule};
ghost use Rattle.rendering.specs.Purposes.{fields_joined, in_front, parted_off};

use rendering_building::into_tree;
use rendering_page::Page;
use rendering_taxonomy::SecondFieldAlign;
use rendering_tree::{Elem, ElemChild, ElemChildren, Formatted, simplify_children};
use std::alloc::AllocError;
use texts::{has_text, push_character};

/// The tree of a page. Where the second field is aligned the first one stands in front.
#[inline(never)]
pub(crate) fn joined_tree(
    page: Page<'_>,
    align: Option<SecondFieldAlign>,
) -> Result<ElemChildren, AllocError>
    ensures { IfOk result (λ t. tree_view t ≡ fields_joined align page.entry) }
{
    let is_joined = page.is_joined();
    let tree = into_tree(page)?;
    match align {
        Some(_) => in_front(is_joined, tree),
        None => Ok(tree),
    }
}

/// A tree with its first field in front, and a space after that where texts are not joined.
fn in_front(is_joined: bool, whole: ElemChildren) -> Result<ElemChildren, AllocError>
    ensures { (rule : PageRule) (ts : List Token) → is_joined ≡ joins rule
        → tree_of ts ≡ tree_view whole
        → IfOk result (λ t. tree_view t ≡ in_front rule ts (parted (tree_view whole))) }
{
    let mut others = whole;
    match others.remove_any_meta() {
        Some(field) => parted_before(is_joined, field, others),
        None => Ok(others),
    }
}

/// A field before others, in the normal form, and a space between them where texts are not joined.
fn parted_before(
    is_joined: bool,
    field: Elem,
    others: ElemChildren,
) -> Result<ElemChildren, AllocError>
    ensures { (rule : PageRule) → is_joined ≡ joins rule → IfOk result (λ t. tree_view t
        ≡ tree_of (flat (tree_view others) ++ parted_off rule (flat_child (Element
        (element_view field).display (element_view field).meta (element_view field).children)))) }
{
    let field = parted_off(is_joined, field)?;
    simplify_children(both(field, others)?)
}

/// A field, with a space after it where texts are not joined.
fn parted_off(is_joined: bool, field: Elem) -> Result<Elem, AllocError>
    ensures { (rule : PageRule) → is_joined ≡ joins rule → IfOk result (λ e. flat_child
        (Element (element_view e).display (element_view e).meta (element_view e).children)
        ≡ parted_off rule (flat_child (Element (element_view field).display
        (element_view field).meta (element_view field).children))) }
{
    if is_joined {
        return Ok(field);
    }
    spaced(field)
}

/// A field before other children.
fn both(field: Elem, others: ElemChildren) -> Result<ElemChildren, AllocError>
    ensures { IfOk result (λ t. flat (tree_view t) ≡ flat (tree_view others) ++ flat_child (Element
        (element_view field).display (element_view field).meta (element_view field).children)) }
{
    let mut all = others;
    all.0.insert(0, ElemChild::Elem(field))?;
    Ok(all)
}

/// A field with a space after its last text.
fn spaced(field: Elem) -> Result<Elem, AllocError>
    ensures { IfOk result (λ e. flat_child
        (Element (element_view e).display (element_view e).meta (element_view e).children)
        ≡ with_letter_after space (flat_child (Element (element_view field).display
        (element_view field).meta (element_view field).children))) }
{
    let Elem {
        mut children,
        display,
        meta,
    } = field;
    push_space(&mut children.0)?;
    Ok(Elem {
        children,
        display,
        meta,
    })
}

/// Puts a space after the last text of children, looking like it, where a text is the last that they print. Returns whether they
/// print anything.
#[cycle(spacing)]
fn push_space(parts: &mut Vec<ElemChild>) -> Result<bool, AllocError>
    ensures end { IfOk result (λ b. b ≡ has_end (flat (children_view parts.old.items))) }
    ensures spaced { OnOk result (flat (children_view parts.new.items)
        ≡ with_letter_after space (flat (children_view parts.old.items))) }
{
    for index in (0..parts.len()).rev() {
        if push_space_to(&mut parts[index])? {
            return Ok(true);
        }
    }
    Ok(false)
}

/// Puts a space after the last text of a child, where a text is the last that it prints. Returns whether it prints anything.
#[cycle(spacing)]
fn push_space_to(part: &mut ElemChild) -> Result<bool, AllocError>
    ensures end { IfOk result (λ b. b ≡ has_end (flat_child (child_view part.old))) }
    ensures spaced { OnOk result (flat_child (child_view part.new)
        ≡ with_letter_after space (flat_child (child_view part.old))) }
{
    match part {
        ElemChild::Text(text) => push_space_after(text),
        ElemChild::Elem(elem) => push_space_in(elem),
        ElemChild::Markup(_) | ElemChild::Link { .. } | ElemChild::Transparent { .. } => Ok(true),
    }
}

/// Puts a space after the last text of an element, where a text is the last that it prints. Returns whether it prints anything.
#[cycle(spacing)]
fn push_space_in(elem: &mut Elem) -> Result<bool, AllocError>
    ensures end { IfOk result (λ b. b ≡ has_end (flat (tree_view elem.old.children))) }
    ensures spaced { OnOk result (flat (tree_view elem.new.children)
        ≡ with_letter_after space (flat (tree_view elem.old.children))) }
    ensures same { (elem.new.display ≡ elem.old.display) × (elem.new.meta ≡ elem.old.meta) }
{
    push_space(&mut elem.children.0)
}

/// Puts a space after a text, unless that is empty. Returns whether it is not.
fn push_space_after(text: &mut Formatted) -> Result<bool, AllocError>
    ensures end { IfOk result (λ b. b
        ≡ has_end (with_letters text.old.formatting (characters text.old.text) [])) }
    ensures spaced { OnOk result (with_letters text.new.formatting (characters text.new.text) []
        ≡ with_letter_after space
        (with_letters text.old.formatting (characters text.old.text) [])) }
{
    if !has_text(text.text.as_str()) {
        return Ok(false);
    }
    push_character(&mut text.text, ' ')?;
    Ok(true)
}
