//! The items of a bibliography.

ghost use Rattle.std.specs.Prelude.{◌≡◌, IfOk, Some, length, map};
ghost use Rattle.std.specs.Str.{chars};
ghost use Rattle.rendering_tree.specs.Trees.{parted};
ghost use Rattle.rendering_tree.specs.Views.{tree_view};
ghost use Rattle.rendering_style.specs.Views.{bibliography_layout_view};
ghost use Rattle.driver_bibliography.specs.Items.{all_substituted, fields_by, fields_of, items_of};
ghost use Rattle.driver_bibliography.specs.Views.{all_changed, fields_view, printed_view, repeated_view, spelled_if};

use crate::repeats::{Repetition, repeats};
use crate::substitute::substitute;
use rendering_style::Bibliography;
use rendering_taxonomy::{SecondFieldAlign, SubsequentAuthorSubstituteRule};
use rendering_tree::{Elem, ElemChildren, simplify_children};
use std::alloc::{AllocError, Global};

/// What is printed of an item of a bibliography: its tree, and its first names as they were before texts met.
#[derive(Debug, Drop)]
pub struct PrintedItem {
    pub tree: ElemChildren,
    pub names: Option<Elem>,
}

/// An item of a bibliography: its first field, where the second one is aligned, and all else.
#[derive(Debug, PartialEq, Eq, Drop)]
pub struct ItemFields {
    pub first_field: Option<Elem>,
    pub content: ElemChildren,
}

/// The items of a bibliography from what its style prints of each: a text stands for names that repeat those of the item before, with
/// their labels and affixes or without, and the first field is taken out where the second one is aligned, if the style says so.
///
/// # Errors
/// Out of memory.
pub fn items(
    alloc: Global,
    bibliography: &Bibliography,
    printed: Vec<PrintedItem>,
) -> Result<Vec<ItemFields>, AllocError>
    ensures { IfOk result (λ v. map fields_view v.items
        ≡ items_of (bibliography_layout_view bibliography.now) (map printed_view printed.items)) }
{
    let substituted = substitute_all(
        alloc,
        bibliography.substitutes_names_alone,
        bibliography.subsequent_author_substitute_rule,
        bibliography.subsequent_author_substitute.as_deref(),
        printed,
    )?;
    fields_of_all(alloc, bibliography.second_field_align, substituted)
}

/// Items in which a text stands for repeated names, where there is such a text. `alone` is whether it stands for names alone.
fn substitute_all(
    alloc: Global,
    alone: bool,
    rule: SubsequentAuthorSubstituteRule,
    text: Option<&str>,
    printed: Vec<PrintedItem>,
) -> Result<Vec<ElemChildren>, AllocError>
    ensures { IfOk result (λ v. map tree_view v.items
        ≡ all_substituted alone rule (spelled_if text.entry) (map printed_view printed.items)) }
{
    match text {
        Some(text) => substitute_repeated(alloc, alone, rule, text, printed),
        None => trees_of(alloc, printed),
    }
}

/// Items in which a text stands for repeated names.
fn substitute_repeated(
    alloc: Global,
    alone: bool,
    rule: SubsequentAuthorSubstituteRule,
    text: &str,
    printed: Vec<PrintedItem>,
) -> Result<Vec<ElemChildren>, AllocError>
    ensures { IfOk result (λ v. map tree_view v.items
        ≡ all_substituted alone rule (Some (chars text.now)) (map printed_view printed.items)) }
{
    let repeats = repeats(alloc, alone, rule, &printed)?;
    substitute_each(alloc, text, &repeats, printed)
}

/// Items in each of which a text stands for what is repeated of its names.
fn substitute_each(
    alloc: Global,
    text: &str,
    repeats: &[Repetition],
    printed: Vec<PrintedItem>,
) -> Result<Vec<ElemChildren>, AllocError>
    requires { length repeats.now ≡ length printed.items }
    ensures { IfOk result (λ v. map tree_view v.items ≡ all_changed (chars text.now)
        (map repeated_view repeats.now) (map printed_view printed.items)) }
{
    let mut items = Vec::with_capacity(alloc, printed.len())?;
    for item in printed {
        let repeated = repeats[items.len()];
        items.push(substitute(alloc, text, repeated, tree_of(item))?)?;
    }
    Ok(items)
}

/// What is printed of items.
fn trees_of(alloc: Global, printed: Vec<PrintedItem>) -> Result<Vec<ElemChildren>, AllocError>
    ensures { IfOk result (λ v. map tree_view v.items
        ≡ map (λ p. p.tree) (map printed_view printed.items)) }
{
    let mut trees = Vec::with_capacity(alloc, printed.len())?;
    for item in printed {
        trees.push(tree_of(item))?;
    }
    Ok(trees)
}

/// What is printed of an item.
fn tree_of(item: PrintedItem) -> ElemChildren
    ensures { tree_view result ≡ (printed_view item).tree }
{
    let PrintedItem { tree, names: _ } = item;
    tree
}

fn fields_of_all(
    alloc: Global,
    align: Option<SecondFieldAlign>,
    trees: Vec<ElemChildren>,
) -> Result<Vec<ItemFields>, AllocError>
    ensures { IfOk result (λ v. map fields_view v.items
        ≡ map (fields_by align) (map tree_view trees.items)) }
{
    let mut items = Vec::with_capacity(alloc, trees.len())?;
    for tree in trees {
        items.push(fields_of(align, tree)?)?;
    }
    Ok(items)
}

fn fields_of(align: Option<SecondFieldAlign>, item: ElemChildren) -> Result<ItemFields, AllocError>
    ensures { IfOk result (λ f. fields_view f ≡ fields_by align (tree_view item)) }
{
    match align {
        Some(_) => first_apart(item),
        None => Ok(ItemFields {
            first_field: None,
            content: item,
        }),
    }
}

/// An item without the first element that stands for something, which is its first field.
fn first_apart(mut item: ElemChildren) -> Result<ItemFields, AllocError>
    ensures { IfOk result (λ f. fields_view f
        ≡ fields_of (tree_view item) (parted (tree_view item))) }
{
    match item.remove_any_meta() {
        Some(elem) => Ok(ItemFields {
            first_field: Some(elem),
            content: simplify_children(item)?,
        }),
        None => Ok(ItemFields {
            first_field: None,
            content: item,
        }),
    }
}
