//! The bibliography from what its style prints of each entry.

ghost use Rattle.std.specs.Prelude.{◌≡◌, length, map, string_bytes, IfOk};
ghost use Rattle.std.specs.Option.{option_and_then, option_map};
ghost use Rattle.rendering_style.specs.Views.{bibliography_layout_view};
ghost use Rattle.rendering_tree.specs.Views.{child_view, element_view};
ghost use Rattle.driver_bibliography.specs.Views.{fields_view, printed_view};
ghost use Rattle.driver.specs.Listing.{bibliography_from, keys_of};
ghost use Rattle.driver.specs.RenderedViews.{rendered_bibliography_view, element_if, item_fields_view, key_view};

use crate::rendered::{BibliographyItem, RenderedBibliography};
use driver_bibliography::{ItemFields, PrintedItem, items};
use rendering_entries::EntryLike;
use rendering_style::Bibliography;
use rendering_tree::{Elem, ElemChild};
use std::alloc::{AllocError, Global};

/// The bibliography from what its style prints of each of some entries.
pub(crate) fn bibliography_of<T: EntryLike>(
    alloc: Global,
    style: &Bibliography,
    printed: Vec<PrintedItem>,
    entries: &[&T],
) -> Result<RenderedBibliography, AllocError>
    requires { length entries.now ≡ length printed.items }
    ensures bibliography { IfOk result (λ b. rendered_bibliography_view b
        ≡ bibliography_from (bibliography_layout_view style.now) (map printed_view printed.items)) }
    ensures keys { IfOk result (λ b. map key_view b.items.items ≡ keys_of T.answers entries.now) }
{
    let fields = items(alloc, style, printed)?;
    let items = with_keys(alloc, fields, entries)?;
    Ok(RenderedBibliography {
        hanging_indent: style.hanging_indent,
        second_field_align: style.second_field_align,
        line_spacing: style.line_spacing,
        entry_spacing: style.entry_spacing,
        items,
    })
}

/// Items with the keys of their entries, of which there are as many.
fn with_keys<T: EntryLike>(
    alloc: Global,
    fields: Vec<ItemFields>,
    entries: &[&T],
) -> Result<Vec<BibliographyItem>, AllocError>
    requires { length entries.now ≡ length fields.items }
    ensures fields { IfOk result (λ v. map item_fields_view v.items
        ≡ map fields_view fields.items) }
    ensures keys { IfOk result (λ v. map key_view v.items ≡ keys_of T.answers entries.now) }
{
    let mut items = Vec::with_capacity(alloc, fields.len())?;
    for own in fields {
        let entry = entries[items.len()];
        items.push(with_key(alloc, own, entry)?)?;
    }
    Ok(items)
}

fn with_key<T: EntryLike>(
    alloc: Global,
    fields: ItemFields,
    entry: &T,
) -> Result<BibliographyItem, AllocError>
    ensures fields { IfOk result (λ i. item_fields_view i ≡ fields_view fields) }
    ensures key { IfOk result (λ i. key_view i ≡ (T.answers entry.now).key) }
{
    let key = key_of(alloc, entry)?;
    let ItemFields {
        first_field,
        content,
    } = fields;
    Ok(BibliographyItem {
        key,
        first_field: as_child(first_field),
        content,
    })
}

fn key_of<T: EntryLike>(alloc: Global, entry: &T) -> Result<String, AllocError>
    ensures { IfOk result (λ k. string_bytes k ≡ (T.answers entry.now).key) }
{
    entry.key().into_owned(alloc)
}

/// An element as a child, where there is one.
fn as_child(elem: Option<Elem>) -> Option<ElemChild>
    ensures { option_and_then (λ x. element_if (child_view x)) result
        ≡ option_map (λ e. element_view e) elem }
{
    match elem {
        Some(elem) => Some(ElemChild::Elem(elem)),
        None => None,
    }
}
