//! Citations outside of any document.

ghost use Rattle.std.specs.Prelude.{◌≡◌, ◌++◌, true, map, if◌then◌else◌, IfOk, OnOk};
ghost use Rattle.std.specs.Option.{option_map, unwrap_or};
ghost use Rattle.std.specs.Str.{chars};
ghost use Rattle.laws.specs.Text.{characters};
ghost use Rattle.rendering_style.specs.Views.{layout_view};
ghost use Rattle.rendering_tree.specs.Trees.{nothing};
ghost use Rattle.rendering_tree.specs.Views.{tree_view};
ghost use Rattle.driver_citations.specs.Citations.{citation_look, text_after};
ghost use Rattle.rendering_names.specs.Persons.{comma_and_space};
ghost use Rattle.driver_citations.specs.Joining.{trees_put};
ghost use Rattle.driver_citations.specs.Standalone as standalone;
ghost use Rattle.driver_citations.specs.Standalone.{joined_alone, printed_alone, properties_alone, all_alone, alone, with_content};
ghost use Rattle.driver_requests.specs.Views.{item_view, request_view};
ghost use Rattle.rendering.specs.Views.{style_context_view};
ghost use Rattle.rendering_page.specs.Views.{quotes_view};
ghost use Rattle.rendering_context.specs.Views.{cite_properties_view};

use crate::citation::{affixed, append};
use crate::contents::has_content;
use crate::layout_texts::{citation_look, push_after};
use crate::meeting::delimiter_before;
use crate::request_parts::{context_for, plain_locator};
use driver_requests::{CitationItem, CitationRequest};
use rendering::{Effort, StyleContext};
use rendering_context::{CiteProperties, DisambiguateState};
use rendering_entries::EntryLike;
use rendering_style::Layout;
use rendering_taxonomy::{Formatting, IbidState, IdentifierUsage};
use rendering_tree::ElemChildren;
use std::alloc::{AllocError, Global};

/// A citation outside of any document, in the style of the request, as a tree in its normal form.
///
/// Each item that is not hidden is printed with its locator and for its purpose, as no first cite, outside of notes, and with the number
/// one. Nothing is disambiguated or collapsed. What prints more than white space stands in order in the affixes of the layout, with its
/// delimiter between, which is a comma and a space where the layout has none; where nothing does, the tree is empty.
///
/// # Errors
/// Out of memory.
pub fn standalone_citation<T: EntryLike, P: Drop>(
    alloc: Global,
    request: CitationRequest<'_, T, P>,
) -> Result<ElemChildren, AllocError>
    ensures { IfOk result (λ t. tree_view t
        ≡ standalone.standalone_citation (request_view (λ e. 0) T.answers request.entry)) }
{
    citation_alone(alloc, &request)
}

/// What a request prints outside of any document.
fn citation_alone<T: EntryLike, P>(
    alloc: Global,
    request: &CitationRequest<'_, T, P>,
) -> Result<ElemChildren, AllocError>
    ensures { IfOk result (λ t. tree_view t
        ≡ standalone.standalone_citation (request_view (λ e. 0) T.answers request.now)) }
{
    let context = context_for(alloc, &*request)?;
    let trees = print_items(alloc, &context, request.items.as_slice())?;
    let layout = &request.style().parts().citation.layout;
    joined_alone(alloc, layout, context.joining_quotes(), trees)
}

/// What items that are not hidden print, but for what is white space alone.
fn print_items<T: EntryLike, P>(
    alloc: Global,
    context: &StyleContext<'_>,
    items: &[CitationItem<'_, T, P>],
) -> Result<Vec<ElemChildren>, AllocError>
    ensures { IfOk result (λ v. map tree_view v.items ≡ all_alone
        (style_context_view context.now) (map (item_view (λ e. 0) T.answers) items.now)) }
{
    let mut trees = Vec::new(alloc);
    for item in items {
        push_alone(context, item, &mut trees)?;
    }
    Ok(trees)
}

/// Appends what an item prints, if it is not hidden and more than white space.
fn push_alone<T: EntryLike, P>(
    context: &StyleContext<'_>,
    item: &CitationItem<'_, T, P>,
    trees: &mut Vec<ElemChildren>,
) -> Result<(), AllocError>
    ensures { OnOk result (map tree_view trees.new.items ≡ map tree_view trees.old.items
        ++ alone (style_context_view context.now) (item_view (λ e. 0) T.answers item.now)) }
{
    if item.hidden {
        return Ok(());
    }
    push_content(printed_alone(context, item)?, trees)
}

/// Appends a tree that is more than white space.
fn push_content(printed: ElemChildren, trees: &mut Vec<ElemChildren>) -> Result<(), AllocError>
    ensures { OnOk result (map tree_view trees.new.items
        ≡ map tree_view trees.old.items ++ with_content (tree_view printed)) }
{
    if !has_content(&printed) {
        return Ok(());
    }
    trees.push(printed)?;
    Ok(())
}

fn printed_alone<T: EntryLike, P>(
    context: &StyleContext<'_>,
    item: &CitationItem<'_, T, P>,
) -> Result<ElemChildren, AllocError>
    ensures { IfOk result (λ t. tree_view t
        ≡ printed_alone (style_context_view context.now) (item_view (λ e. 0) T.answers item.now)) }
{
    let properties = properties_alone(item);
    let mut effort = Effort::default();
    let rendering = context.citation(
        item.entry,
        &properties,
        None,
        item.purpose,
        None,
        &mut effort,
    )?;
    Ok(rendering.tree)
}

/// What is known of an item.
fn properties_alone<'i, T: EntryLike, P>(item: &'i CitationItem<'_, T, P>) -> CiteProperties<'i>
    ensures { cite_properties_view result
        ≡ properties_alone (item_view (λ e. 0) T.answers item.entry.now) }
{
    CiteProperties {
        note_number: None,
        first_note_number: None,
        is_near_note: false,
        is_first: false,
        initial_idx: 0,
        locator: plain_locator(item),
        citation_number: 0,
        ibid: IbidState::Different,
        disambiguation: DisambiguateState::None,
        identifier_usage: IdentifierUsage::None,
        first_names: None,
    }
}

/// What items print, in the affixes of the layout; where there is none, nothing.
fn joined_alone(
    alloc: Global,
    layout: &Layout,
    quotes: Option<&[&str]>,
    trees: Vec<ElemChildren>,
) -> Result<ElemChildren, AllocError>
    ensures { IfOk result (λ t. tree_view t
        ≡ joined_alone (option_map (λ q. quotes_view q.now) quotes.entry) (layout_view layout.now)
        (map tree_view trees.items)) }
{
    if trees.is_empty() {
        return Ok(ElemChildren::new(alloc));
    }
    let look = citation_look(layout);
    let between = delimiter(&layout.delimiter);
    let inside = delimited(alloc, look, quotes, between, trees)?;
    affixed(alloc, layout, quotes, inside)
}

/// The delimiter of a layout, or else a comma and a space.
fn delimiter(text: &Option<String>) -> &str
    ensures { chars result.now ≡ unwrap_or (option_map characters text.now) comma_and_space }
{
    match text {
        Some(text) => text.as_str(),
        None => ", ",
    }
}

/// Trees one after the other with a text between them.
fn delimited(
    alloc: Global,
    look: Formatting,
    quotes: Option<&[&str]>,
    between: &str,
    trees: Vec<ElemChildren>,
) -> Result<ElemChildren, AllocError>
    ensures { IfOk result (λ t. tree_view t
        ≡ trees_put (option_map (λ q. quotes_view q.now) quotes.entry) look (chars between.now) true
        nothing (map tree_view trees.items)) }
{
    let mut inside = ElemChildren::new(alloc);
    let mut is_first = true;
    for tree in trees {
        push_between(
            alloc,
            look,
            quotes,
            delimiter_before(quotes, &tree, between),
            is_first,
            &mut inside,
        )?;
        append(tree, &mut inside)?;
        is_first = false;
    }
    Ok(inside)
}

/// Appends a text, but before the first tree.
fn push_between(
    alloc: Global,
    look: Formatting,
    quotes: Option<&[&str]>,
    between: &str,
    is_first: bool,
    inside: &mut ElemChildren,
) -> Result<(), AllocError>
    ensures { OnOk result (tree_view inside.new ≡ (if is_first then tree_view inside.old
        else text_after (option_map (λ q. quotes_view q.now) quotes.entry) look (chars between.now)
        (tree_view inside.old))) }
{
    if is_first {
        return Ok(());
    }
    push_after(alloc, look, quotes, between, inside)
}
