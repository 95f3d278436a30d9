//! What a bibliography prints of entries that are cited.

ghost use Rattle.std.specs.Prelude.{◌≡◌, ◌+◌, ◌<◌, ◌≤◌, ◌++◌, All, length, map, option_to_list, IfOk, OnOk};
ghost use Rattle.std.specs.Option.{option_and_then, option_map, option_map_or};
ghost use Rattle.rendering.specs.Views.{rendering_view, style_context_view};
ghost use Rattle.driver.specs.Finish.{printed_item};
ghost use Rattle.rendering_context.specs.Views.{state_view};
ghost use Rattle.rendering_style.specs.Views.{bibliography_layout_view};
ghost use Rattle.driver_bibliography.specs.Views.{printed_view};
ghost use Rattle.driver.specs.FinalPrints.{listed_view};
ghost use Rattle.driver.specs.Listing.{bibliography_from, item_listed, key_printed, keys_listed, keys_of, listed_in_state, AreAtIndices, trees_listed};
ghost use Rattle.driver.specs.RenderedViews.{rendered_bibliography_view, keys_view};
ghost use Rattle.driver_rounds.specs.Views.{bibliography_context_of};

use crate::bibliography::bibliography_of;
use crate::final_prints::ListedCite;
use crate::rendered::RenderedBibliography;
use driver_bibliography::PrintedItem;
use driver_requests::BibliographyRequest;
use rendering::{Effort, Rendering, StyleContext};
use rendering_context::DisambiguateState;
use rendering_entries::EntryLike;
use rendering_style::Bibliography;
use std::alloc::{AllocError, Global};

/// What is printed of entries, and of which ones.
#[derive(Drop)]
struct ListedItems<'r, T> {
    trees: Vec<PrintedItem>,
    entries: Vec<&'r T>,
}

/// The bibliography, where its style has one: what it prints of each entry that is listed, in that order.
pub(crate) fn bibliography<T: EntryLike>(
    alloc: Global,
    request: &BibliographyRequest<'_, T>,
    order: &[usize],
    states: &[DisambiguateState],
    listed: &[Option<ListedCite<'_, '_, T>>],
    effort: &mut Effort,
) -> Result<Option<RenderedBibliography>, AllocError>
    requires order { All (λ p. p < length states.now) order.now }
    requires listed { length listed.now ≡ length states.now }
    requires own { AreAtIndices
        (map (option_map (listed_view T.answers (map state_view states.now))) listed.now) }
    ensures bibliography { IfOk result (λ b. option_map rendered_bibliography_view b
        ≡ option_map (λ s. bibliography_from s (trees_listed (bibliography_context_of request.now)
        (map (option_map (listed_view T.answers (map state_view states.now))) listed.now)
        order.now)) (bibliography_context_of request.now).style.bibliography) }
    ensures keys { IfOk result (λ b. option_map keys_view b
        ≡ option_map (λ s. keys_listed (bibliography_context_of request.now)
        (map (option_map (listed_view T.answers (map state_view states.now))) listed.now) order.now)
        (bibliography_context_of request.now).style.bibliography) }
    ensures effort { effort.new ≤ effort.old + option_map_or (λ s. length order.now)
        (bibliography_context_of request.now).style.bibliography 0 }
{
    match &request.style.parts().bibliography {
        Some(style) => {
            Ok(Some(listed_in(alloc, request, style, order, states, listed, effort)?))
        }
        None => Ok(None),
    }
}

/// The bibliography of a style.
fn listed_in<T: EntryLike>(
    alloc: Global,
    request: &BibliographyRequest<'_, T>,
    style: &Bibliography,
    order: &[usize],
    states: &[DisambiguateState],
    listed: &[Option<ListedCite<'_, '_, T>>],
    effort: &mut Effort,
) -> Result<RenderedBibliography, AllocError>
    requires order { All (λ p. p < length states.now) order.now }
    requires listed { length listed.now ≡ length states.now }
    requires own { AreAtIndices
        (map (option_map (listed_view T.answers (map state_view states.now))) listed.now) }
    ensures bibliography { IfOk result (λ b. rendered_bibliography_view b ≡ bibliography_from
        (bibliography_layout_view style.now) (trees_listed (bibliography_context_of request.now)
        (map (option_map (listed_view T.answers (map state_view states.now))) listed.now)
        order.now)) }
    ensures keys { IfOk result (λ b. keys_view b ≡ keys_listed (bibliography_context_of request.now)
        (map (option_map (listed_view T.answers (map state_view states.now))) listed.now)
        order.now) }
    ensures effort { effort.new ≤ effort.old + length order.now }
{
    let context = context_for(alloc, request)?;
    let ListedItems { trees, entries } = listed_items(
        alloc, &context, order, states, listed, effort,
    )?;
    bibliography_of(alloc, style, trees, &entries)
}

/// The style of a bibliography with the language that is asked for.
fn context_for<'r, T>(
    alloc: Global,
    request: &'r BibliographyRequest<'_, T>,
) -> Result<StyleContext<'r>, AllocError>
    ensures { IfOk result (λ x. style_context_view x ≡ bibliography_context_of request.now) }
{
    StyleContext::new(
        alloc,
        request.style,
        request.locale.as_ref(),
        request.locale_files,
    )
}

/// What is printed of entries in that order, so far as they are listed.
fn listed_items<'r, T: EntryLike>(
    alloc: Global,
    context: &StyleContext<'_>,
    order: &[usize],
    states: &[DisambiguateState],
    listed: &[Option<ListedCite<'r, '_, T>>],
    effort: &mut Effort,
) -> Result<ListedItems<'r, T>, AllocError>
    requires order { All (λ p. p < length states.now) order.now }
    requires listed { length listed.now ≡ length states.now }
    requires own { AreAtIndices
        (map (option_map (listed_view T.answers (map state_view states.now))) listed.now) }
    ensures trees { IfOk result (λ i. map printed_view i.trees.items
        ≡ trees_listed (style_context_view context.now) (map
        (option_map (listed_view T.answers (map state_view states.now))) listed.now) order.now) }
    ensures entries { IfOk result (λ i. length i.entries.items ≡ length i.trees.items) }
    ensures keys { IfOk result (λ i. keys_of T.answers i.entries.items
        ≡ keys_listed (style_context_view context.now) (map
        (option_map (listed_view T.answers (map state_view states.now))) listed.now) order.now) }
    ensures effort { effort.new ≤ effort.old + length order.now }
{
    let mut trees = Vec::with_capacity(alloc, order.len())?;
    let mut entries = Vec::with_capacity(alloc, order.len())?;
    for entry_index in order {
        let own = &listed[*entry_index];
        push_item(
            context,
            own,
            &states[*entry_index],
            &mut trees,
            &mut entries,
            effort,
        )?;
    }
    Ok(ListedItems { trees, entries })
}

/// Appends what is printed of an entry by its state, if it is listed.
fn push_item<'r, T: EntryLike>(
    context: &StyleContext<'_>,
    listed: &Option<ListedCite<'r, '_, T>>,
    state: &DisambiguateState,
    trees: &mut Vec<PrintedItem>,
    entries: &mut Vec<&'r T>,
    effort: &mut Effort,
) -> Result<(), AllocError>
    ensures trees { OnOk result (map printed_view trees.new.items ≡ map printed_view trees.old.items
        ++ option_to_list (option_and_then (item_listed (style_context_view context.now))
        (option_map (listed_in_state T.answers (state_view state.now)) listed.now))) }
    ensures entries { OnOk result (length entries.old.items ≡ length trees.old.items
        → length entries.new.items ≡ length trees.new.items) }
    ensures keys { OnOk result (keys_of T.answers entries.new.items
        ≡ keys_of T.answers entries.old.items
        ++ option_to_list (option_and_then (key_printed (style_context_view context.now))
        (option_map (listed_in_state T.answers (state_view state.now)) listed.now))) }
    ensures effort { effort.new ≤ effort.old + 1 }
{
    match listed {
        Some(cite) => push_printed(
            item_of(context, cite, state, effort)?,
            cite.entry,
            trees,
            entries,
        ),
        None => Ok(()),
    }
}

/// Appends what is printed of an entry, if anything is.
fn push_printed<'r, T: EntryLike>(
    printed: Option<PrintedItem>,
    entry: &'r T,
    trees: &mut Vec<PrintedItem>,
    entries: &mut Vec<&'r T>,
) -> Result<(), AllocError>
    ensures trees { OnOk result (map printed_view trees.new.items
        ≡ map printed_view trees.old.items ++ option_to_list (option_map printed_view printed)) }
    ensures entries { OnOk result (length entries.old.items ≡ length trees.old.items
        → length entries.new.items ≡ length trees.new.items) }
    ensures keys { OnOk result (keys_of T.answers entries.new.items
        ≡ keys_of T.answers entries.old.items ++ option_to_list
        (option_map (λ t. (T.answers entry.now).key) (option_map printed_view printed))) }
{
    if let Some(printed) = printed {
        trees.push(printed)?;
        entries.push(entry)?;
    }
    Ok(())
}

/// What is printed of an entry that is listed, by its state.
fn item_of<T: EntryLike>(
    context: &StyleContext<'_>,
    listed: &ListedCite<'_, '_, T>,
    state: &DisambiguateState,
    effort: &mut Effort,
) -> Result<Option<PrintedItem>, AllocError>
    ensures item { IfOk result (λ t. option_map printed_view t
        ≡ item_listed (style_context_view context.now)
        (listed_in_state T.answers (state_view state.now) listed.now)) }
    ensures effort { effort.new ≤ effort.old + 1 }
{
    let properties = listed
        .cite
        .properties(state.clone()?, None, listed.ibid, listed.usage);
    match context.bibliography(listed.entry, &properties, None, effort)? {
        Some(item) => Ok(Some(printed_item(item))),
        None => Ok(None),
    }
}

/// What is printed of an item, of what a call gives.
fn printed_item(item: Rendering) -> PrintedItem
    ensures { printed_view result ≡ printed_item (rendering_view item) }
{
    let Rendering {
        tree,
        met_disambiguate: _,
        names: _,
        identifier_usage: _,
        first_names,
    } = item;
    PrintedItem {
        tree,
        names: first_names,
    }
}
