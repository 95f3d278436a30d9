//! What a call gives.

ghost use Rattle.std.specs.Prelude.{◌≡◌, IfOk};
ghost use Rattle.std.specs.Option.{option_map};
ghost use Rattle.rendering_tree.specs.Trees.{names_element};
ghost use Rattle.rendering_tree.specs.Views.{element_view, tree_view};
ghost use Rattle.rendering.specs.Purposes.{completed, rendered, rendered_aligned, rendered_item, usage_by, finished_item, named_item, nameless_item, names_before_meeting, with_first_names, with_names_of_tree};
ghost use Rattle.rendering.specs.Views.{rendering_view};
ghost use Rattle.rendering_page.specs.Views.{quotes_view};

use crate::blocks::text_in_block;
use crate::second_field::joined_tree;
use crate::trimming::trim_end;
use rendering_leaves::State;
use rendering_page::Page;
use rendering_people::NameDisambiguationProperties;
use rendering_taxonomy::{IdentifierUsage, SecondFieldAlign};
use rendering_tree::{Elem, ElemChildren};
use std::alloc::AllocError;

/// What a call gives: a tree, and what became known while it was made.
#[derive(Debug, Drop)]
pub struct Rendering {
    pub tree: ElemChildren,
    /// Whether the test `disambiguate` was evaluated.
    pub met_disambiguate: bool,
    /// What was printed of the first names by their options.
    pub names: Option<NameDisambiguationProperties>,
    /// Which identifiers were printed.
    pub identifier_usage: IdentifierUsage,
    /// Of an item its first names where a text stands for names that repeat, in a published style as they were before texts met.
    pub first_names: Option<Elem>,
}

/// The tree of what was appended, and what became known.
pub(crate) fn rendered(quotes: &[&str], state: State<'_>) -> Result<Rendering, AllocError>
    ensures { IfOk result (λ r. rendering_view r
        ≡ rendered (quotes_view quotes.now) state.entry) }
{
    rendered_aligned(quotes, None, state)
}

/// The tree of an item, and what became known; with its first names where a text stands for names that repeat.
pub(crate) fn rendered_item(
    quotes: &[&str],
    substitutes: bool,
    state: State<'_>,
) -> Result<Rendering, AllocError>
    ensures { IfOk result (λ r. rendering_view r
        ≡ rendered_item (quotes_view quotes.now) substitutes state.entry) }
{
    if substitutes {
        named_item(quotes, state)
    } else {
        nameless_item(quotes, state)
    }
}

/// The tree of an item, and what became known but its first names. In a published style it ends in no white space, nor in a text after a
/// block.
fn nameless_item(quotes: &[&str], state: State<'_>) -> Result<Rendering, AllocError>
    ensures { IfOk result (λ r. rendering_view r
        ≡ nameless_item (quotes_view quotes.now) state.entry) }
{
    let is_finished = state.is_published;
    if is_finished {
        return finished_item(rendered(quotes, state)?);
    }
    rendered(quotes, state)
}

/// The tree of an item with its first names, and what became known. In a published style it ends in no white space, nor in a text after a
/// block.
fn named_item(quotes: &[&str], state: State<'_>) -> Result<Rendering, AllocError>
    ensures { IfOk result (λ r. rendering_view r
        ≡ named_item (quotes_view quotes.now) state.entry) }
{
    let is_published = state.is_published;
    if is_published {
        let names = names_before_meeting(&state)?;
        let item = finished_item(rendered(quotes, state)?)?;
        return Ok(with_first_names(names, item));
    }
    with_names_of_tree(rendered(quotes, state)?)
}

/// The first names of what was appended, before its texts meet.
fn names_before_meeting(state: &State<'_>) -> Result<Option<Elem>, AllocError>
    ensures { IfOk result (λ n. option_map (λ e. element_view e) n
        ≡ names_before_meeting state.now) }
{
    let State {
        page,
        has_date: _,
        suppressed: _,
        met_disambiguate: _,
        names: _,
        used_label: _,
        used_number: _,
        is_published: _,
        printed: _,
    } = state.copied()?;
    let tree = joined_tree(page, None)?;
    copied_names(&tree)
}

/// A copy of the first names of a tree.
fn copied_names(tree: &ElemChildren) -> Result<Option<Elem>, AllocError>
    ensures { IfOk result (λ n. option_map (λ e. element_view e) n
        ≡ names_element (tree_view tree.now)) }
{
    match tree.find_names() {
        Some(names) => Ok(Some(names.clone()?)),
        None => Ok(None),
    }
}

/// What is rendered with these first names.
fn with_first_names(names: Option<Elem>, item: Rendering) -> Rendering
    ensures { rendering_view result ≡ with_first_names
        (option_map (λ e. element_view e) names) (rendering_view item) }
{
    let Rendering {
        tree,
        met_disambiguate,
        names: properties,
        identifier_usage,
        first_names: _,
    } = item;
    Rendering {
        tree,
        met_disambiguate,
        names: properties,
        identifier_usage,
        first_names: names,
    }
}

/// What is rendered with the first names of its tree.
fn with_names_of_tree(item: Rendering) -> Result<Rendering, AllocError>
    ensures { IfOk result (λ r. rendering_view r ≡ with_names_of_tree (rendering_view item)) }
{
    let names = copied_names(&item.tree)?;
    Ok(with_first_names(names, item))
}

/// An item that ends in no white space, nor in a text after a block, which stands in that.
fn finished_item(item: Rendering) -> Result<Rendering, AllocError>
    ensures { IfOk result (λ r. rendering_view r ≡ finished_item (rendering_view item)) }
{
    let Rendering {
        tree,
        met_disambiguate,
        names,
        identifier_usage,
        first_names,
    } = item;
    let tree = trim_end(text_in_block(tree)?)?;
    Ok(Rendering {
        tree,
        met_disambiguate,
        names,
        identifier_usage,
        first_names,
    })
}

/// The tree of what was appended, and what became known. Where a second field is aligned the first one stands in front.
pub(crate) fn rendered_aligned(
    quotes: &[&str],
    align: Option<SecondFieldAlign>,
    state: State<'_>,
) -> Result<Rendering, AllocError>
    ensures { IfOk result (λ r. rendering_view r
        ≡ rendered_aligned (quotes_view quotes.now) align state.entry) }
{
    let State {
        page,
        has_date: _,
        suppressed: _,
        met_disambiguate,
        names,
        used_label,
        used_number,
        is_published: _,
        printed: _,
    } = state;
    let tree = joined_tree(completed(quotes, page)?, align)?;
    Ok(Rendering {
        tree,
        met_disambiguate,
        names,
        identifier_usage: usage_by(used_label, used_number),
        first_names: None,
    })
}

/// A page of which all texts are joined, where its rule says so. Punctuation goes inside quotes if there are some for that.
fn completed<'a>(quotes: &[&str], page: Page<'a>) -> Result<Page<'a>, AllocError>
    ensures { IfOk result (λ p. p ≡ completed (quotes_view quotes.now) page.entry) }
{
    let mut page = page;
    page.join(!quotes.is_empty())?;
    Ok(page)
}

/// Which identifiers were printed.
fn usage_by(label: bool, number: bool) -> IdentifierUsage
    ensures { result ≡ usage_by label number }
{
    match (label, number) {
        (false, false) => IdentifierUsage::None,
        (true, false) => IdentifierUsage::OnlyCitationLabel,
        (false, true) => IdentifierUsage::OnlyCitationNumber,
        (true, true) => IdentifierUsage::Mixed,
    }
}
