//! Citations from what their cites print.

ghost use Rattle.std.specs.Prelude.{◌≡◌, map, IfOk, None, OnOk};
ghost use Rattle.std.specs.Option.{option_map};
ghost use Rattle.std.specs.Str.{chars};
ghost use Rattle.rendering.specs.Ends.{trimmed_tree};
ghost use Rattle.rendering_style.specs.Views.{layout_view};
ghost use Rattle.rendering_tree.specs.Trees.{followed_by};
ghost use Rattle.rendering_tree.specs.Views.{tree_view};
ghost use Rattle.driver_citations.specs.Citations.{affixed, as_printed, citation_of, is_printed, text_after};
ghost use Rattle.rendering_page.specs.Views.{quotes_view};
ghost use Rattle.driver_citations.specs.Joining.{delimited_after, finished, put_cite, put_cites, put_shown, shown_view, suffix_put};

use crate::ending_text::{end_of, ends_in};
use crate::layout_texts::{citation_look, push_after, push_own};
use crate::meeting::delimiter_before;
use rendering::trim_end;
use rendering_style::Layout;
use rendering_taxonomy::Formatting;
use rendering_tree::{Elem, ElemChild, ElemChildren, ElemMeta, simplify_children};
use std::alloc::{AllocError, Global};
use texts::{or_empty, text_or_empty};

/// A cite that is shown: the delimiter before it if it is not the first, its index in its request, and what it prints.
#[derive(Drop)]
pub struct ShownCite<'s> {
    pub delimiter: Option<&'s str>,
    pub index: usize,
    pub tree: ElemChildren,
}

/// A citation: its cites in the affixes of the layout, or without these where one has a purpose; where none is shown, nothing. With
/// `quotes` texts are joined: cites that print nothing are not shown, delimiters and the suffix meet the text before them, delimiters also
/// the one after them, and these are the close quotes inside which punctuation goes. Such a citation ends in no white space.
pub fn citation_of(
    alloc: Global,
    layout: &Layout,
    quotes: Option<&[&str]>,
    some_purpose: bool,
    cites: Vec<ShownCite<'_>>,
) -> Result<ElemChildren, AllocError>
    ensures { IfOk result (λ t. tree_view t
        ≡ citation_of (option_map (λ q. quotes_view q.now) quotes.entry) (layout_view layout.now)
        some_purpose (map shown_view cites.entry.items)) }
{
    let joined = joined_cites(alloc, citation_look(layout), quotes, cites)?;
    finished(alloc, layout, quotes, some_purpose, joined)
}

/// Cites one after the other.
fn joined_cites(
    alloc: Global,
    look: Formatting,
    quotes: Option<&[&str]>,
    cites: Vec<ShownCite<'_>>,
) -> Result<ElemChildren, AllocError>
    ensures { IfOk result (λ t. tree_view t
        ≡ put_cites (option_map (λ q. quotes_view q.now) quotes.entry) look
        (map shown_view cites.entry.items)) }
{
    let mut joined = ElemChildren::new(alloc);
    for cite in cites {
        push_shown(alloc, look, quotes, cite, &mut joined)?;
    }
    Ok(joined)
}

/// Appends a cite, if it is printed.
fn push_shown(
    alloc: Global,
    look: Formatting,
    quotes: Option<&[&str]>,
    cite: ShownCite<'_>,
    joined: &mut ElemChildren,
) -> Result<(), AllocError>
    ensures { OnOk result (tree_view joined.new
        ≡ put_shown (option_map (λ q. quotes_view q.now) quotes.entry) look (tree_view joined.old)
        (shown_view cite.entry)) }
{
    if !is_printed(quotes, &cite.tree) {
        return Ok(());
    }
    push_cite(alloc, look, quotes, cite, joined)
}

/// Whether a cite is printed: where texts are joined one that prints nothing is not.
fn is_printed(quotes: Option<&[&str]>, tree: &ElemChildren) -> bool
    ensures { result
        ≡ is_printed (option_map (λ q. quotes_view q.now) quotes.entry) (tree_view tree.now) }
{
    match quotes {
        Some(_) => !tree.is_empty(),
        None => true,
    }
}

fn push_cite(
    alloc: Global,
    look: Formatting,
    quotes: Option<&[&str]>,
    cite: ShownCite<'_>,
    joined: &mut ElemChildren,
) -> Result<(), AllocError>
    ensures { OnOk result (tree_view joined.new
        ≡ put_cite (option_map (λ q. quotes_view q.now) quotes.entry) look (tree_view joined.old)
        (shown_view cite.entry)) }
{
    let ShownCite {
        delimiter,
        index,
        tree,
    } = cite;
    push_delimiter(
        alloc,
        look,
        quotes,
        delimiter_before(quotes, &tree, or_empty(delimiter)),
        joined,
    )?;
    joined.push(ElemChild::Elem(Elem {
        children: tree,
        display: None,
        meta: Some(ElemMeta::Entry(index)),
    }))
}

/// Appends a delimiter, if anything stands before it.
fn push_delimiter(
    alloc: Global,
    look: Formatting,
    quotes: Option<&[&str]>,
    delimiter: &str,
    joined: &mut ElemChildren,
) -> Result<(), AllocError>
    ensures { OnOk result (tree_view joined.new
        ≡ delimited_after (option_map (λ q. quotes_view q.now) quotes.entry) look
        (tree_view joined.old) (chars delimiter.now)) }
{
    if joined.is_empty() {
        return Ok(());
    }
    push_after(alloc, look, quotes, delimiter, joined)
}

/// What is printed in the affixes of the layout, or without these where a cite has a purpose, if anything is printed.
fn finished(
    alloc: Global,
    layout: &Layout,
    quotes: Option<&[&str]>,
    some_purpose: bool,
    joined: ElemChildren,
) -> Result<ElemChildren, AllocError>
    ensures { IfOk result (λ t. tree_view t
        ≡ finished (option_map (λ q. quotes_view q.now) quotes.entry) (layout_view layout.now)
        some_purpose (tree_view joined)) }
{
    if joined.is_empty() {
        return Ok(joined);
    }
    if some_purpose {
        as_printed(quotes, joined)
    } else {
        affixed(alloc, layout, quotes, joined)
    }
}

/// A tree in its normal form, and where texts are joined without the white space at its end.
fn as_printed(quotes: Option<&[&str]>, tree: ElemChildren) -> Result<ElemChildren, AllocError>
    ensures { IfOk result (λ t. tree_view t
        ≡ as_printed (option_map (λ q. quotes_view q.now) quotes.entry) (tree_view tree)) }
{
    match quotes {
        Some(_) => trim_end(tree),
        None => simplify_children(tree),
    }
}

/// What is printed in the affixes of the layout.
pub(crate) fn affixed(
    alloc: Global,
    layout: &Layout,
    quotes: Option<&[&str]>,
    inside: ElemChildren,
) -> Result<ElemChildren, AllocError>
    ensures { IfOk result (λ t. tree_view t
        ≡ as_printed (option_map (λ q. quotes_view q.now) quotes.entry)
        (affixed (option_map (λ q. quotes_view q.now) quotes.entry) (layout_view layout.now)
        (tree_view inside))) }
{
    let look = citation_look(layout);
    let mut parts = ElemChildren::new(alloc);
    push_own(alloc, look, text_or_empty(&layout.prefix), &mut parts)?;
    append(inside, &mut parts)?;
    let simple = simplify_children(parts)?;
    put_suffix(alloc, look, quotes, text_or_empty(&layout.suffix), simple)
}

/// A tree in its normal form with a suffix, which meets what stands there where texts are joined, as it is printed.
fn put_suffix(
    alloc: Global,
    look: Formatting,
    quotes: Option<&[&str]>,
    suffix: &str,
    simple: ElemChildren,
) -> Result<ElemChildren, AllocError>
    ensures { IfOk result (λ t. tree_view t
        ≡ suffix_put (option_map (λ q. quotes_view q.now) quotes.entry) look (chars suffix.now)
        (tree_view simple)) }
{
    match quotes {
        Some(_) => put_met(alloc, look, quotes, suffix, simple),
        None => put_unrepeated(alloc, look, suffix, simple),
    }
}

/// A tree with a suffix that meets what stands there, in its normal form without the white space at its end.
fn put_met(
    alloc: Global,
    look: Formatting,
    quotes: Option<&[&str]>,
    suffix: &str,
    simple: ElemChildren,
) -> Result<ElemChildren, AllocError>
    ensures { IfOk result (λ t. tree_view t
        ≡ trimmed_tree (text_after (option_map (λ q. quotes_view q.now) quotes.entry) look
        (chars suffix.now) (tree_view simple))) }
{
    let mut parts = simple;
    push_after(alloc, look, quotes, suffix, &mut parts)?;
    trim_end(parts)
}

/// A tree in its normal form with a suffix that it does not end in.
fn put_unrepeated(
    alloc: Global,
    look: Formatting,
    suffix: &str,
    simple: ElemChildren,
) -> Result<ElemChildren, AllocError>
    ensures { IfOk result (λ t. tree_view t
        ≡ suffix_put None look (chars suffix.now) (tree_view simple)) }
{
    if ends_in(suffix, end_of(&simple)) {
        return Ok(simple);
    }
    let mut parts = simple;
    push_own(alloc, look, suffix, &mut parts)?;
    simplify_children(parts)
}

pub(crate) fn append(more: ElemChildren, parts: &mut ElemChildren) -> Result<(), AllocError>
    ensures { OnOk result (tree_view parts.new
        ≡ followed_by (tree_view parts.old) (tree_view more)) }
{
    for part in more.into_vec() {
        parts.push(part)?;
    }
    Ok(())
}
