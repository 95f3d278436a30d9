//! The order in which the cites of a citation stand, and what is left of them.

ghost use Rattle.std.specs.Prelude.{◌≡◌, ◌∷◌, ◌++◌, [], Bool, IfOk, IfSome, OnOk, None, if◌then◌else◌, map};
ghost use Rattle.std.specs.List.{flat_map};
ghost use Rattle.rendering_style.specs.Styles as styles;
ghost use Rattle.rendering_style.specs.Views.{citation_layout_view};
ghost use Rattle.driver_blocks.specs.Collapsing.{arranged, collapsed, uncollapsed, uncollapsed_block};
ghost use Rattle.driver_blocks.specs.Views.{arranged_view, before_view, blocks_view, gathered_view};

use crate::blocks::blocks_of;
use crate::cite::{Arranged, Before, Gathered, uncollapsed};
use crate::numbers::collapse_numbers;
use crate::years::collapse_years;
use rendering_style::Citation;
use rendering_taxonomy::Collapse;
use std::alloc::{AllocError, Global};

/// The cites of a citation in the order in which they stand. Where one of them has a purpose nothing is collapsed.
///
/// # Errors
/// Out of memory.
pub fn arrange<'a>(
    alloc: Global,
    style: &Citation,
    has_purpose: bool,
    cites: &[Gathered<'a>],
) -> Result<Vec<Arranged<'a>>, AllocError>
    ensures { IfOk result (λ v. map (arranged_view (citation_layout_view style.now)) v.items
        ≡ arranged (citation_layout_view style.now) has_purpose (map gathered_view cites.now)) }
{
    match only(cites) {
        Some(cite) => whole(alloc, cite),
        None => arrange_all(alloc, style, has_purpose, cites),
    }
}

/// The cite of a citation of one cite.
fn only<'a>(cites: &[Gathered<'a>]) -> Option<Gathered<'a>>
    ensures { IfSome result (λ g. map gathered_view cites.now ≡ gathered_view g ∷ []) }
{
    match cites.split_first() {
        Some((first, others)) => first_alone(cites, first, others),
        None => None,
    }
}

/// The first of some cites, unless there are others.
fn first_alone<'a>(
    cites: &[Gathered<'a>],
    first: &Gathered<'a>,
    others: &[Gathered<'a>],
) -> Option<Gathered<'a>>
    requires { cites.now ≡ first.now ∷ others.now }
    ensures { IfSome result (λ g. map gathered_view cites.now ≡ gathered_view g ∷ []) }
{
    if others.is_empty() {
        return Some(*first);
    }
    None
}

/// A citation of one cite, which prints all of that.
fn whole<'a>(alloc: Global, cite: Gathered<'a>) -> Result<Vec<Arranged<'a>>, AllocError>
    ensures { (c : styles.Citation) (has_purpose : Bool)
        → IfOk result (λ v. map (arranged_view c) v.items
        ≡ arranged c has_purpose (gathered_view cite.entry ∷ [])) }
{
    one(alloc, uncollapsed(Before::Layout, cite))
}

/// One cite.
fn one<'a>(alloc: Global, cite: Arranged<'a>) -> Result<Vec<Arranged<'a>>, AllocError>
    ensures { IfOk result (λ v. v.items ≡ cite.entry ∷ []) }
{
    let mut cites = Vec::with_capacity(alloc, 1)?;
    cites.push(cite)?;
    Ok(cites)
}

/// Cites in blocks, which are collapsed.
fn arrange_all<'a>(
    alloc: Global,
    style: &Citation,
    has_purpose: bool,
    cites: &[Gathered<'a>],
) -> Result<Vec<Arranged<'a>>, AllocError>
    ensures { IfOk result (λ v. map (arranged_view (citation_layout_view style.now)) v.items
        ≡ arranged (citation_layout_view style.now) has_purpose (map gathered_view cites.now)) }
{
    let blocks = blocks_of(alloc, style, cites)?;
    collapse(alloc, style, mode(has_purpose, style.collapse), &blocks)
}

/// The mode by which a citation is collapsed, if it is.
fn mode(has_purpose: bool, collapse: Option<Collapse>) -> Option<Collapse>
    ensures { result ≡ (if has_purpose then None else collapse) }
{
    if has_purpose { None } else { collapse }
}

/// Blocks collapsed by a mode, or as they are where there is none.
fn collapse<'a>(
    alloc: Global,
    style: &Citation,
    mode: Option<Collapse>,
    blocks: &[Vec<Gathered<'a>>],
) -> Result<Vec<Arranged<'a>>, AllocError>
    ensures { IfOk result (λ v. map (arranged_view (citation_layout_view style.now)) v.items
        ≡ collapsed (citation_layout_view style.now) mode (blocks_view blocks.now)) }
{
    match mode {
        None => uncollapsed_blocks(alloc, blocks),
        Some(Collapse::CitationNumber) => {
            let cites = uncollapsed_blocks(alloc, blocks)?;
            collapse_numbers(alloc, style.locators_end_runs, &cites)
        }
        Some(mode) => collapse_years(alloc, style.repeats_no_years, mode, blocks),
    }
}

/// Blocks whose cites print all.
fn uncollapsed_blocks<'a>(
    alloc: Global,
    blocks: &[Vec<Gathered<'a>>],
) -> Result<Vec<Arranged<'a>>, AllocError>
    ensures { IfOk result (λ v. (c : styles.Citation)
        → map (arranged_view c) v.items ≡ flat_map (uncollapsed_block c) (blocks_view blocks.now)) }
{
    let mut all = Vec::new(alloc);
    for block in blocks {
        push_whole(block, &mut all)?;
    }
    Ok(all)
}

/// Appends a block whose cites print all.
fn push_whole<'a>(block: &[Gathered<'a>], all: &mut Vec<Arranged<'a>>) -> Result<(), AllocError>
    ensures { OnOk result ((c : styles.Citation)
        → map (arranged_view c) all.new.items ≡ map (arranged_view c) all.old.items
        ++ uncollapsed_block c (map gathered_view block.now)) }
{
    match block.split_first() {
        Some((first, others)) => {
            all.push(uncollapsed(Before::Layout, *first))?;
            push_each(Before::Inside, others, all)
        }
        None => Ok(()),
    }
}

/// Appends cites that print all.
fn push_each<'a>(
    before: Before,
    cites: &[Gathered<'a>],
    all: &mut Vec<Arranged<'a>>,
) -> Result<(), AllocError>
    ensures { OnOk result ((c : styles.Citation)
        → map (arranged_view c) all.new.items ≡ map (arranged_view c) all.old.items
        ++ map (uncollapsed (before_view c before)) (map gathered_view cites.now)) }
{
    for cite in cites {
        all.push(uncollapsed(before, *cite))?;
    }
    Ok(())
}
