//! Blocks whose years are collapsed.

ghost use Rattle.std.specs.Prelude.{◌≡◌, ◌++◌, false, if◌then◌else◌, IfOk, OnOk, map};
ghost use Rattle.std.specs.Option.{option_map, option_map_or};
ghost use Rattle.rendering_style.specs.Styles.{Citation};
ghost use Rattle.driver_requests.specs.SuffixViews.{suffix_view};
ghost use Rattle.driver_blocks.specs.Collapsing.{delimiter_after_collapsed, are_of_one_class, block_by, is_further, last_suffix, later, later_cites, leaves_year_out, verdict_delimiter, verdict_in, uncollapsed, year_block, years_collapsed};
ghost use Rattle.driver_blocks.specs.Views.{arranged_view, before_view, blocks_view, gathered_view};

use crate::cite::{Arranged, Before, Gathered, uncollapsed};
use crate::suffixes::push_suffixes;
use driver_requests::Suffix;
use rendering_taxonomy::{Collapse, CollapseVerdict};
use std::alloc::{AllocError, Global};

/// Blocks whose years are collapsed by a mode; the flag says whether no years repeat.
pub(crate) fn collapse_years<'a>(
    alloc: Global,
    repeats_none: bool,
    mode: Collapse,
    blocks: &[Vec<Gathered<'a>>],
) -> Result<Vec<Arranged<'a>>, AllocError>
    ensures { IfOk result (λ v. (c : Citation)
        → map (arranged_view c) v.items
        ≡ years_collapsed c repeats_none mode (blocks_view blocks.now)) }
{
    let mut all = Vec::new(alloc);
    let mut is_after = false;
    for block in blocks {
        push_block(alloc, repeats_none, mode, is_after, block, &mut all)?;
        is_after = block.len() >= 2;
    }
    Ok(all)
}

/// Appends a block by the mode, after one of two or more or another one.
fn push_block<'a>(
    alloc: Global,
    repeats_none: bool,
    mode: Collapse,
    is_after: bool,
    block: &[Gathered<'a>],
    all: &mut Vec<Arranged<'a>>,
) -> Result<(), AllocError>
    ensures { OnOk result ((c : Citation)
        → map (arranged_view c) all.new.items ≡ map (arranged_view c) all.old.items
        ++ block_by c repeats_none mode (is_after, map gathered_view block.now)) }
{
    match mode {
        Collapse::YearSuffixRanged => {
            let mut cites = Vec::with_capacity(alloc, block.len())?;
            push_year_block(repeats_none, mode, is_after, block, &mut cites)?;
            push_suffixes(&cites, all)
        }
        _ => push_year_block(repeats_none, mode, is_after, block, all),
    }
}

/// Appends a block of which the first cite prints all, after one of two or more or another one.
fn push_year_block<'a>(
    repeats_none: bool,
    mode: Collapse,
    is_after: bool,
    block: &[Gathered<'a>],
    all: &mut Vec<Arranged<'a>>,
) -> Result<(), AllocError>
    ensures { OnOk result ((c : Citation)
        → map (arranged_view c) all.new.items ≡ map (arranged_view c) all.old.items
        ++ year_block c repeats_none mode (is_after, map gathered_view block.now)) }
{
    match block.split_first() {
        Some((first, others)) => {
            all.push(first_of_block(is_after, *first))?;
            push_later(repeats_none, mode, last_suffix(None, *first), others, all)
        }
        None => Ok(()),
    }
}

/// The first cite of a block.
fn first_of_block<'a>(is_after: bool, cite: Gathered<'a>) -> Arranged<'a>
    ensures { (c : Citation) → arranged_view c result
        ≡ uncollapsed (if is_after then delimiter_after_collapsed c else c.layout.delimiter)
        (gathered_view cite.entry) }
{
    if is_after {
        uncollapsed(Before::AfterCollapse, cite)
    } else {
        uncollapsed(Before::Layout, cite)
    }
}

/// Appends the later cites of a block, after the last year suffix that is shown before them.
fn push_later<'a>(
    repeats_none: bool,
    mode: Collapse,
    shown: Option<Suffix>,
    cites: &[Gathered<'a>],
    all: &mut Vec<Arranged<'a>>,
) -> Result<(), AllocError>
    ensures { OnOk result ((c : Citation) → map (arranged_view c) all.new.items
        ≡ map (arranged_view c) all.old.items ++ later_cites c repeats_none mode
        (option_map suffix_view shown) (map gathered_view cites.now)) }
{
    let mut last = shown;
    for cite in cites {
        all.push(later(repeats_none, mode, last, *cite))?;
        last = last_suffix(last, *cite);
    }
    Ok(())
}

/// The year suffix of the last cite that is shown, once another cite stands.
fn last_suffix(last: Option<Suffix>, cite: Gathered) -> Option<Suffix>
    ensures { option_map suffix_view result
        ≡ last_suffix (option_map suffix_view last) (gathered_view cite.entry) }
{
    if cite.is_shown { cite.suffix } else { last }
}

/// A later cite of a block, after the last year suffix that is shown before it.
fn later<'a>(
    repeats_none: bool,
    mode: Collapse,
    last: Option<Suffix>,
    cite: Gathered<'a>,
) -> Arranged<'a>
    ensures { (c : Citation) → arranged_view c result
        ≡ later c repeats_none mode (option_map suffix_view last) (gathered_view cite.entry) }
{
    let verdict = verdict_in(repeats_none, mode, last, cite.suffix);
    Arranged {
        cite,
        is_shown: cite.is_shown,
        before: before_left(verdict),
        verdict: Some(verdict),
    }
}

/// What is left of a later cite of a block: its first date, or in some modes its year suffix alone, if it leaves its year out.
fn verdict_in(
    repeats_none: bool,
    mode: Collapse,
    last: Option<Suffix>,
    suffix: Option<Suffix>,
) -> CollapseVerdict
    ensures { result ≡ verdict_in repeats_none mode (option_map suffix_view last)
        (option_map suffix_view suffix) }
{
    match mode {
        Collapse::CitationNumber | Collapse::Year => CollapseVerdict::First,
        Collapse::YearSuffix | Collapse::YearSuffixRanged => {
            if leaves_year_out(repeats_none, last, suffix) {
                CollapseVerdict::YearSuffix
            } else {
                CollapseVerdict::First
            }
        }
    }
}

/// Whether a cite leaves its year out: where no years repeat, if its year suffix and the last one before it are of one class, else if
/// its own is not the first one.
fn leaves_year_out(repeats_none: bool, last: Option<Suffix>, suffix: Option<Suffix>) -> bool
    ensures { result ≡ leaves_year_out repeats_none (option_map suffix_view last)
        (option_map suffix_view suffix) }
{
    if repeats_none {
        are_of_one_class(last, suffix)
    } else {
        is_further(suffix)
    }
}

/// Whether two year suffixes are of one class.
fn are_of_one_class(last: Option<Suffix>, suffix: Option<Suffix>) -> bool
    ensures { result
        ≡ are_of_one_class (option_map suffix_view last) (option_map suffix_view suffix) }
{
    match (last, suffix) {
        (Some(last), Some(suffix)) => {
            last.origin.round == suffix.origin.round && last.origin.class == suffix.origin.class
        }
        _ => false,
    }
}

/// Whether there is a year suffix other than the first one.
fn is_further(suffix: Option<Suffix>) -> bool
    ensures { result ≡ option_map_or is_further (option_map suffix_view suffix) false }
{
    match suffix {
        Some(suffix) => suffix.index > 0,
        None => false,
    }
}

/// What stands before what is left.
fn before_left(verdict: CollapseVerdict) -> Before
    ensures { (c : Citation) → before_view c result ≡ verdict_delimiter c verdict }
{
    match verdict {
        CollapseVerdict::First => Before::Inside,
        CollapseVerdict::YearSuffix => Before::YearSuffix,
    }
}
