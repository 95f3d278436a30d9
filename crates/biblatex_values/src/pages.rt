//! Ranges of pages.

ghost use Rattle.std.specs.Prelude.{◌≡◌, ◌++◌, ◌∷◌, [], MatchOption, None, Some, IfOk, OnOk};
ghost use Rattle.std.specs.Fmt.{decimal};
ghost use Rattle.std.specs.List.{flat_map};
ghost use Rattle.std.specs.Str.{chars};
ghost use Rattle.laws.specs.Characters.{en_dash};
ghost use Rattle.laws.specs.Results.{Gives, GivesRestOrRefuses, Reads};
ghost use Rattle.texts.specs.Views.{left};
ghost use Rattle.laws.specs.Text.{characters};
ghost use Rattle.biblatex_values.specs.Views.{refusal_of};
ghost use Rattle.biblatex_values.specs.Pages.{page_at, range_at, last_following, dashes_after, comma_after, next_range_at, range_of, ranges_at, ranges_of, range_text, ranges_text, more_text};

use crate::error::ListError;
use biblatex_dates::TypeErrorKind;
use std::alloc::{AllocError, Global};
use std::ops::Range;
use texts::{
    CharacterClass, Class, Reader, Unreadable, empty_text, push_text, split_first, split_run,
};

/// The page that stands here.
fn read_page(reader: &mut Reader) -> Result<u32, Unreadable>
    ensures { Reads (λ n. n) result (left reader.new) (page_at (left reader.old)) }
{
    Ok(reader.number()?.unsigned_abs())
}

/// What stands after dashes with spaces round them, if there are any.
fn split_dashes(text: &str) -> Option<&str>
    ensures { MatchOption result (dashes_after (chars text.now) ≡ None) (λ rest.
        dashes_after (chars text.now) ≡ Some (chars rest.now)) }
{
    let (_, rest) = split_run(text, Class::Space);
    let (c, _) = split_first(rest)?;
    if !Class::Dash.contains(c) {
        return None;
    }
    let (_, rest) = split_run(rest, Class::Dash);
    Some(split_run(rest, Class::Space).1)
}

/// What stands after a comma or an ampersand with spaces round it, if there is one.
fn split_comma(text: &str) -> Option<&str>
    ensures { MatchOption result (comma_after (chars text.now) ≡ None) (λ rest.
        comma_after (chars text.now) ≡ Some (chars rest.now)) }
{
    let (_, rest) = split_run(text, Class::Space);
    match split_first(rest)? {
        (',' | '&', rest) => Some(split_run(rest, Class::Space).1),
        _ => None,
    }
}

/// The pages from the first one to the one after dashes; where there are no dashes, the first one alone.
fn read_last(reader: &mut Reader, first: u32) -> Result<Range<u32>, Unreadable>
    ensures { Reads (λ r. r) result (left reader.new) (last_following first (left reader.old)) }
{
    match split_dashes(reader.rest) {
        None => Ok(first..first),
        Some(rest) => {
            reader.rest = rest;
            Ok(first..read_page(reader)?)
        }
    }
}

/// The page or the range of pages that stands here.
#[tactic(auto, unfolding(crate::specs::Pages::range_at))]
fn read_one(reader: &mut Reader) -> Result<Range<u32>, Unreadable>
    ensures { Reads (λ r. r) result (left reader.new) (range_at (left reader.old)) }
{
    let first = read_page(reader)?;
    read_last(reader, first)
}

/// Reads a page or a range of pages: a number of ASCII digits, or two with dashes between and spaces round these or none.
/// The dashes are hyphens, en dashes and em dashes, the numbers at most 2147483647. A page alone is the range from it to
/// itself. The last page may stand before the first. Takes no memory.
///
/// # Errors
/// `Unreadable` for every other text.
pub fn read_range(text: &str) -> Result<Range<u32>, TypeErrorKind>
    ensures { result ≡ range_of (chars text.now) }
{
    let mut reader = Reader::new(text);
    match read_one(&mut reader) {
        Ok(range) if split_first(reader.rest).is_none() => Ok(range),
        _ => Err(TypeErrorKind::Unreadable),
    }
}

/// The comma or the ampersand and the range that stand here, or nothing.
#[tactic(auto, unfolding(crate::specs::Pages::next_range_at))]
fn next_range(reader: &mut Reader) -> Result<Option<Range<u32>>, Unreadable>
    ensures { Reads (λ r. r) result (left reader.new) (next_range_at (left reader.old)) }
{
    match split_comma(reader.rest) {
        None => Ok(None),
        Some(rest) => {
            reader.rest = rest;
            Ok(Some(read_one(reader)?))
        }
    }
}

/// The ranges that stand here.
fn read_all(alloc: Global, reader: &mut Reader) -> Result<Vec<Range<u32>>, ListError>
    ensures { GivesRestOrRefuses refusal_of (λ v. v.items) result
        (left reader.new) (ranges_at (left reader.old)) }
{
    let first = read_one(reader)?;
    let mut ranges = Vec::new(alloc);
    ranges.push(first)?;
    while let Some(range) = next_range(reader)? {
        ranges.push(range)?;
    }
    Ok(ranges)
}

/// Reads ranges as `read_range` does, parted by commas or ampersands with spaces round them or none.
///
/// # Errors
/// `Unreadable` for every other text, the empty one too; `Memory` where a request for memory was refused.
pub fn read_ranges(alloc: Global, text: &str) -> Result<Vec<Range<u32>>, ListError>
    ensures { Gives refusal_of (λ v. v.items) result (ranges_of (chars text.now)) }
{
    let mut reader = Reader::new(text);
    let ranges = read_all(alloc, &mut reader)?;
    reader.end()?;
    Ok(ranges)
}

/// The digits of a page.
fn page_text(alloc: Global, page: u32) -> Result<String, AllocError>
    ensures { IfOk result (λ s. characters s ≡ decimal page) }
{
    page.to_string(alloc)
}

/// Appends the digits of a page.
fn push_page(alloc: Global, text: &mut String, page: u32) -> Result<(), AllocError>
    ensures { OnOk result (characters text.new ≡ characters text.old ++ decimal page) }
{
    push_text(text, page_text(alloc, page)?.as_str())
}

/// Appends an en dash and the digits of a page.
fn push_last(alloc: Global, text: &mut String, page: u32) -> Result<(), AllocError>
    ensures { OnOk result (characters text.new ≡ characters text.old ++ en_dash ∷ decimal page) }
{
    push_text(text, "\u{2013}")?;
    push_page(alloc, text, page)
}

/// Appends a page or a range.
fn push_range(alloc: Global, text: &mut String, range: &Range<u32>) -> Result<(), AllocError>
    ensures { OnOk result (characters text.new ≡ characters text.old ++ range_text range.now) }
{
    push_page(alloc, text, range.start)?;
    if range.start == range.end {
        return Ok(());
    }
    push_last(alloc, text, range.end)
}

/// The range as a text: its first page, and where the last one is another, an en dash and the last one.
pub fn range_text(alloc: Global, range: &Range<u32>) -> Result<String, AllocError>
    ensures { IfOk result (λ s. characters s ≡ range_text range.now) }
{
    let mut text = empty_text(alloc);
    push_range(alloc, &mut text, range)?;
    Ok(text)
}

/// Appends a comma, a space and a range.
fn push_more(alloc: Global, text: &mut String, range: &Range<u32>) -> Result<(), AllocError>
    ensures { OnOk result (characters text.new ≡ characters text.old ++ more_text range.now) }
{
    push_text(text, ", ")?;
    push_range(alloc, text, range)
}

/// Appends ranges, each after a comma and a space.
fn push_others(alloc: Global, text: &mut String, ranges: &[Range<u32>]) -> Result<(), AllocError>
    ensures { OnOk result (characters text.new
        ≡ characters text.old ++ flat_map more_text ranges.now) }
{
    for range in ranges {
        push_more(alloc, text, range)?;
    }
    Ok(())
}

/// The ranges as a text, with a comma and a space between.
pub fn ranges_text(alloc: Global, ranges: &[Range<u32>]) -> Result<String, AllocError>
    ensures { IfOk result (λ s. characters s ≡ ranges_text ranges.now) }
{
    let mut text = empty_text(alloc);
    if let Some((first, others)) = ranges.split_first() {
        push_range(alloc, &mut text, first)?;
        push_others(alloc, &mut text, others)?;
    }
    Ok(text)
}
