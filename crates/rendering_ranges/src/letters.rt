//! Ranges of pages with letters before their numbers, as `E1425-E1431`.

ghost use Rattle.std.specs.Prelude.{◌≡◌, ◌++◌, IfOk, MatchOption, None, OnOk, Some};
ghost use Rattle.std.specs.List.{list_all};
ghost use Rattle.std.specs.Str.{chars};
ghost use Rattle.laws.specs.Text.{characters};
ghost use Rattle.rendering_ranges.specs.Counts.{shortened};
ghost use Rattle.rendering_ranges.specs.Lettered.{are_digits, are_in_order, are_lettered, differ_in_digits, ending, in_format, is_of_side, is_shortened, later, lettered, number, second_side, shortened_range, shortens, with_digit};

use crate::dashes::{dashed, is_dash, is_undivided};
use crate::digits::push_last;
use crate::formats::printed;
use rendering_taxonomy::PageRangeFormat;
use std::alloc::{AllocError, Global};
use texts::{CharacterClass, has_text, owned, push_character, split_first, split_run};

/// A copy of a text that stands instead of pages, in a format where there is one: the hyphens of its ranges are en dashes. One range of
/// numbers after the same letters has its second number as the format shortens it, without the letters.
///
/// # Errors
/// Out of memory.
pub fn lettered(
    alloc: Global,
    format: Option<PageRangeFormat>,
    text: &str,
) -> Result<String, AllocError>
    ensures { IfOk result (λ s. characters s ≡ lettered format (chars text.now)) }
{
    match format {
        None => dashed(alloc, text),
        Some(format) => in_format(alloc, format, text),
    }
}

fn in_format(alloc: Global, format: PageRangeFormat, text: &str) -> Result<String, AllocError>
    ensures { IfOk result (λ s. characters s ≡ in_format format (chars text.now)) }
{
    let (first, rest) = split_run(text, OfSide);
    let Some(second) = second_side(rest) else {
        return dashed(alloc, text);
    };
    if is_shortened(format, first, second) {
        shortened_range(alloc, format, first, second)
    } else {
        dashed(alloc, text)
    }
}

/// What follows a dash, where nothing of it stands in no side.
fn second_side(text: &str) -> Option<&str>
    ensures { MatchOption result (second_side (chars text.now) ≡ None)
        (λ s. second_side (chars text.now) ≡ Some (chars s.now)) }
{
    let (c, after) = split_first(text)?;
    if is_dash(c) && are_of_side(after) {
        Some(after)
    } else {
        None
    }
}

/// Whether the digits alone are printed of the second side of a range.
fn is_shortened(format: PageRangeFormat, first: &str, second: &str) -> bool
    ensures { result ≡ is_shortened format (chars first.now) (chars second.now) }
{
    shortens(format) && (are_lettered(first, second) && are_in_order(ending(first), ending(second)))
}

/// Whether a format leaves out anything of a second number.
fn shortens(format: PageRangeFormat) -> bool
    ensures { result ≡ shortens format }
{
    match format {
        PageRangeFormat::Expanded => false,
        _ => true,
    }
}

/// Whether two sides end in digits after the same letters.
fn are_lettered(first: &str, second: &str) -> bool
    ensures { result ≡ are_lettered (chars first.now) (chars second.now) }
{
    has_text(ending(first))
        && (has_text(ending(second)) && (!are_digits(first) && differ_in_digits(first, second)))
}

/// Whether the second of two numbers is not the less, and neither has more than nine digits.
fn are_in_order(first: &str, second: &str) -> bool
    ensures { result ≡ are_in_order (chars first.now) (chars second.now) }
{
    let last = number(second);
    number(first) <= last && last < 1_000_000_000
}

/// The first side, and of the second one those of its digits that the format prints.
fn shortened_range(
    alloc: Global,
    format: PageRangeFormat,
    first: &str,
    second: &str,
) -> Result<String, AllocError>
    ensures { IfOk result (λ s. characters s
        ≡ shortened_range format (chars first.now) (chars second.now)) }
{
    let mut range = owned(alloc, first)?;
    push_character(&mut range, '\u{2013}')?;
    push_shortened(&mut range, format, ending(first), ending(second))?;
    Ok(range)
}

/// Appends the digits of the second number that are printed.
fn push_shortened(
    out: &mut String,
    format: PageRangeFormat,
    first: &str,
    second: &str,
) -> Result<(), AllocError>
    ensures { OnOk result (characters out.new ≡ characters out.old
        ++ shortened format (number (chars first.now)) (chars first.now) (chars second.now)) }
{
    let alloc = *out.allocator();
    let first_digits = collected(alloc, first)?;
    let second_digits = collected(alloc, second)?;
    let count = printed(format, number(first), &first_digits, &second_digits);
    push_last(out, &second_digits, count)
}

fn collected(alloc: Global, text: &str) -> Result<Vec<char>, AllocError>
    ensures { IfOk result (λ v. v.items ≡ chars text.now) }
{
    text.chars().collect(alloc)
}

/// The digits that a text ends in.
fn ending(text: &str) -> &str
    ensures { chars result.now ≡ ending (chars text.now) }
{
    let mut found = text;
    let mut rest = text;
    while let Some((c, after)) = split_first(rest) {
        found = later(c, found, after);
        rest = after;
    }
    found
}

/// What follows the last character that is no digit, of a text of which a character and what follows it come next.
fn later<'t>(c: char, found: &'t str, after: &'t str) -> &'t str
    ensures { chars result.now ≡ later c (chars found.now) (chars after.now) }
{
    if c.is_ascii_digit() { found } else { after }
}

/// Whether two texts are the same but for digits that they end in.
fn differ_in_digits(first: &str, second: &str) -> bool
    ensures { result ≡ differ_in_digits (chars first.now) (chars second.now) }
{
    let mut left = first;
    let mut right = second;
    while let Some((c, more)) = split_first(left) {
        let Some((d, others)) = split_first(right) else {
            return are_digits(left);
        };
        if c != d {
            return are_digits(left) && are_digits(right);
        }
        left = more;
        right = others;
    }
    are_digits(right)
}

fn are_digits(text: &str) -> bool
    ensures { result ≡ are_digits (chars text.now) }
{
    text.chars().all(|c| c.is_ascii_digit())
}

/// Whether each character may stand in a side of a range.
fn are_of_side(text: &str) -> bool
    ensures { result ≡ list_all is_of_side (chars text.now) }
{
    text.chars().all(|c| is_of_side(c))
}

/// A character of a side of a range: no dash, comma, ampersand or white space.
fn is_of_side(c: char) -> bool
    ensures { result ≡ is_of_side c }
{
    is_undivided(c) && !c.is_whitespace()
}

/// The number that digits spell, or a thousand million where it has more than nine.
fn number(digits: &str) -> u32
    ensures { result ≡ number (chars digits.now) }
{
    let mut value = 0;
    let mut rest = digits;
    while let Some((c, after)) = split_first(rest) {
        value = with_digit(value, c);
        rest = after;
    }
    value
}

/// A number with one more digit, or a thousand million where it has more than nine.
fn with_digit(number: u32, digit: char) -> u32
    ensures { result ≡ with_digit number digit }
{
    if number < 100_000_000 {
        number * 10 + (digit as u32).saturating_sub(48).min(9)
    } else {
        1_000_000_000
    }
}

/// The characters of a side of a range.
#[derive(Clone, Copy)]
struct OfSide;

impl CharacterClass for OfSide {
    ghost passes = { λ _ c. is_of_side c };

    fn contains(self, c: char) -> bool {
        is_of_side(c)
    }
}
