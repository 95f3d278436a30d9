//! En dashes and noughts of numbers in texts.

ghost use Rattle.std.specs.Prelude.{◌≡◌, IfOk};
ghost use Rattle.std.specs.Str.{chars};
ghost use Rattle.laws.specs.Text.{characters};
ghost use Rattle.rendering_ranges.specs.Dashes.{begins_dash, begins_digit, dash_follows, dashed, first_in, has_come_after, has_padding, is_dash, is_padding, is_undivided, parts_ranges, printed};

use std::alloc::{AllocError, Global};
use texts::{CharacterClass, empty_text, push_character, split_first, split_run};

/// A copy of the text in which each hyphen that is the only dash between commas and ampersands is an en dash.
///
/// # Errors
/// Out of memory.
pub fn dashed(alloc: Global, text: &str) -> Result<String, AllocError>
    ensures { IfOk result (λ s. characters s ≡ dashed (chars text.now)) }
{
    let mut dashed = empty_text(alloc);
    let mut has_come = false;
    let mut rest = text;
    while let Some((c, after)) = split_first(rest) {
        push_character(&mut dashed, printed(has_come, c, after))?;
        has_come = has_come_after(has_come, c);
        rest = after;
    }
    Ok(dashed)
}

/// The character as it is printed: a hyphen that is the only dash is an en dash.
fn printed(has_come: bool, c: char, after: &str) -> char
    ensures { result ≡ printed has_come c (chars after.now) }
{
    if c == '-' && !(has_come || dash_follows(after)) {
        '\u{2013}'
    } else {
        c
    }
}

/// Whether a dash has come once the character has, since the last comma or ampersand.
pub(crate) fn has_come_after(has_come: bool, c: char) -> bool
    ensures { result ≡ has_come_after has_come c }
{
    !parts_ranges(c) && (has_come || is_dash(c))
}

/// Whether a number of the text begins with noughts, which are not printed of its value.
pub fn has_padding(text: &str) -> bool
    ensures { result ≡ has_padding (chars text.now) }
{
    let mut is_inside = false;
    let mut rest = text;
    while let Some((c, after)) = split_first(rest) {
        if is_padding(is_inside, c, after) {
            return true;
        }
        is_inside = c.is_ascii_digit();
        rest = after;
    }
    false
}

/// Whether a nought stands before the other digits of a number.
fn is_padding(is_inside: bool, c: char, after: &str) -> bool
    ensures { result ≡ is_padding is_inside c (chars after.now) }
{
    !is_inside && (c == '0' && begins_digit(after))
}

fn begins_digit(text: &str) -> bool
    ensures { result ≡ begins_digit (chars text.now) }
{
    match split_first(text) {
        Some((first, _)) => first.is_ascii_digit(),
        None => false,
    }
}

/// What stands before the first dash, comma or ampersand.
pub fn first_in(text: &str) -> &str
    ensures { chars result.now ≡ first_in (chars text.now) }
{
    split_run(text, Undivided).0
}

/// Whether a dash stands before the next comma or ampersand.
pub(crate) fn dash_follows(text: &str) -> bool
    ensures { result ≡ dash_follows (chars text.now) }
{
    begins_dash(split_run(text, Undivided).1)
}

fn begins_dash(text: &str) -> bool
    ensures { result ≡ begins_dash (chars text.now) }
{
    match split_first(text) {
        Some((first, _)) => is_dash(first),
        None => false,
    }
}

/// A comma or an ampersand, which stand between ranges.
fn parts_ranges(c: char) -> bool
    ensures { result ≡ parts_ranges c }
{
    c == ',' || c == '&'
}

/// A hyphen or an en dash.
pub(crate) fn is_dash(c: char) -> bool
    ensures { result ≡ is_dash c }
{
    c == '-' || c == '\u{2013}'
}

/// None of these, a comma or an ampersand.
pub(crate) fn is_undivided(c: char) -> bool
    ensures { result ≡ is_undivided c }
{
    !(is_dash(c) || parts_ranges(c))
}

/// The characters that are no dash and stand in no place between ranges.
#[derive(Clone, Copy)]
struct Undivided;

impl CharacterClass for Undivided {
    ghost passes = { λ _ c. is_undivided c };

    fn contains(self, c: char) -> bool {
        is_undivided(c)
    }
}
