//! Another text in place of the en dashes of ranges.

ghost use Rattle.std.specs.Prelude.{◌≡◌, ◌++◌, false, IfOk, OnOk};
ghost use Rattle.std.specs.Str.{chars};
ghost use Rattle.laws.specs.Text.{characters};
ghost use Rattle.rendering_ranges.specs.Delimited.{EnDashesStay, delimited, delimited_after, exchanged};

use crate::dashes::{dash_follows, has_come_after};
use std::alloc::{AllocError, Global};
use texts::{empty_text, has_text, push_character, push_text, split_first};

/// The text with the delimiter in place of each en dash that is the only dash between commas and
/// ampersands. An empty delimiter leaves the text as it is.
///
/// # Errors
/// Out of memory.
pub fn delimited(alloc: Global, delimiter: &str, text: String) -> Result<String, AllocError>
    ensures { IfOk result (λ s. characters s ≡ delimited (chars delimiter.now) (characters text)) }
{
    if !has_text(delimiter) {
        return Ok(text);
    }
    with_delimiter(alloc, delimiter, text.as_str())
}

/// A copy of the text with the delimiter in its ranges.
fn with_delimiter(alloc: Global, delimiter: &str, text: &str) -> Result<String, AllocError>
    ensures { IfOk result (λ s. characters s
        ≡ delimited_after (chars delimiter.now) false (chars text.now)) }
{
    let mut out = empty_text(alloc);
    let mut has_come = false;
    let mut rest = text;
    while let Some((c, after)) = split_first(rest) {
        push_exchanged(&mut out, delimiter, has_come, c, after)?;
        has_come = has_come_after(has_come, c);
        rest = after;
    }
    Ok(out)
}

/// Appends the character as it is printed: an en dash that is the only dash is the delimiter.
fn push_exchanged(
    out: &mut String,
    delimiter: &str,
    has_come: bool,
    c: char,
    after: &str,
) -> Result<(), AllocError>
    ensures { OnOk result (characters out.new
        ≡ characters out.old ++ exchanged (chars delimiter.now) has_come c (chars after.now)) }
{
    if c == '\u{2013}' && !(has_come || dash_follows(after)) {
        push_text(out, delimiter)
    } else {
        push_character(out, c)
    }
}

/// Where an en dash is the delimiter, a text stays as it is.
#[tactic(auto, using(crate::proofs::DelimitedDashes::en_dashes_stay))]
pub fn en_dashes_stay()
    ensures { EnDashesStay }
{}
