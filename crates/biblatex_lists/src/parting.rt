//! Parts of a value between the words `and`.

ghost use Rattle.std.specs.Prelude.{◌≡◌, ◌+◌, ◌≤◌, ◌∷◌, [], length, IfOk, MatchOption};
ghost use Rattle.laws.specs.Borrowed.{borrowed};
ghost use Rattle.biblatex_lists.specs.Parts.{begins_and, cut, parts, trimmed, without_first_gaps, without_last_gaps};

use crate::styled_char::StyledChar;
use std::alloc::{AllocError, Global};

/// Whether white space, the word `and` in any case, and white space stand at the start.
pub(crate) fn begins_and(text: &[StyledChar]) -> bool
    ensures { result ≡ begins_and text.now }
{
    match text {
        [before, a, n, d, following, ..] => {
            before.is_gap() && a.spells('a') && n.spells('n') && d.spells('d') && following.is_gap()
        }
        _ => false,
    }
}

/// What stands before the first word `and` between white space, and what follows it with that white space.
fn split_at_and(text: &[StyledChar]) -> Option<(&[StyledChar], &[StyledChar])>
    ensures cut { MatchOption result (cut text.now ≡ text.now ∷ []) (λ p. cut text.now
        ≡ p.0.now ∷ cut p.1.now) }
    ensures shorter { MatchOption result Unit (λ p. length p.1.now + 4 ≤ length text.now) }
{
    for i in 0..text.len() {
        if begins_and(&text[i..]) {
            return Some((&text[..i], &text[i + 4..]));
        }
    }
    None
}

/// The text without the white space at its start.
fn without_first_gaps(text: &[StyledChar]) -> &[StyledChar]
    ensures { result.now ≡ without_first_gaps text.now }
{
    for i in 0..text.len() {
        if !text[i].is_gap() {
            return &text[i..];
        }
    }
    &[]
}

/// The text without the white space at its end.
fn without_last_gaps(text: &[StyledChar]) -> &[StyledChar]
    ensures { result.now ≡ without_last_gaps text.now }
{
    for i in (0..text.len()).rev() {
        if !text[i].is_gap() {
            return &text[..i + 1];
        }
    }
    &[]
}

/// The text without the white space at its ends.
pub fn trimmed(text: &[StyledChar]) -> &[StyledChar]
    ensures { result.now ≡ trimmed text.now }
{
    without_last_gaps(without_first_gaps(text))
}

/// The parts of a value between the words `and`, which are of any case and stand between white space, without white space
/// at their ends; a part may be empty.
pub fn parts<'v>(alloc: Global, text: &'v [StyledChar]) -> Result<Vec<&'v [StyledChar]>, AllocError>
    ensures { IfOk result (λ ps. borrowed ps.items ≡ parts text.now) }
{
    let mut parts = Vec::new(alloc);
    let mut rest = text;
    while let Some((part, following)) = split_at_and(rest) {
        parts.push(trimmed(part))?;
        rest = following;
    }
    parts.push(trimmed(rest))?;
    Ok(parts)
}
