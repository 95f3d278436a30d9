//! The text in which a tree ends, and the one with which it begins.

ghost use Rattle.std.specs.Prelude.{◌≡◌, bytes_eq, drop, length};
ghost use Rattle.std.specs.Str.{chars};
ghost use Rattle.rendering_page.specs.Tail.{ends_in};
ghost use Rattle.rendering_tree.specs.Views.{child_view, tree_view};
ghost use Rattle.driver_citations.specs.Ends.{end_of, end_of_child, start_of, start_of_child};

use rendering_tree::{ElemChild, ElemChildren};
use texts::{no_text, split_first};

/// The text in which a list ends: its last child's, and so on inwards; the empty one where that is no text.
#[cycle(end)]
pub(crate) fn end_of(parts: &ElemChildren) -> &str
    ensures { chars result.now ≡ end_of (tree_view parts.now) }
{
    match parts.0.last() {
        Some(part) => end_of_child(part),
        None => no_text(),
    }
}

/// The text in which a child ends; the empty one where it does not end in a text.
#[cycle(end)]
fn end_of_child(part: &ElemChild) -> &str
    ensures { chars result.now ≡ end_of_child (child_view part.now) }
{
    match part {
        ElemChild::Text(text) => text.text.as_str(),
        ElemChild::Elem(elem) => end_of(&elem.children),
        _ => no_text(),
    }
}

/// The text with which a list begins: its first child's, and so on inwards; the empty one where that is no text.
#[cycle(start)]
pub(crate) fn start_of(parts: &ElemChildren) -> &str
    ensures { chars result.now ≡ start_of (tree_view parts.now) }
{
    match parts.0.first() {
        Some(part) => start_of_child(part),
        None => no_text(),
    }
}

/// The text with which a child begins; the empty one where it does not begin with a text.
#[cycle(start)]
fn start_of_child(part: &ElemChild) -> &str
    ensures { chars result.now ≡ start_of_child (child_view part.now) }
{
    match part {
        ElemChild::Text(text) => text.text.as_str(),
        ElemChild::Elem(elem) => start_of(&elem.children),
        _ => no_text(),
    }
}

/// Whether a text has that end. The empty text is an end of each.
pub(crate) fn ends_in(end: &str, text: &str) -> bool
    ensures { result ≡ ends_in (chars end.now) (chars text.now) }
{
    let more = char_count(text).saturating_sub(char_count(end));
    is_text(end, without_first(text, more))
}

/// The number of a text's characters.
pub(crate) fn char_count(text: &str) -> usize
    ensures { result ≡ length (chars text.now) }
{
    text.chars().count()
}

/// Whether two texts are one.
fn is_text(text: &str, other: &str) -> bool
    ensures { result ≡ bytes_eq (chars text.now) (chars other.now) }
{
    text == other
}

/// A text without so many characters at its start.
fn without_first(text: &str, count: usize) -> &str
    ensures { chars result.now ≡ drop count (chars text.now) }
{
    let mut rest = text;
    for index in 0..count {
        rest = after_first(rest);
    }
    rest
}

/// A text without its first character.
fn after_first(text: &str) -> &str
    ensures { chars result.now ≡ drop 1 (chars text.now) }
{
    match split_first(text) {
        Some((_, rest)) => rest,
        None => text,
    }
}
