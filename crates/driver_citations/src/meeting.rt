//! Texts that meet the one in which a tree ends, and the one with which the next tree begins.

ghost use Rattle.std.specs.Prelude.{◌≡◌, if◌then◌else◌, IfOk, OnOk};
ghost use Rattle.std.specs.Option.{option_map};
ghost use Rattle.std.specs.Str.{chars};
ghost use Rattle.laws.specs.Text.{characters};
ghost use Rattle.rendering_page.specs.Views.{quotes_view};
ghost use Rattle.rendering_tree.specs.Views.{child_view, children_view, tree_view};
ghost use Rattle.driver_citations.specs.Ends.{end_of, end_of_child};
ghost use Rattle.driver_citations.specs.Meeting.{before_character, before_text, close_quote, delimiter_before, gives_way, is_stopped, last_of, leaves_out, left_after, makes_room, met, met_before, met_by, met_child, met_list, with_inside, with_room, without_last};

use crate::ending_text::{char_count, ends_in, start_of};
use rendering_page::{goes_inside, is_left_out, is_replaced, is_stop, pop_made, split_last};
use rendering_tree::{Elem, ElemChild, ElemChildren, Formatted};
use std::alloc::AllocError;
use texts::{has_text, no_text, push_character, push_text, split_first};

/// Lets a text meet the one in which a list ends. Returns what is left of it.
#[cycle(meeting)]
pub(crate) fn meet_last<'t>(
    parts: &mut Vec<ElemChild>,
    quotes: &[&str],
    text: &'t str,
) -> Result<&'t str, AllocError>
    ensures end { OnOk result (children_view parts.new.items
        ≡ met_list (quotes_view quotes.now) (chars text.now) (children_view parts.old.items)) }
    ensures rest { IfOk result (λ r. chars r.now ≡ left_after (quotes_view quotes.now)
        (end_of (children_view parts.old.items)) (chars text.now)) }
{
    let count = parts.len();
    if count == 0 {
        return Ok(text);
    }
    meet_child(&mut parts[count - 1], quotes, text)
}

/// Lets a text meet the one in which a child ends. Returns what is left of it.
#[cycle(meeting)]
fn meet_child<'t>(
    part: &mut ElemChild,
    quotes: &[&str],
    text: &'t str,
) -> Result<&'t str, AllocError>
    ensures end { OnOk result (child_view part.new
        ≡ met_child (quotes_view quotes.now) (chars text.now) (child_view part.old)) }
    ensures rest { IfOk result (λ r. chars r.now ≡ left_after (quotes_view quotes.now)
        (end_of_child (child_view part.old)) (chars text.now)) }
{
    match part {
        ElemChild::Text(own) => meet_text(own, quotes, text),
        ElemChild::Elem(elem) => meet_inside(elem, quotes, text),
        ElemChild::Markup(_) | ElemChild::Link { .. } | ElemChild::Transparent { .. } => Ok(text),
    }
}

/// Lets a text meet the one in which an element ends. Returns what is left of it.
#[cycle(meeting)]
fn meet_inside<'t>(elem: &mut Elem, quotes: &[&str], text: &'t str) -> Result<&'t str, AllocError>
    ensures end { OnOk result (tree_view elem.new.children
        ≡ met_list (quotes_view quotes.now) (chars text.now) (tree_view elem.old.children)) }
    ensures rest { IfOk result (λ r. chars r.now ≡ left_after (quotes_view quotes.now)
        (end_of (tree_view elem.old.children)) (chars text.now)) }
    ensures same { (elem.new.display ≡ elem.old.display) × (elem.new.meta ≡ elem.old.meta) }
{
    meet_last(&mut elem.children.0, quotes, text)
}

/// Lets a text meet another one that has a look. Returns what is left of it.
fn meet_text<'t>(own: &mut Formatted, quotes: &[&str], text: &'t str) -> Result<&'t str, AllocError>
    ensures end { OnOk result (characters own.new.text
        ≡ met (quotes_view quotes.now) (characters own.old.text) (chars text.now)) }
    ensures rest { IfOk result (λ r. chars r.now
        ≡ left_after (quotes_view quotes.now) (characters own.old.text) (chars text.now)) }
    ensures same { own.new.formatting ≡ own.old.formatting }
{
    meet(&mut own.text, quotes, text)
}

/// Lets a text meet another one. Returns what is left of it.
fn meet<'t>(own: &mut String, quotes: &[&str], text: &'t str) -> Result<&'t str, AllocError>
    ensures end { OnOk result (characters own.new
        ≡ met (quotes_view quotes.now) (characters own.old) (chars text.now)) }
    ensures rest { IfOk result (λ r. chars r.now
        ≡ left_after (quotes_view quotes.now) (characters own.old) (chars text.now)) }
{
    if !has_text(own.as_str()) {
        return Ok(text);
    }
    let Some((first, rest)) = split_first(text) else {
        return Ok(text);
    };
    let quote = close_quote(quotes, own.as_str());
    let is_taken = meet_before(quote, own, first)?;
    push_text(own, quote)?;
    Ok(left(is_taken, rest, text))
}

/// A delimiter before a tree. With `quotes` texts are joined, and it meets the text with which that begins.
pub(crate) fn delimiter_before<'t>(
    quotes: Option<&[&str]>,
    tree: &ElemChildren,
    delimiter: &'t str,
) -> &'t str
    ensures { chars result.now ≡ delimiter_before (option_map (λ q. quotes_view q.now) quotes.entry)
        (tree_view tree.now) (chars delimiter.now) }
{
    match quotes {
        Some(_) => before_text(start_of(tree), delimiter),
        None => delimiter,
    }
}

/// A text before another one: its last character may go, and then the one before it.
fn before_text<'t>(next: &str, text: &'t str) -> &'t str
    ensures { chars result.now ≡ before_text (chars next.now) (chars text.now) }
{
    match split_first(next) {
        Some((c, _)) => before_character(c, before_character(c, text)),
        None => text,
    }
}

/// A text before a character: its last one may go.
fn before_character<'t>(c: char, text: &'t str) -> &'t str
    ensures { chars result.now ≡ before_character c (chars text.now) }
{
    match split_last(text) {
        Some((last, front)) => left(gives_way(last, c), front, text),
        None => text,
    }
}

/// Whether a character goes before another one: the same one, of which one is left, or one that takes its place.
fn gives_way(last: char, c: char) -> bool
    ensures { result ≡ gives_way last c }
{
    is_replaced(last, c) || (last == c && is_left_out(last, c))
}

/// A text, or what stands after its first character or before its last one where that is taken.
fn left<'t>(is_taken: bool, rest: &'t str, text: &'t str) -> &'t str
    ensures { chars result.now ≡ (if is_taken then chars rest.now else chars text.now) }
{
    if is_taken { rest } else { text }
}

/// The close quote in which a text ends; the empty text where it ends in none.
fn close_quote<'q>(quotes: &[&'q str], text: &str) -> &'q str
    ensures { chars result.now ≡ close_quote (quotes_view quotes.now) (chars text.now) }
{
    for quote in quotes {
        if has_text(quote) && ends_in(quote, text) {
            return *quote;
        }
    }
    no_text()
}

/// Cuts the close quote in which a text ends, and lets a character meet what is left. Returns whether the character goes into it.
fn meet_before(quote: &str, own: &mut String, c: char) -> Result<bool, AllocError>
    ensures text { OnOk result (characters own.new
        ≡ (met_before (chars quote.now) (characters own.old) c).text) }
    ensures taken { IfOk result (λ b. b
        ≡ (met_before (chars quote.now) (characters own.old) c).is_taken) }
{
    cut(own, char_count(quote));
    meet_by(has_text(quote), own, c)
}

/// Cuts the last characters of a text, so many or all of them.
fn cut(text: &mut String, count: usize)
    ensures { characters text.new ≡ without_last count (characters text.old) }
{
    for index in 0..count {
        let _ = pop_made(text);
    }
}

/// Lets a character meet a text, after which a close quote stands or not. Returns whether the character goes into it.
fn meet_by(is_quoted: bool, own: &mut String, c: char) -> Result<bool, AllocError>
    ensures text { OnOk result (characters own.new
        ≡ (met_by is_quoted (characters own.old) c).text) }
    ensures taken { IfOk result (λ b. b ≡ (met_by is_quoted (characters own.old) c).is_taken) }
{
    if leaves_out(own.as_str(), c) {
        return Ok(true);
    }
    if is_quoted && goes_inside(c) {
        put_inside(own, c)?;
        return Ok(true);
    }
    make_room(is_quoted, own, c);
    Ok(false)
}

/// Puts a character after a text, unless that ends in punctuation.
fn put_inside(own: &mut String, c: char) -> Result<(), AllocError>
    ensures { OnOk result (characters own.new ≡ with_inside (characters own.old) c) }
{
    if is_stopped(own.as_str()) {
        return Ok(());
    }
    push_character(own, c)
}

/// Cuts the last character of a text if another one takes its place, unless a close quote stands between them.
fn make_room(is_quoted: bool, own: &mut String, c: char)
    ensures { characters own.new ≡ with_room is_quoted (characters own.old) c }
{
    if !is_quoted && makes_room(own.as_str(), c) {
        cut(own, 1);
    }
}

/// Whether a text ends in a character after which another one is left out.
fn leaves_out(text: &str, c: char) -> bool
    ensures { result ≡ leaves_out (chars text.now) c }
{
    match last_of(text) {
        Some(last) => is_left_out(last, c),
        None => false,
    }
}

/// Whether it ends in a character whose place another one takes.
fn makes_room(text: &str, c: char) -> bool
    ensures { result ≡ makes_room (chars text.now) c }
{
    match last_of(text) {
        Some(last) => is_replaced(last, c),
        None => false,
    }
}

/// Whether it ends in punctuation.
fn is_stopped(text: &str) -> bool
    ensures { result ≡ is_stopped (chars text.now) }
{
    match last_of(text) {
        Some(last) => is_stop(last),
        None => false,
    }
}

/// The last character of a text.
fn last_of(text: &str) -> Option<char>
    ensures { result ≡ last_of (chars text.now) }
{
    match split_last(text) {
        Some((last, _)) => Some(last),
        None => None,
    }
}
