//! What is shown of a line: a window.

ghost use Rattle.std.specs.Prelude.{◌≡◌, ◌++◌, ◌==◌, not, take, drop, flat_map, IfOk, OnOk, string_bytes};
ghost use Rattle.std.specs.Str.{chars};
ghost use Rattle.std.specs.Str.Lines.{strip_carriage_return};
ghost use Rattle.laws.specs.Characters.{line_feed};
ghost use Rattle.laws.specs.Runs.{prefix_of};
ghost use Rattle.laws.specs.Text.{characters};
ghost use Rattle.source_positions.specs.Position.{line_characters, shown_in_line};
ghost use Rattle.fault_lines.specs.Places.{IsPlace};
ghost use Rattle.fault_lines.specs.Views.{place_view};
ghost use Rattle.fault_lines.specs.Windows.{last_bytes, left_out, mark_at, reach, shown_after, shown_before, window_at};

use crate::place::Place;
use source_positions::{char_count, line_end, mark_below, push_shown_character};
use std::alloc::{AllocError, Global};
use texts::{empty_text, push_character, split_first};

/// So many characters of a line are shown at most on each side of a position.
const SIDE: usize = 60;

/// And so many bytes of it are read on each side.
const REACH: usize = 244;

/// What is shown of a line.
#[derive(Drop)]
pub(crate) struct Window {
    /// The line as it is shown.
    pub(crate) line: String,
    /// A blank for each character that is shown before the place, and a caret.
    pub(crate) mark: String,
}

/// What is shown of the line with a place, and the mark below the place.
pub(crate) fn window_of(alloc: Global, source: &[u8], place: Place) -> Result<Window, AllocError>
    requires { IsPlace source.now (place_view place) }
    ensures line { IfOk result (λ w. string_bytes w.line ≡ window_at source.now place.at) }
    ensures mark { IfOk result (λ w. string_bytes w.mark ≡ mark_at source.now place.at) }
{
    let (before, rest) = source.split_at(place.at);
    let (_, read) = before.split_at(place.start);
    let mut line = empty_text(alloc);
    push_before(alloc, &mut line, last_bytes(read))?;
    let mark = mark_below(alloc, line.as_str())?;
    push_after(alloc, &mut line, line_beginning(rest))?;
    Ok(Window { line, mark })
}

/// The last bytes of a line before a position.
fn last_bytes(bytes: &[u8]) -> &[u8]
    ensures { result.now ≡ last_bytes bytes.now }
{
    bytes.split_at(bytes.len().saturating_sub(REACH)).1
}

/// The first bytes of what is left of a line, less the carriage return at its end, if there is one.
#[tactic(auto, using(crate::proofs::WindowsCut::near_end))]
fn line_beginning(rest: &[u8]) -> &[u8]
    ensures { result.now ≡ take reach
        (strip_carriage_return (prefix_of (λ b. not (b == line_feed)) rest.now)) }
{
    let near = first_bytes(rest, REACH + 1);
    first_bytes(line_end(near), REACH)
}

/// The first bytes, so many of them.
fn first_bytes(bytes: &[u8], count: usize) -> &[u8]
    ensures { result.now ≡ take count bytes.now }
{
    if count < bytes.len() {
        bytes.split_at(count).0
    } else {
        bytes
    }
}

/// Appends what is shown of bytes of a line before a position.
fn push_before(alloc: Global, line: &mut String, bytes: &[u8]) -> Result<(), AllocError>
    ensures { OnOk result (characters line.new
        ≡ characters line.old ++ shown_before (line_characters bytes.now)) }
{
    let text = String::from_utf8_lossy(alloc, bytes)?;
    let count = char_count(text.as_str());
    push_left_out(line, SIDE < count)?;
    push_first(
        line,
        past_characters(text.as_str(), count.saturating_sub(SIDE)),
        SIDE,
    )
}

/// Appends what is shown of bytes of a line after a position.
fn push_after(alloc: Global, line: &mut String, bytes: &[u8]) -> Result<(), AllocError>
    ensures { OnOk result (characters line.new
        ≡ characters line.old ++ shown_after (line_characters bytes.now)) }
{
    let text = String::from_utf8_lossy(alloc, bytes)?;
    push_first(line, text.as_str(), SIDE)?;
    push_left_out(line, SIDE < char_count(text.as_str()))
}

/// Appends an ellipsis, if characters are left out.
fn push_left_out(line: &mut String, is: bool) -> Result<(), AllocError>
    ensures { OnOk result (characters line.new ≡ characters line.old ++ left_out is) }
{
    if is {
        push_character(line, '…')
    } else {
        Ok(())
    }
}

/// What follows the first characters of a text, so many of them.
fn past_characters(text: &str, count: usize) -> &str
    ensures { chars result.now ≡ drop count (chars text.now) }
{
    let mut rest = text;
    let mut left = count;
    while left > 0 {
        let Some((_, more)) = split_first(rest) else {
            return rest;
        };
        rest = more;
        left -= 1;
    }
    rest
}

/// Appends what is shown of the first characters of a text of a line, so many of them.
fn push_first(line: &mut String, text: &str, count: usize) -> Result<(), AllocError>
    ensures { OnOk result (characters line.new
        ≡ characters line.old ++ flat_map shown_in_line (take count (chars text.now))) }
{
    let mut rest = text;
    let mut left = count;
    while left > 0 {
        let Some((c, more)) = split_first(rest) else {
            return Ok(());
        };
        push_shown_character(line, c)?;
        rest = more;
        left -= 1;
    }
    Ok(())
}
