//! Where a byte of a source stands, as a reader counts, and how its line is shown.

ghost use Rattle.std.specs.Prelude.{◌≡◌, ◌<◌, ◌≤◌, ◌+◌, ◌++◌, ◌∷◌, [], ◌^◌, ◌==◌, not, take, drop, map, flat_map, length, IfOk, OnOk, string_bytes};
ghost use Rattle.std.specs.Str.{chars};
ghost use Rattle.std.specs.Str.Lines.{strip_carriage_return};
ghost use Rattle.laws.specs.Characters.{line_feed, circumflex};
ghost use Rattle.laws.specs.Runs.{prefix_of};
ghost use Rattle.laws.specs.Text.{characters};
ghost use Rattle.source_positions.specs.Position.{next_position, position_from, line_at, mark_at, line_number, column_number, is_escaped, shown_in_line, shown_line, blank};
ghost use Rattle.source_positions.specs.Views.{position_view, nothing_read};

use crate::escape::push_escape;
use std::alloc::{AllocError, Global};
use texts::{empty_text, push_character, split_first};

/// How far reading has come: how many lines have ended, and what was read of the line that has not.
#[derive(Drop)]
struct Position {
    ended: usize,
    read: Vec<u8>,
}

/// A position in a source: its line and its column, that line as it is shown, and a line with a caret below the position.
#[derive(Drop)]
pub struct ShownPosition {
    /// The number of the line, from one.
    pub number: usize,
    /// The number of the column, from one: a column is a character of the source.
    pub column: usize,
    /// The line as it is shown, without its line feed.
    pub line: String,
    /// A blank for each character that is shown before the position, and a caret.
    pub mark: String,
}

impl ShownPosition {
    /// The position after so many bytes of the source; past its end, its end. Bytes that are of no character are shown as U+FFFD, and
    /// control characters other than a tab by their numbers.
    ///
    /// # Errors
    /// Where a request for memory was refused.
    pub fn new(alloc: Global, source: &[u8], at: usize) -> Result<ShownPosition, AllocError>
        ensures number { IfOk result (λ p. p.number ≡ line_number source.now at) }
        ensures column { IfOk result (λ p. p.column ≡ column_number source.now at) }
        ensures line { IfOk result (λ p. string_bytes p.line ≡ line_at source.now at) }
        ensures mark { IfOk result (λ p. string_bytes p.mark ≡ mark_at source.now at) }
    {
        let (before, rest) = split_at_offset(source, at);
        let Position { ended, read } = come_to(alloc, before)?;
        let before = String::from_utf8_lossy(alloc, read.as_slice())?;
        let mut line = shown_text(alloc, before.as_str())?;
        let mark = mark_below(alloc, line.as_str())?;
        push_bytes(alloc, &mut line, line_end(rest))?;
        Ok(ShownPosition {
            number: ended + 1,
            column: char_count(before.as_str()) + 1,
            line,
            mark,
        })
    }
}

/// What stands before the position, and what stands after it.
fn split_at_offset(source: &[u8], at: usize) -> (&[u8], &[u8])
    ensures before { result.0.now ≡ take at source.now }
    ensures rest { result.1.now ≡ drop at source.now }
{
    if at < source.len() {
        source.split_at(at)
    } else {
        source.split_at(source.len())
    }
}

/// The position after these bytes.
fn come_to(alloc: Global, bytes: &[u8]) -> Result<Position, AllocError>
    ensures position { IfOk result (λ p. position_view p ≡ position_from nothing_read bytes.now) }
    ensures small { IfOk result (λ p. p.ended < 2 ^ 63) }
{
    // A slice has fewer than 2^63 bytes, and so fewer than 2^63 lines.
    let _size = bytes.len();
    let mut position = Position {
        ended: 0,
        read: Vec::new(alloc),
    };
    let mut rest = bytes;
    while let Some((byte, more)) = rest.split_first() {
        position.pass(*byte)?;
        rest = more;
    }
    Ok(position)
}

impl Position {
    /// Moves the position past a byte.
    fn pass(&mut self, byte: u8) -> Result<(), AllocError>
        requires { self.old.ended < 2 ^ 63 }
        ensures position { OnOk result (position_view self.new
            ≡ next_position (position_view self.old) byte) }
        ensures small { OnOk result (self.new.ended ≤ self.old.ended + 1) }
    {
        if byte == b'\n' {
            self.ended += 1;
            self.read.clear();
            return Ok(());
        }
        Ok(self.read.push(byte)?)
    }
}

/// What stands before the end of the line: before the first line feed, less the carriage return at its end, if there is one.
pub fn line_end(rest: &[u8]) -> &[u8]
    ensures { result.now ≡ strip_carriage_return (prefix_of (λ b. not (b == line_feed)) rest.now) }
{
    without_return(before_line_feed(rest))
}

/// What stands before the first line feed.
fn before_line_feed(rest: &[u8]) -> &[u8]
    ensures { result.now ≡ prefix_of (λ b. not (b == line_feed)) rest.now }
{
    for (i, byte) in rest.iter().enumerate() {
        if *byte == b'\n' {
            return &rest[..i];
        }
    }
    rest
}

/// The bytes, less the carriage return at their end, if there is one.
fn without_return(bytes: &[u8]) -> &[u8]
    ensures { result.now ≡ strip_carriage_return bytes.now }
{
    match bytes.split_last() {
        Some((b'\r', prefix)) => prefix,
        _ => bytes,
    }
}

/// The number of characters, which is below 2^63.
pub fn char_count(text: &str) -> usize
    ensures count { result ≡ length (chars text.now) }
    ensures small { result < 2 ^ 63 }
{
    // A slice has fewer than 2^63 bytes, and so fewer than 2^63 characters.
    let _size = text.as_bytes().len();
    text.chars().count()
}

/// What is shown of a text of a line.
fn shown_text(alloc: Global, text: &str) -> Result<String, AllocError>
    ensures { IfOk result (λ s. characters s ≡ flat_map shown_in_line (chars text.now)) }
{
    let mut shown = empty_text(alloc);
    push_shown(&mut shown, text)?;
    Ok(shown)
}

/// Appends what is shown of bytes of a line.
fn push_bytes(alloc: Global, line: &mut String, bytes: &[u8]) -> Result<(), AllocError>
    ensures { OnOk result (characters line.new ≡ characters line.old ++ shown_line bytes.now) }
{
    let text = String::from_utf8_lossy(alloc, bytes)?;
    push_shown(line, text.as_str())
}

/// Appends what is shown of a text of a line.
fn push_shown(line: &mut String, text: &str) -> Result<(), AllocError>
    ensures { OnOk result (characters line.new
        ≡ characters line.old ++ flat_map shown_in_line (chars text.now)) }
{
    let mut rest = text;
    while let Some((c, more)) = split_first(rest) {
        push_shown_character(line, c)?;
        rest = more;
    }
    Ok(())
}

/// Appends what is shown of a character of a line: itself, or the number of a control character other than a tab.
///
/// # Errors
/// Where a request for memory was refused.
pub fn push_shown_character(line: &mut String, c: char) -> Result<(), AllocError>
    ensures { OnOk result (characters line.new ≡ characters line.old ++ shown_in_line c) }
{
    if is_escaped(c) {
        push_escape(line, c)
    } else {
        push_character(line, c)
    }
}

/// Whether the character is a control character other than a tab.
fn is_escaped(c: char) -> bool
    ensures { result ≡ is_escaped c }
{
    c.is_control() && c != '\t'
}

/// A blank below each character, and a caret: a tab below a tab, a space below any other.
///
/// # Errors
/// Where a request for memory was refused.
pub fn mark_below(alloc: Global, shown: &str) -> Result<String, AllocError>
    ensures { IfOk result (λ mark.
        string_bytes mark ≡ map blank (chars shown.now) ++ circumflex ∷ []) }
{
    let mut mark = String::new(alloc);
    let mut rest = shown;
    while let Some((c, more)) = split_first(rest) {
        push_blank(&mut mark, c)?;
        rest = more;
    }
    mark.push('^')?;
    Ok(mark)
}

/// Appends the blank below a character: a tab below a tab, a space below any other.
fn push_blank(mark: &mut String, c: char) -> Result<(), AllocError>
    ensures { OnOk result (string_bytes mark.new ≡ string_bytes mark.old ++ blank c ∷ []) }
{
    match c {
        '\t' => mark.push('\t'),
        _ => mark.push(' '),
    }
}
