//! Documents: texts with markers in them.

ghost use Rattle.std.specs.Prelude.{◌≡◌, ◌≤◌, ◌-◌, ◌&&◌, nat_lt, length, Ok};
ghost use Rattle.std.specs.Option.{option_map};
ghost use Rattle.std.specs.Str.{chars};
ghost use Rattle.laws.specs.Results.{Gives};
ghost use Rattle.laws.specs.Text.{spelled, text as text_of};
ghost use Rattle.texts.specs.Views.{left};
ghost use Rattle.cite_markers.specs.Document.{escaped, is_opening_or_escape, may_begin_opening_or_escape, prefix_text, after_text, text_at, piece_at, document_of};
ghost use Rattle.cite_markers.specs.Views.{piece_view, document_view, Finds, fault_offset};

use crate::error::{DocumentError, Stop};
use crate::marker::{Cite, is_opening, read_marker};
use std::alloc::Global;
use texts::{Reader, has_text, split_first};

/// A piece of a document.
#[derive(Debug, PartialEq, Drop)]
pub enum Piece<'s> {
    /// A text, which is not empty. A backslash that made an opening text is left out.
    Text(&'s str),
    /// The cites of a marker, one at least.
    Marker(Vec<Cite<'s>>),
}

/// A document: its texts and markers in order.
#[derive(Debug, PartialEq, Drop)]
pub struct Document<'s> {
    pub pieces: Vec<Piece<'s>>,
}

impl<'s> Document<'s> {
    /// Reads a document.
    ///
    /// # Errors
    /// `Marker` with the offset of the first opening that no marker follows; `Memory` where a request for memory was refused.
    pub fn parse(alloc: Global, text: &'s str) -> Result<Document<'s>, DocumentError>
        ensures { Gives fault_offset document_view result (document_of (chars text.now)) }
    {
        let mut reader = Reader::new(text);
        let mut pieces = Vec::new(alloc);
        loop {
            match next_piece(alloc, &mut reader) {
                Ok(Some(piece)) => pieces.push(piece)?,
                Ok(None) => break,
                Err(Stop::Memory) => return Err(DocumentError::Memory),
                Err(Stop::NotThere) => {
                    let offset = offset_of(text, reader.rest);
                    return Err(DocumentError::Marker { offset });
                }
            }
        }
        Ok(Document { pieces })
    }
}

/// How many bytes of a document stand before what is left of it.
fn offset_of(document: &str, rest: &str) -> usize
    requires { length (text_of (chars rest.now)) ≤ length (text_of (chars document.now)) }
    ensures { result ≡ length (text_of (chars document.now)) - length (text_of (chars rest.now)) }
{
    document.len() - rest.len()
}

/// The next piece, or none at the end of the text. Where no marker follows an opening, the text from it on is left.
#[tactic(auto, unfolding(crate::specs::Document::piece_at))]
fn next_piece<'s>(alloc: Global, reader: &mut Reader<'s>) -> Result<Option<Piece<'s>>, Stop>
    ensures { Finds result (left reader.new) (piece_at (left reader.old)) }
{
    if let Some(opening) = strip_escape(reader.rest) {
        reader.rest = opening;
        return Ok(read_text(reader));
    }
    if !is_opening(reader.rest) {
        return Ok(read_text(reader));
    }
    let mut ahead = Reader::new(reader.rest);
    let cites = read_marker(alloc, &mut ahead)?;
    reader.rest = ahead.rest;
    Ok(Some(Piece::Marker(cites)))
}

/// The text piece that stands here, or none at the end of the text.
fn read_text<'s>(reader: &mut Reader<'s>) -> Option<Piece<'s>>
    ensures { text_at (left reader.old) ≡ Ok (option_map piece_view result, left reader.new) }
{
    if !has_text(reader.rest) {
        return None;
    }
    let (prefix, rest) = split_prefix(reader.rest);
    reader.rest = rest;
    Some(Piece::Text(prefix))
}

/// The first character and the plain ones after it, and what follows them.
fn split_prefix(text: &str) -> (&str, &str)
    ensures prefix { spelled result.0 ≡ prefix_text (chars text.now) }
    ensures rest { spelled result.1 ≡ after_text (chars text.now) }
{
    for (i, c) in text.char_indices() {
        if may_begin_opening_or_escape(c) {
            let (prefix, rest) = text.split_at(i);
            if ends_prefix(i, rest) {
                return (prefix, rest);
            }
        }
    }
    text.split_at(text.len())
}

/// Whether an opening, or a backslash directly before one, may begin with a character.
#[inline(always)]
fn may_begin_opening_or_escape(c: char) -> bool
    ensures { result ≡ may_begin_opening_or_escape c }
{
    matches!(c, '[' | '\\')
}

/// Whether a text of this length ends before what follows it.
fn ends_prefix(len: usize, rest: &str) -> bool
    ensures { result ≡ nat_lt 0 len && is_opening_or_escape (chars rest.now) }
{
    len > 0 && is_opening_or_escape(rest)
}

/// Whether an opening stands here, or a backslash directly before one.
fn is_opening_or_escape(text: &str) -> bool
    ensures { result ≡ is_opening_or_escape (chars text.now) }
{
    strip_escape(text).is_some() || is_opening(text)
}

/// The text from an opening on, where it stands directly after a backslash.
fn strip_escape(text: &str) -> Option<&str>
    ensures { option_map spelled result ≡ escaped (chars text.now) }
{
    match split_first(text) {
        Some(('\\', rest)) if is_opening(rest) => Some(rest),
        _ => None,
    }
}
