//! Reading tags and their attributes.

ghost use Rattle.std.specs.Prelude.{◌≡◌, Bool};
ghost use Rattle.std.specs.Option.{option_map};
ghost use Rattle.texts.specs.Views.{left};
ghost use Rattle.xml_text.specs.Tags.{mark_of, quoted_class, piece_at, quoted_at, value_at, attribute_at, attribute_after, next_attribute_at, tag_end_at, start_tag_at, end_tag_at};
ghost use Rattle.xml_text.specs.Views.{placed_view, name_view, piece_view, pieces_view, attribute_view, attributes_view, tag_view, Reads, Gives};
ghost use Rattle.laws.specs.Steps.{each};

use crate::character::{Class, Quote};
use crate::fault::{Fault, XmlError};
use crate::name::{take_name, take_reference};
use crate::reading::{begins, byte_len, run, skip_space, take_character};
use crate::token::{Attribute, Name, Piece, Placed, Tag};
use std::alloc::Global;
use texts::{CharacterClass, Reader, split_first};

impl Quote {
    /// The character that it is.
    fn mark(self) -> char
        ensures { result ≡ mark_of self }
    {
        match self {
            Quote::Double => '"',
            Quote::Single => '\'',
        }
    }

    /// What may stand between two of them beside references.
    #[inline(always)]
    fn class(self) -> Class
        ensures { result ≡ quoted_class self }
    {
        match self {
            Quote::Double => Class::DoubleQuoted,
            Quote::Single => Class::SingleQuoted,
        }
    }
}

/// The next piece of a value, or nothing where it ends.
#[inline(always)]
fn next_piece<'s>(reader: &mut Reader<'s>, quote: Quote) -> Result<Option<Piece<'s>>, Fault>
    ensures { Reads (option_map piece_view) result (left reader.new)
        (piece_at quote (left reader.old)) }
{
    let here = byte_len(reader.rest);
    match split_first(reader.rest) {
        None => Ok(None),
        Some(('&', rest)) => {
            reader.rest = rest;
            let reference = take_reference(reader)?;
            Ok(Some(Piece::Reference(Placed {
                v: reference,
                left: here,
            })))
        }
        Some((c, _)) if quote.class().contains(c) => {
            Ok(Some(Piece::Literal(run(reader, quote.class()))))
        }
        Some(_) => Ok(None),
    }
}

/// The pieces of a value and its last quote.
#[tactic(auto, unfolding(crate::specs::Tags::quoted_at))]
fn take_quoted<'s>(
    alloc: Global,
    reader: &mut Reader<'s>,
    quote: Quote,
) -> Result<Vec<Piece<'s>>, XmlError>
    ensures { Gives pieces_view result (left reader.new) (quoted_at quote (left reader.old)) }
{
    let pieces = take_pieces(alloc, reader, quote)?;
    take_character(reader, quote.mark())?;
    Ok(pieces)
}

/// The pieces of a value.
#[inline(always)]
fn take_pieces<'s>(
    alloc: Global,
    reader: &mut Reader<'s>,
    quote: Quote,
) -> Result<Vec<Piece<'s>>, XmlError>
    ensures { Gives pieces_view result (left reader.new)
        (each (piece_at quote) (left reader.old)) }
{
    let mut pieces = Vec::new(alloc);
    while let Some(piece) = next_piece(reader, quote)? {
        pieces.push(piece)?;
    }
    Ok(pieces)
}

/// The value that stands here in quotes.
fn take_value<'s>(alloc: Global, reader: &mut Reader<'s>) -> Result<Vec<Piece<'s>>, XmlError>
    ensures { Gives pieces_view result (left reader.new) (value_at (left reader.old)) }
{
    match split_first(reader.rest) {
        None => Err(XmlError::Fault(Fault::Unclosed)),
        Some(('"', rest)) => {
            reader.rest = rest;
            take_quoted(alloc, reader, Quote::Double)
        }
        Some(('\'', rest)) => {
            reader.rest = rest;
            take_quoted(alloc, reader, Quote::Single)
        }
        Some(_) => Err(XmlError::Fault(Fault::Unexpected)),
    }
}

/// The attribute that stands here.
#[tactic(auto, unfolding(crate::specs::Tags::attribute_at))]
fn take_attribute<'s>(
    alloc: Global,
    reader: &mut Reader<'s>,
) -> Result<Placed<Attribute<'s>>, XmlError>
    ensures { Gives (placed_view attribute_view) result (left reader.new)
        (attribute_at (left reader.old)) }
{
    let here = byte_len(reader.rest);
    let name = take_name(reader)?;
    skip_space(reader);
    take_character(reader, '=')?;
    skip_space(reader);
    let value = take_value(alloc, reader)?;
    Ok(Placed {
        v: Attribute { name, value },
        left: here,
    })
}

/// The attribute that stands here after white space, if there was any, or nothing where no name begins.
fn attribute_after<'s>(
    alloc: Global,
    reader: &mut Reader<'s>,
    spaced: bool,
) -> Result<Option<Placed<Attribute<'s>>>, XmlError>
    ensures { Gives (option_map (placed_view attribute_view)) result (left reader.new)
        (attribute_after spaced (left reader.old)) }
{
    match split_first(reader.rest) {
        Some((c, _)) if Class::NameStart.contains(c) => {
            if !spaced {
                return Err(XmlError::Fault(Fault::Unexpected));
            }
            Ok(Some(take_attribute(alloc, reader)?))
        }
        _ => Ok(None),
    }
}

/// The next attribute of a tag, after white space, or nothing where no name begins.
#[tactic(auto, unfolding(crate::specs::Tags::next_attribute_at))]
fn next_attribute<'s>(
    alloc: Global,
    reader: &mut Reader<'s>,
) -> Result<Option<Placed<Attribute<'s>>>, XmlError>
    ensures { Gives (option_map (placed_view attribute_view)) result (left reader.new)
        (next_attribute_at (left reader.old)) }
{
    let spaced = begins(reader.rest, Class::Space);
    skip_space(reader);
    attribute_after(alloc, reader, spaced)
}

/// The attributes of a tag, and white space after them.
pub(crate) fn take_attributes<'s>(
    alloc: Global,
    reader: &mut Reader<'s>,
) -> Result<Vec<Placed<Attribute<'s>>>, XmlError>
    ensures { Gives attributes_view result (left reader.new)
        (each next_attribute_at (left reader.old)) }
{
    let mut attributes = Vec::new(alloc);
    while let Some(attribute) = next_attribute(alloc, reader)? {
        attributes.push(attribute)?;
    }
    Ok(attributes)
}

/// Takes what ends a start-tag, and says whether the element is empty.
fn take_tag_end(reader: &mut Reader<'_>) -> Result<bool, Fault>
    ensures { Reads (λ b. b) result (left reader.new) (tag_end_at (left reader.old)) }
{
    match split_first(reader.rest) {
        None => Err(Fault::Unclosed),
        Some(('>', rest)) => {
            reader.rest = rest;
            Ok(false)
        }
        Some(('/', rest)) => {
            reader.rest = rest;
            take_character(reader, '>')?;
            Ok(true)
        }
        Some(_) => Err(Fault::Unexpected),
    }
}

/// A start-tag whose angle bracket was taken.
#[tactic(auto, unfolding(crate::specs::Tags::start_tag_at))]
pub(crate) fn take_start_tag<'s>(
    alloc: Global,
    reader: &mut Reader<'s>,
) -> Result<Tag<'s>, XmlError>
    ensures { Gives tag_view result (left reader.new) (start_tag_at (left reader.old)) }
{
    let name = take_name(reader)?;
    let attributes = take_attributes(alloc, reader)?;
    let empty = take_tag_end(reader)?;
    Ok(Tag {
        name,
        attributes,
        empty,
    })
}

/// An end-tag whose angle bracket and slash were taken.
#[tactic(auto, unfolding(crate::specs::Tags::end_tag_at))]
pub(crate) fn take_end_tag<'s>(reader: &mut Reader<'s>) -> Result<Placed<Name<'s>>, Fault>
    ensures { Reads (placed_view name_view) result (left reader.new)
        (end_tag_at (left reader.old)) }
{
    let here = byte_len(reader.rest);
    let name = take_name(reader)?;
    skip_space(reader);
    take_character(reader, '>')?;
    Ok(Placed {
        v: name,
        left: here,
    })
}
