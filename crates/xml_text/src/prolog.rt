//! Reading the beginning of a text: a byte order mark and an XML declaration.

ghost use Rattle.std.specs.Prelude.{◌≡◌, ◌∷◌, ℕ, List, map, IfOk};
ghost use Rattle.std.specs.Str.{chars};
ghost use Rattle.laws.specs.Text.{spelled};
ghost use Rattle.texts.specs.Views.{left};
ghost use Rattle.xml_text.specs.Prolog.{literal_text, literal_value, is_called, version_at, is_version, is_utf8, is_answer, says_standalone, extra_fault, standalone_fault, encoding_fault, declaration_fault, declaration_at, declaration_if, after_mark, prolog_at, IsProlog};
ghost use Rattle.xml_text.specs.Views.{placed_view, name_view, piece_view, attribute_view, Reads, GivesRest, LeavesOnly};

use crate::attribute::take_attributes;
use crate::character::Class;
use crate::fault::{Fault, XmlError};
use crate::reading::{begins, is_word, is_word_in_any_case, take_run, take_word};
use crate::token::{Attribute, Name, Piece, Placed};
use std::alloc::Global;
use texts::{Reader, has_text, no_text, split_first};

/// Whether the name is this one, without a prefix.
fn is_called(name: &Name<'_>, word: &str) -> bool
    ensures { result ≡ is_called word.now (name_view name.now) }
{
    name.prefix.is_none() && is_word(name.local, word)
}

/// The characters of a piece, if it is no reference.
fn literal_text<'s>(piece: Piece<'s>) -> &'s str
    ensures { spelled result ≡ literal_text (piece_view piece.entry) }
{
    match piece {
        Piece::Literal(text) => text,
        Piece::Reference(_) => no_text(),
    }
}

/// The characters of a piece, if no other stands after it.
fn literal_alone<'s>(piece: Piece<'s>, others: &[Piece<'s>]) -> &'s str
    ensures { spelled result ≡ literal_value (piece_view piece.entry ∷ map piece_view others.now) }
{
    match others.split_first() {
        Some(_) => no_text(),
        None => literal_text(piece),
    }
}

/// The characters of a value that is not empty and has no reference; of any other, none.
fn literal_value<'s>(value: &[Piece<'s>]) -> &'s str
    ensures { spelled result ≡ literal_value (map piece_view value.now) }
{
    match value.split_first() {
        Some((piece, others)) => literal_alone(*piece, others),
        None => no_text(),
    }
}

/// The digits after 1 and a point.
#[tactic(auto, unfolding(crate::specs::Prolog::version_at))]
fn take_version<'s>(reader: &mut Reader<'s>) -> Result<&'s str, Fault>
    ensures { Reads spelled result (left reader.new) (version_at (left reader.old)) }
{
    take_word(reader, &['1', '.'])?;
    take_run(reader, Class::Digit, Class::Digit)
}

/// Whether the value is the number of a version.
fn is_version(value: &str) -> bool
    ensures { result ≡ is_version (chars value.now) }
{
    let mut reader = Reader::new(value);
    match take_version(&mut reader) {
        Ok(_) => !has_text(reader.rest),
        Err(_) => false,
    }
}

/// Whether the value is the encoding that is read.
fn is_utf8(value: &str) -> bool
    ensures { result ≡ is_utf8 (chars value.now) }
{
    is_word_in_any_case(value, "utf-8")
}

/// Whether the value is an answer to whether a document stands alone.
fn is_answer(value: &str) -> bool
    ensures { result ≡ is_answer (chars value.now) }
{
    is_word(value, "yes") || is_word(value, "no")
}

/// Whether the attribute says whether the document stands alone.
fn says_standalone(attribute: &Attribute<'_>) -> bool
    ensures { result ≡ says_standalone (attribute_view attribute.now) }
{
    is_called(&attribute.name, "standalone") && is_answer(literal_value(attribute.value.as_slice()))
}

/// A fault where there is an attribute.
fn extra_fault(attributes: &[Placed<Attribute<'_>>]) -> Option<Fault>
    ensures { result ≡ extra_fault (map (placed_view attribute_view) attributes.now) }
{
    match attributes.split_first() {
        Some(_) => Some(Fault::Declaration),
        None => None,
    }
}

/// What is wrong in the attributes of a declaration from the third on.
fn standalone_fault(attributes: &[Placed<Attribute<'_>>]) -> Option<Fault>
    ensures { result ≡ standalone_fault (map (placed_view attribute_view) attributes.now) }
{
    let (first, others) = attributes.split_first()?;
    if says_standalone(&first.v) {
        extra_fault(others)
    } else {
        Some(Fault::Declaration)
    }
}

/// What is wrong in the attributes of a declaration from the second on.
fn encoding_fault(attributes: &[Placed<Attribute<'_>>]) -> Option<Fault>
    ensures { result ≡ encoding_fault (map (placed_view attribute_view) attributes.now) }
{
    let (first, others) = attributes.split_first()?;
    if !is_called(&first.v.name, "encoding") {
        return standalone_fault(attributes);
    }
    if is_utf8(literal_value(first.v.value.as_slice())) {
        standalone_fault(others)
    } else {
        Some(Fault::Encoding)
    }
}

/// What is wrong in the attributes of a declaration.
fn declaration_fault(attributes: &[Placed<Attribute<'_>>]) -> Option<Fault>
    ensures { result ≡ declaration_fault (map (placed_view attribute_view) attributes.now) }
{
    match attributes.split_first() {
        Some((first, others))
            if is_called(&first.v.name, "version")
                && is_version(literal_value(first.v.value.as_slice())) => { encoding_fault(others) }
        _ => Some(Fault::Declaration),
    }
}

/// A declaration whose first word was taken. The text from it on is given.
#[tactic(auto, unfolding(crate::specs::Prolog::declaration_at))]
fn take_declaration<'s>(
    alloc: Global,
    reader: &mut Reader<'s>,
    start: &'s str,
) -> Result<(), XmlError>
    ensures { GivesRest result (left reader.new)
        (declaration_at (spelled start.entry) (left reader.old)) }
{
    let attributes = take_attributes(alloc, reader)?;
    take_word(reader, &['?', '>'])?;
    match declaration_fault(attributes.as_slice()) {
        None => Ok(()),
        Some(fault) => {
            reader.rest = start;
            Err(XmlError::Fault(fault))
        }
    }
}

/// Takes a byte order mark, if there is one.
fn skip_mark(reader: &mut Reader<'_>)
    ensures { left reader.new ≡ after_mark (left reader.old) }
{
    if let Some(('\u{feff}', rest)) = split_first(reader.rest) {
        reader.rest = rest;
    }
}

/// Takes a byte order mark and an XML declaration, where they stand at the beginning of a text.
///
/// # Errors
/// `Fault` where the declaration is malformed or names another encoding than UTF-8. `Memory` where a request for memory was refused.
pub fn take_prolog<'s>(alloc: Global, reader: &mut Reader<'s>) -> Result<(), XmlError>
    // What was taken is a prolog of the text.
    ensures found { IfOk result (λ _. IsProlog (left reader.old) (left reader.new)) }
    // A prolog of the text is taken, unless memory runs out.
    ensures only { (rest : List ℕ) → IsProlog (left reader.old) rest
        → LeavesOnly result (left reader.new) rest }
    // What follows the prolog, or the first fault from the left.
    ensures reading { GivesRest result (left reader.new) (prolog_at (left reader.old)) }
{
    read_prolog(alloc, reader)
}

/// Takes a byte order mark and an XML declaration, where they stand.
fn read_prolog<'s>(alloc: Global, reader: &mut Reader<'s>) -> Result<(), XmlError>
    ensures { GivesRest result (left reader.new) (prolog_at (left reader.old)) }
{
    skip_mark(reader);
    let start = reader.rest;
    if take_word(reader, &['<', '?', 'x', 'm', 'l']).is_err()
        || !begins(reader.rest, Class::Space)
    {
        reader.rest = start;
        return Ok(());
    }
    match take_declaration(alloc, reader, start) {
        Ok(()) => Ok(()),
        Err(XmlError::Fault(Fault::Unclosed)) => {
            reader.rest = start;
            Err(XmlError::Fault(Fault::Unclosed))
        }
        Err(error) => Err(error),
    }
}
