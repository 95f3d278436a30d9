//! What character data and the values of attributes stand for.

ghost use Rattle.std.specs.Prelude.{◌≡◌, ◌∷◌, [], ◌++◌, OnOk, map};
ghost use Rattle.std.specs.Str.{chars};
ghost use Rattle.laws.specs.Results.{Gives, Leaves};
ghost use Rattle.laws.specs.Text.{characters};
ghost use Rattle.xml_text.specs.Tokens.{Literal};
ghost use Rattle.xml_text.specs.Values.{character_of};
ghost use Rattle.xml_text.specs.Views.{piece_view, reference_view};
ghost use Rattle.xml_tree.specs.Plain.{is_plain, are_plain};
ghost use Rattle.xml_tree.specs.Values.{line_part, lines_of, placed_character, shown, with_more, with_piece, value_of};
ghost use Rattle.xml_tree.specs.Views.{refusal_of};

use crate::error::TreeError;
use std::alloc::{AllocError, Global};
use texts::{
    CharacterClass, empty_text, has_text, push_character, push_text, split_first, split_run,
};
use xml_text::{Piece, Reference};

/// The character as it is shown: in a value white space is spaces.
fn shown(in_value: bool, c: char) -> char
    ensures { result ≡ shown in_value c }
{
    if in_value && matches!(c, ' ' | '\t' | '\n' | '\r') {
        ' '
    } else {
        c
    }
}

/// Appends what the character stands for, after a carriage return or after none.
fn push_line_part(
    text: &mut String,
    c: char,
    returned: bool,
    in_value: bool,
) -> Result<(), AllocError>
    ensures { OnOk result (characters text.new
        ≡ characters text.old ++ map (shown in_value) (line_part returned c)) }
{
    if c == '\r' {
        push_character(text, shown(in_value, '\n'))
    } else if returned && c == '\n' {
        Ok(())
    } else {
        push_character(text, shown(in_value, c))
    }
}

/// The characters of texts without carriage returns that stand for themselves; in a value tabs and line feeds are spaces.
#[derive(Clone, Copy)]
struct Plain {
    in_value: bool,
}

impl CharacterClass for Plain {
    ghost passes = { λ class c. is_plain class.in_value c };

    #[inline(always)]
    fn contains(self, c: char) -> bool {
        !(c == '\r' || self.in_value && (c == '\t' || c == '\n'))
    }
}

/// Whether each character of a text stands for itself.
#[inline(always)]
fn are_plain(text: &str, in_value: bool) -> bool
    ensures { result ≡ are_plain in_value (chars text.now) }
{
    !has_text(split_run(text, Plain { in_value }).1)
}

/// Appends a text, its ends of lines as line feeds.
fn push_lines(text: &mut String, more: &str, in_value: bool) -> Result<(), AllocError>
    ensures { OnOk result (characters text.new
        ≡ characters text.old ++ map (shown in_value) (lines_of (chars more.now))) }
{
    if are_plain(more, in_value) {
        push_text(text, more)
    } else {
        push_each(text, more, in_value)
    }
}

/// The same, character by character.
fn push_each(text: &mut String, more: &str, in_value: bool) -> Result<(), AllocError>
    ensures { OnOk result (characters text.new
        ≡ characters text.old ++ map (shown in_value) (lines_of (chars more.now))) }
{
    let mut returned = false;
    let mut rest = more;
    while let Some((c, others)) = split_first(rest) {
        push_line_part(text, c, returned, in_value)?;
        returned = c == '\r';
        rest = others;
    }
    Ok(())
}

/// Appends character data.
pub(crate) fn push_data(text: &mut String, more: &str) -> Result<(), AllocError>
    ensures { OnOk result (characters text.new
        ≡ characters text.old ++ lines_of (chars more.now)) }
{
    push_lines(text, more, false)
}

/// The character of a reference that stands there.
pub(crate) fn placed_character(left: usize, reference: Reference<'_>) -> Result<char, TreeError>
    ensures { Gives refusal_of (λ c. c ∷ []) result
        (placed_character left (character_of (reference_view reference.entry))) }
{
    match reference.character() {
        Ok(c) => Ok(c),
        Err(fault) => Err(TreeError::Fault { fault, left }),
    }
}

/// Appends the characters of a piece.
fn push_literal(value: &mut String, text: &str) -> Result<(), TreeError>
    ensures { Leaves refusal_of result (characters value.new)
        (with_piece (characters value.old) (Literal (chars text.now))) }
{
    push_lines(value, text, true)?;
    Ok(())
}

/// Appends what a reference stands for.
fn push_reference(
    value: &mut String,
    left: usize,
    reference: Reference<'_>,
) -> Result<(), TreeError>
    ensures { Leaves refusal_of result (characters value.new) (with_more
        (characters value.old)
        (placed_character left (character_of (reference_view reference.entry)))) }
{
    let c = placed_character(left, reference)?;
    push_character(value, c)?;
    Ok(())
}

/// Appends what a piece of a value stands for.
fn push_piece(value: &mut String, piece: Piece<'_>) -> Result<(), TreeError>
    ensures { Leaves refusal_of result (characters value.new)
        (with_piece (characters value.old) (piece_view piece.entry)) }
{
    match piece {
        Piece::Literal(text) => push_literal(value, text),
        Piece::Reference(reference) => push_reference(value, reference.left, reference.v),
    }
}

/// What the pieces of a value stand for.
pub(crate) fn value_of(alloc: Global, pieces: &[Piece<'_>]) -> Result<String, TreeError>
    ensures { Gives refusal_of characters result (value_of (map piece_view pieces.now)) }
{
    let mut value = empty_text(alloc);
    for piece in pieces {
        push_piece(&mut value, *piece)?;
    }
    Ok(value)
}
