//! Reading tokens.

ghost use Rattle.std.specs.Prelude.{◌≡◌, ◌∷◌, ℕ, List, IfOk};
ghost use Rattle.std.specs.Option.{option_map};
ghost use Rattle.std.specs.Str.{chars};
ghost use Rattle.laws.specs.Text.{spelled};
ghost use Rattle.texts.specs.Views.{left};
ghost use Rattle.xml_text.specs.Markup.{comment_at, section_at, exclaimed_at, is_reserved, instruction_end_at, instruction_at, markup_at, characters_end_at, characters_at, token_from, token_at};
ghost use Rattle.xml_text.specs.Grammar.{IsPlaced, IsToken, IsNext};
ghost use Rattle.xml_text.specs.Tokens.{At};
ghost use Rattle.xml_text.specs.Tokens as tokens;
ghost use Rattle.xml_text.specs.Views.{placed_view, token_view, Reads, Gives, GivesOnly};

use crate::attribute::{take_end_tag, take_start_tag};
use crate::character::Class;
use crate::ending::{Ending, take_text};
use crate::fault::{Fault, XmlError};
use crate::name::{take_plain_name, take_reference};
use crate::reading::{begins, byte_len, is_word_in_any_case, stands, take_character, take_word};
use crate::token::{Placed, Token};
use std::alloc::Global;
use texts::{Reader, split_first};

/// A comment whose first hyphen was taken.
#[tactic(auto, unfolding(crate::specs::Markup::comment_at))]
fn take_comment<'s>(reader: &mut Reader<'s>) -> Result<Token<'s>, Fault>
    ensures { Reads token_view result (left reader.new) (comment_at (left reader.old)) }
{
    take_character(reader, '-')?;
    take_text(reader, Ending::Comment);
    take_word(reader, &['-', '-', '>'])?;
    Ok(Token::Nothing)
}

/// A CDATA section whose first bracket was taken.
#[tactic(auto, unfolding(crate::specs::Markup::section_at))]
fn take_section<'s>(reader: &mut Reader<'s>) -> Result<Token<'s>, Fault>
    ensures { Reads token_view result (left reader.new) (section_at (left reader.old)) }
{
    take_word(reader, &['C', 'D', 'A', 'T', 'A', '['])?;
    let text = take_text(reader, Ending::SectionText);
    take_word(reader, &[']', ']', '>'])?;
    Ok(Token::Section(text))
}

/// What stands after an angle bracket and an exclamation mark. The text from the angle bracket on is given.
fn take_exclaimed<'s>(reader: &mut Reader<'s>, start: &'s str) -> Result<Token<'s>, Fault>
    ensures { Reads token_view result (left reader.new)
        (exclaimed_at (spelled start.entry) (left reader.old)) }
{
    match split_first(reader.rest) {
        None => Err(Fault::Unclosed),
        Some(('-', rest)) => {
            reader.rest = rest;
            take_comment(reader)
        }
        Some(('[', rest)) => {
            reader.rest = rest;
            take_section(reader)
        }
        Some(_) if stands(reader.rest, &['D', 'O', 'C', 'T', 'Y', 'P', 'E']) => {
            reader.rest = start;
            Err(Fault::Doctype)
        }
        Some(_) => Err(Fault::Unexpected),
    }
}

/// Whether a target is kept for the XML declaration.
fn is_reserved(target: &str) -> bool
    ensures { result ≡ is_reserved (chars target.now) }
{
    is_word_in_any_case(target, "xml")
}

/// What follows the target of a processing instruction. The text from its angle bracket on is given.
fn take_instruction_end<'s>(
    reader: &mut Reader<'s>,
    start: &'s str,
    target: &'s str,
) -> Result<Token<'s>, Fault>
    ensures { Reads token_view result (left reader.new)
        (instruction_end_at (spelled start.entry) (spelled target.entry) (left reader.old)) }
{
    if is_reserved(target) {
        reader.rest = start;
        return Err(Fault::ReservedTarget);
    }
    if begins(reader.rest, Class::Space) {
        take_text(reader, Ending::Instruction);
    }
    take_word(reader, &['?', '>'])?;
    Ok(Token::Nothing)
}

/// A processing instruction whose question mark was taken. The text from its angle bracket on is given.
#[tactic(auto, unfolding(crate::specs::Markup::instruction_at))]
fn take_instruction<'s>(reader: &mut Reader<'s>, start: &'s str) -> Result<Token<'s>, Fault>
    ensures { Reads token_view result (left reader.new)
        (instruction_at (spelled start.entry) (left reader.old)) }
{
    let target = take_plain_name(reader)?;
    take_instruction_end(reader, start, target)
}

/// Markup whose angle bracket was taken. The text from it on is given.
fn take_markup<'s>(
    alloc: Global,
    reader: &mut Reader<'s>,
    start: &'s str,
) -> Result<Token<'s>, XmlError>
    ensures { Gives token_view result (left reader.new)
        (markup_at (spelled start.entry) (left reader.old)) }
{
    match split_first(reader.rest) {
        None => Err(XmlError::Fault(Fault::Unclosed)),
        Some(('/', rest)) => {
            reader.rest = rest;
            Ok(Token::End(take_end_tag(reader)?))
        }
        Some(('!', rest)) => {
            reader.rest = rest;
            Ok(take_exclaimed(reader, start)?)
        }
        Some(('?', rest)) => {
            reader.rest = rest;
            Ok(take_instruction(reader, start)?)
        }
        Some(_) => Ok(Token::Start(take_start_tag(alloc, reader)?)),
    }
}

/// What ends the character data that was taken.
fn take_characters_end<'s>(reader: &mut Reader<'s>, text: &'s str) -> Result<Token<'s>, Fault>
    ensures { Reads token_view result (left reader.new)
        (characters_end_at (spelled text.entry) (left reader.old)) }
{
    match split_first(reader.rest) {
        None | Some(('<' | '&', _)) => Ok(Token::Characters(text)),
        Some(_) => {
            take_word(reader, &[']', ']'])?;
            Err(Fault::Unexpected)
        }
    }
}

/// Character data.
fn take_characters<'s>(reader: &mut Reader<'s>) -> Result<Token<'s>, Fault>
    ensures { Reads token_view result (left reader.new) (characters_at (left reader.old)) }
{
    let text = take_text(reader, Ending::Data);
    take_characters_end(reader, text)
}

/// A token that begins with this character, after which the text is given too.
fn take_token<'s>(
    alloc: Global,
    reader: &mut Reader<'s>,
    c: char,
    rest: &'s str,
) -> Result<Token<'s>, XmlError>
    requires { left reader.old ≡ c ∷ chars rest.now }
    ensures { Gives token_view result (left reader.new) (token_from c (chars rest.entry.now)) }
{
    match c {
        '<' => {
            let start = reader.rest;
            reader.rest = rest;
            take_markup(alloc, reader, start)
        }
        '&' => {
            reader.rest = rest;
            Ok(Token::Reference(take_reference(reader)?))
        }
        _ => Ok(take_characters(reader)?),
    }
}

/// The next token, or nothing at the end of the text.
///
/// # Errors
/// `Fault` where the text is no XML: what is left begins with the character that may not stand there, or, where the text ends within a token,
/// with that token. `Memory` where a request for memory was refused.
pub fn next_token<'s>(
    alloc: Global,
    reader: &mut Reader<'s>,
) -> Result<Option<Placed<Token<'s>>>, XmlError>
    // What is read the text spells.
    ensures found { IfOk result (λ o. IsNext (left reader.old)
        (option_map (placed_view token_view) o) (left reader.new)) }
    // What the text spells is read, unless memory runs out.
    ensures only { (x : At tokens.Token) (rest : List ℕ) → IsPlaced (left reader.old) x.left
        → IsToken (left reader.old) x.v rest → GivesOnly result (left reader.new) x rest }
    // The token, or the first fault from the left.
    ensures reading { Gives (option_map (placed_view token_view)) result (left reader.new)
        (token_at (left reader.old)) }
{
    read_token(alloc, reader)
}

/// The next token, or nothing at the end of the text.
fn read_token<'s>(
    alloc: Global,
    reader: &mut Reader<'s>,
) -> Result<Option<Placed<Token<'s>>>, XmlError>
    ensures { Gives (option_map (placed_view token_view)) result (left reader.new)
        (token_at (left reader.old)) }
{
    let start = reader.rest;
    let here = byte_len(start);
    let (c, rest) = match split_first(start) {
        None => return Ok(None),
        Some(x) => x,
    };
    match take_token(alloc, reader, c, rest) {
        Ok(token) => Ok(Some(Placed {
            v: token,
            left: here,
        })),
        Err(XmlError::Fault(Fault::Unclosed)) => {
            reader.rest = start;
            Err(XmlError::Fault(Fault::Unclosed))
        }
        Err(error) => Err(error),
    }
}
