//! Reading the tree of a text.

ghost use Rattle.std.specs.Prelude.{◌≡◌, ℕ, List, IfOk};
ghost use Rattle.std.specs.Option.{option_map};
ghost use Rattle.std.specs.Str.{chars};
ghost use Rattle.laws.specs.Results.{Gives, GivesBack, GivesRest};
ghost use Rattle.laws.specs.Text.{spelled};
ghost use Rattle.texts.specs.Views.{left};
ghost use Rattle.xml_text.specs.Markup.{token_at};
ghost use Rattle.xml_text.specs.Views.{placed_view, token_view};
ghost use Rattle.xml_tree.specs.Building.{with_place, step, and_rest, stepped, tree_from, tree_of, first_state};
ghost use Rattle.xml_tree.specs.Grammar.{Spells};
ghost use Rattle.xml_tree.specs.Trees as trees;
ghost use Rattle.xml_tree.specs.Views.{refusal_of, element_view, state_view, error_view, Steps};

use crate::building::Builder;
use crate::error::TreeError;
use crate::tree::Element;
use std::alloc::Global;
use texts::Reader;
use xml_text::{Placed, Token, XmlError, byte_len, next_token, take_prolog};

/// Why reading stopped before this text.
fn stopped(error: XmlError, rest: &str) -> TreeError
    ensures { result ≡ error_view error (chars rest.now) }
{
    match error {
        XmlError::Memory => TreeError::Memory,
        XmlError::Fault(fault) => TreeError::Fault {
            fault,
            left: byte_len(rest),
        },
    }
}

/// The next token, or nothing at the end of the text.
fn read_token<'s>(
    alloc: Global,
    reader: &mut Reader<'s>,
) -> Result<Option<Placed<Token<'s>>>, TreeError>
    ensures { GivesRest refusal_of (option_map (placed_view token_view)) result (left reader.new)
        (with_place (token_at (left reader.old))) }
{
    match next_token(alloc, reader) {
        Ok(token) => Ok(token),
        Err(error) => Err(stopped(error, reader.rest)),
    }
}

/// Puts a token into the tree. The text from it on is given.
fn put_token<'s>(
    alloc: Global,
    builder: &mut Builder<'s>,
    start: &'s str,
    token: Token<'s>,
) -> Result<bool, TreeError>
    ensures { (rest : List ℕ) → Steps result (state_view builder.old) (state_view builder.new) rest
        (and_rest rest (step (state_view builder.old) (spelled start.entry)
        (token_view token.entry))) }
{
    builder.step(alloc, start, token)?;
    Ok(true)
}

/// Reads the next token into the tree, and says whether there was one.
fn read_step<'s>(
    alloc: Global,
    reader: &mut Reader<'s>,
    builder: &mut Builder<'s>,
) -> Result<bool, TreeError>
    ensures { Steps result (state_view builder.old) (state_view builder.new) (left reader.new)
        (stepped (state_view builder.old) (left reader.old)) }
{
    let start = reader.rest;
    let token = read_token(alloc, reader)?;
    match token {
        Some(token) => put_token(alloc, builder, start, token.v),
        None => Ok(false),
    }
}

/// The tree that the rest of a text completes.
fn read_rest<'s>(alloc: Global, mut reader: Reader<'s>) -> Result<Element<'s>, TreeError>
    ensures { Gives refusal_of element_view result (tree_from first_state (left reader.entry)) }
{
    let mut builder = Builder::new(alloc);
    while read_step(alloc, &mut reader, &mut builder)? {}
    builder.finish()
}

/// The tree of a text.
///
/// # Errors
/// `Fault` where the text is no XML with namespaces, with the place where that shows first. `Memory` where a request for memory was refused.
pub fn parse<'s>(alloc: Global, text: &'s str) -> Result<Element<'s>, TreeError>
    // What is read the text spells.
    ensures found { IfOk result (λ e. Spells (element_view e) (chars text.now)) }
    // What the text spells is read, unless memory runs out.
    ensures only { (e : trees.Element) → Spells e (chars text.now)
        → GivesBack refusal_of element_view result e }
    // The tree, or the first fault from the left.
    ensures reading { Gives refusal_of element_view result (tree_of (chars text.now)) }
{
    read_text(alloc, text)
}

/// The tree of a text.
fn read_text<'s>(alloc: Global, text: &'s str) -> Result<Element<'s>, TreeError>
    ensures { Gives refusal_of element_view result (tree_of (chars text.now)) }
{
    let mut reader = Reader::new(text);
    match take_prolog(alloc, &mut reader) {
        Ok(()) => read_rest(alloc, reader),
        Err(error) => Err(stopped(error, reader.rest)),
    }
}
