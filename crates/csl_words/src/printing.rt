//! What the attributes of an element say to print.

ghost use Rattle.std.specs.Prelude.{◌≡◌, ◌++◌, true, IfOk, OnOk};
ghost use Rattle.std.specs.Option.{option_map};
ghost use Rattle.std.specs.Str.{chars};
ghost use Rattle.laws.specs.Text.{characters};
ghost use Rattle.xml_text.specs.Character.{is_space};
ghost use Rattle.xml_tree.specs.Views.{element_view};
ghost use Rattle.csl_words.specs.Printing.{spaced_part, spaced, is_spaced, printed, printed_text};

use crate::looking::{attribute, value_of};
use std::alloc::{AllocError, Global};
use texts::{empty_text, push_character, split_first};
use xml_tree::Element;

/// Whether a character is white space of XML.
fn is_space(c: char) -> bool
    ensures { result ≡ is_space c }
{
    matches!(c, ' ' | '\t' | '\n' | '\r')
}

/// Appends what a character becomes, where white space stands before it or not.
fn push_part(text: &mut String, c: char, after_space: bool) -> Result<(), AllocError>
    ensures { OnOk result (characters text.new ≡ characters text.old ++ spaced_part after_space c) }
{
    if !is_space(c) {
        push_character(text, c)
    } else if after_space {
        Ok(())
    } else {
        push_character(text, ' ')
    }
}

/// The text, each run of white space of XML in it one space. Where white space is single spaces it is a copy.
fn spaced(alloc: Global, text: &str) -> Result<String, AllocError>
    ensures runs { IfOk result (λ s. characters s ≡ spaced (chars text.now)) }
    ensures copy { is_spaced (chars text.now) ≡ true
        → IfOk result (λ s. characters s ≡ chars text.now) }
{
    let mut spaced = empty_text(alloc);
    let mut after_space = false;
    let mut rest = text;
    while let Some((c, others)) = split_first(rest) {
        push_part(&mut spaced, c, after_space)?;
        after_space = is_space(c);
        rest = others;
    }
    Ok(spaced)
}

/// What an attribute says to print, in which each run of white space is one space; empty where there is no such attribute.
///
/// # Errors
/// Where a request for memory was refused.
pub fn printed_text(alloc: Global, name: &str, element: &Element<'_>) -> Result<String, AllocError>
    ensures { IfOk result (λ s. characters s ≡ printed_text name.now (element_view element.now)) }
{
    spaced(alloc, value_of(name, element))
}

/// What an attribute says to print, in which each run of white space is one space.
///
/// # Errors
/// Where a request for memory was refused.
pub fn printed(
    alloc: Global,
    name: &str,
    element: &Element<'_>,
) -> Result<Option<String>, AllocError>
    ensures { IfOk result (λ s. option_map characters s
        ≡ printed name.now (element_view element.now)) }
{
    match attribute(name, element) {
        Some(value) => Ok(Some(spaced(alloc, value)?)),
        None => Ok(None),
    }
}
