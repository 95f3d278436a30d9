//! The characters of a value, one by one.

ghost use Rattle.std.specs.Prelude.{◌≡◌, ◌++◌, IfOk, OnOk};
ghost use Rattle.std.specs.Str.{chars};
ghost use Rattle.biblatex_content.specs.Views.{members, styled};
ghost use Rattle.laws.specs.Text.{characters};
ghost use Rattle.biblatex_lists.specs.StyledChars.{is_gap, of_style, plain, spells, styled_chars};

use biblatex_content::{Chunk, Spanned};
use std::alloc::{AllocError, Global};
use texts::{empty_text, push_character};

/// A character of a field's value.
#[derive(Debug, Clone, Copy, PartialEq, Eq)]
pub struct StyledChar {
    /// The character.
    pub c: char,
    /// Whether it is of normal text; what is verbatim or math never parts anything.
    pub is_normal: bool,
}

impl StyledChar {
    /// Whether it is white space that parts.
    pub fn is_gap(self) -> bool
        ensures { result ≡ is_gap self }
    {
        self.is_normal && self.c.is_whitespace()
    }

    /// Whether it is the letter, which is given in lower case, in either case.
    pub fn spells(self, lower: char) -> bool
        ensures { result ≡ spells lower self }
    {
        self.is_normal && self.c.to_ascii_lowercase() == lower
    }
}

/// The characters of a value; those of a math piece are as verbatim ones.
pub fn styled_chars(alloc: Global, value: &[Spanned<Chunk>]) -> Result<Vec<StyledChar>, AllocError>
    ensures { IfOk result (λ ss. ss.items ≡ styled_chars (styled value.now)) }
{
    let mut list = Vec::new(alloc);
    for chunk in value {
        push_chunk(&mut list, &chunk.v)?;
    }
    Ok(list)
}

/// Appends the characters of a chunk.
fn push_chunk(list: &mut Vec<StyledChar>, chunk: &Chunk) -> Result<(), AllocError>
    ensures { OnOk result (list.new.items ≡ list.old.items ++ styled_chars (members chunk.now)) }
{
    match chunk {
        Chunk::Normal(text) => push_chars(list, text.as_str(), true),
        Chunk::Verbatim(text) => push_chars(list, text.as_str(), false),
        Chunk::Math(text) => push_chars(list, text.as_str(), false),
    }
}

/// Appends the characters of a text, Normal or not. After an error some of them may have been appended.
pub fn push_chars(list: &mut Vec<StyledChar>, text: &str, is_normal: bool) -> Result<(), AllocError>
    ensures { OnOk result (list.new.items ≡ list.old.items ++ of_style is_normal (chars text.now)) }
{
    list.reserve(text.len())?;
    append_chars(list, text, is_normal)
}

/// The same, without room for all of them beforehand.
fn append_chars(list: &mut Vec<StyledChar>, text: &str, is_normal: bool) -> Result<(), AllocError>
    ensures { OnOk result (list.new.items ≡ list.old.items ++ of_style is_normal (chars text.now)) }
{
    for c in text.chars() {
        list.push(StyledChar { c, is_normal })?;
    }
    Ok(())
}

/// The characters as a text.
pub fn plain_text(alloc: Global, part: &[StyledChar]) -> Result<String, AllocError>
    ensures { IfOk result (λ s. characters s ≡ plain part.now) }
{
    let mut text = empty_text(alloc);
    for styled in part {
        push_character(&mut text, styled.c)?;
    }
    Ok(text)
}
