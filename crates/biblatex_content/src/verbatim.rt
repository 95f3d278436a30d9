//! Verbatim fields.

ghost use Rattle.std.specs.Prelude.{◌≡◌, ◌++◌, ◌==◌, ◌||◌, not, true, IfOk, OnOk};
ghost use Rattle.std.specs.Str.{chars, str_to_ascii_lowercase};
ghost use Rattle.laws.specs.Characters.{backslash};
ghost use Rattle.biblatex_content.specs.declared.chunk.Kind.TheVariants.{Verbatim};
ghost use Rattle.biblatex_content.specs.Styled.{letters};
ghost use Rattle.biblatex_content.specs.Verbatim.{is_brace, is_escapable, verbatim_piece, is_third_of_verbatim, is_verbatim_escape, verbatim_text, is_verbatim_name};
ghost use Rattle.biblatex_content.specs.Views.{joined, styled};

use crate::chunk::{Chunks, Kind};
use crate::joining::Joining;
use crate::names::third_byte;
use std::alloc::{AllocError, Global};

/// Whether a backslash before the character stands for the character: in an ordinary field before `{ } # & % $ _`; in a
/// verbatim field (`verb`) before these and `\ ~ ^` where it is read (`read_char`), and before `{ } \` where it is written.
pub fn is_escapable(c: char, verb: bool, read_char: bool) -> bool
    ensures { result ≡ is_escapable c verb read_char }
{
    match c {
        '{' | '}' => true,
        '\\' => verb,
        '~' | '^' => verb && read_char,
        '#' | '&' | '%' | '$' | '_' => !verb || read_char,
        _ => false,
    }
}

/// Whether the field of that name is read verbatim: `file`, `doi`, `uri`, `eprint`, `verba`, `verbb`, `verbc`, `pdf`,
/// `url` and `urlraw`. The name is in lower case. The third byte of most names says that they are none of these.
pub fn is_verbatim_field(key: &str) -> bool
    ensures { result ≡ is_verbatim_name key.now }
{
    if !is_third_of_verbatim(third_byte(key)) {
        return false;
    }
    is_one_of_verbatim(key)
}

/// The same of any name.
fn is_one_of_verbatim(key: &str) -> bool
    ensures { result ≡ is_verbatim_name key.now }
{
    matches!(
        key,
        "file" | "doi" | "uri" | "eprint" | "verba" | "verbb" | "verbc" | "pdf" | "url" | "urlraw"
    )
}

/// Whether the byte is the third one of such a name.
#[inline(always)]
fn is_third_of_verbatim(byte: u8) -> bool
    ensures { result ≡ is_third_of_verbatim byte }
{
    matches!(byte, b'f' | b'i' | b'l' | b'r')
}

/// Whether the character is no backslash and no brace.
fn is_literal_character(c: char) -> bool
    ensures { result ≡ not (c == backslash || is_brace c) }
{
    !matches!(c, '\\' | '{' | '}')
}

/// Whether each character of a piece of a verbatim field is itself: none is a backslash or a brace.
pub(crate) fn is_literal(piece: &str) -> bool
    ensures { result ≡ true → verbatim_text (chars piece.now) ≡ chars piece.now }
{
    for c in piece.chars() {
        if !is_literal_character(c) {
            return false;
        }
    }
    true
}

impl Joining {
    /// What was joined so far, with a piece of a verbatim field after it.
    fn push_verbatim(mut self, piece: &str) -> Result<Joining, AllocError>
        ensures { IfOk result (λ c. joined c
            ≡ joined self ++ letters Verbatim (verbatim_text (chars piece.now))) }
    {
        let mut is_escaped = false;
        for c in piece.chars() {
            is_escaped = self.push_verbatim_character(is_escaped, c)?;
        }
        if is_escaped {
            self.push(Kind::Verbatim, '\\')?;
        }
        Ok(self)
    }

    /// Reads a character after a backslash or not, and says whether it is a backslash that the next one decides about.
    fn push_verbatim_character(&mut self, is_escaped: bool, c: char) -> Result<bool, AllocError>
        ensures pushed { IfOk result (λ is_next. joined self.new
            ≡ joined self.old ++ letters Verbatim (verbatim_piece is_escaped c)) }
        ensures next { IfOk result (λ is_next. is_next ≡ is_verbatim_escape is_escaped c) }
    {
        if !is_escaped && c == '\\' {
            return Ok(true);
        }
        if is_escaped && !is_escapable(c, true, true) {
            self.push(Kind::Verbatim, '\\')?;
        }
        if is_escaped || !matches!(c, '{' | '}') {
            self.push(Kind::Verbatim, c)?;
        }
        Ok(false)
    }
}

/// The chunks of a piece of a verbatim field.
pub(crate) fn read_verbatim(alloc: Global, piece: &str) -> Result<Chunks, AllocError>
    ensures { IfOk result (λ cs. styled cs.items
        ≡ letters Verbatim (verbatim_text (chars piece.now))) }
{
    Joining::new(alloc).push_verbatim(piece)?.into_chunks()
}
