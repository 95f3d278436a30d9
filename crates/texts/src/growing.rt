//! Texts that grow, viewed as their characters.

ghost use Rattle.std.specs.Prelude.{◌≡◌, ◌++◌, ◌∷◌, [], IfOk, OnOk, string_bytes};
ghost use Rattle.std.specs.Str.{chars};
ghost use Rattle.laws.specs.Text.{characters, is_filled, text as text_of};

use std::alloc::{AllocError, Global};
use std::mem;

/// A text without characters.
pub fn empty_text(alloc: Global) -> String
    ensures characters { characters result ≡ [] }
    ensures bytes { string_bytes result ≡ [] }
{
    String::new(alloc)
}

/// A copy of the text.
pub fn owned(alloc: Global, text: &str) -> Result<String, AllocError>
    ensures characters { IfOk result (λ s. characters s ≡ chars text.now) }
    ensures bytes { IfOk result (λ s. string_bytes s ≡ text.now) }
    ensures spelled { IfOk result (λ s. string_bytes s ≡ text_of (chars text.now)) }
{
    String::from_str(alloc, text)
}

/// Appends a character.
pub fn push_character(text: &mut String, c: char) -> Result<(), AllocError>
    ensures { OnOk result (characters text.new ≡ characters text.old ++ c ∷ []) }
{
    text.push(c)
}

/// Appends a text.
pub fn push_text(text: &mut String, more: &str) -> Result<(), AllocError>
    ensures { OnOk result (characters text.new ≡ characters text.old ++ chars more.now) }
{
    text.push_str(more)
}

/// Takes the text out, and leaves an empty one.
pub fn take_text(alloc: Global, text: &mut String) -> String
    ensures taken { characters result ≡ characters text.old }
    ensures left { characters text.new ≡ [] }
{
    mem::replace(text, empty_text(alloc))
}

/// Whether there is a character.
pub fn has_text(text: &str) -> bool
    ensures { result ≡ is_filled (chars text.now) }
{
    text.chars().next().is_some()
}
