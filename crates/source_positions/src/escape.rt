//! Characters that are shown by their numbers.

ghost use Rattle.std.specs.Prelude.{◌≡◌, ◌++◌, OnOk, string_bytes};
ghost use Rattle.std.specs.Char.Escape.{escape_unicode};
ghost use Rattle.laws.specs.Text.{characters, text as text_of};

use std::alloc::AllocError;
use texts::push_character;

/// Appends the number of a character, as `\u{..}`.
///
/// # Errors
/// Where a request for memory was refused.
pub fn push_escape(out: &mut String, c: char) -> Result<(), AllocError>
    ensures characters { OnOk result (characters out.new ≡ characters out.old ++ escape_unicode c) }
    ensures bytes { OnOk result (string_bytes out.new
        ≡ string_bytes out.old ++ text_of (escape_unicode c)) }
{
    for mark in c.escape_unicode() {
        push_character(out, mark)?;
    }
    Ok(())
}
