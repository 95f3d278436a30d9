//! How the texts of fields are shown.

ghost use Rattle.std.specs.Prelude.{◌≡◌, ◌++◌, ◌∷◌, [], false, IfOk, OnOk, string_bytes, Bool, List, ℕ};
ghost use Rattle.std.specs.Str.{chars};
ghost use Rattle.laws.specs.Runs.{prefix_of, after};
ghost use Rattle.laws.specs.Text.{is_filled};
ghost use Rattle.biblatex.specs.Contents.{members, styled};
ghost use Rattle.biblatex.specs.Styled.{Member, Math, letters};
ghost use Rattle.bib_show.specs.Shown.{is_marked, is_plain, kind_of, shown_characters, turning, shown_from};

use biblatex::{Chunk, Spanned};
use source_positions::push_escape;
use std::alloc::AllocError;
use texts::{CharacterClass, has_text, split_first, split_run};

/// Shows a value: normal text as it is, verbatim text in braces, math between dollar signs.
pub(crate) fn push_value(out: &mut String, value: &[Spanned<Chunk>]) -> Result<(), AllocError>
    ensures { OnOk result (string_bytes out.new
        ≡ string_bytes out.old ++ shown_from false (styled value.now)) }
{
    let mut is_open = false;
    let mut rest = value;
    while let Some((chunk, more)) = rest.split_first() {
        is_open = push_chunk(out, is_open, &chunk.v)?;
        rest = more;
    }
    turn(out, is_open, false)
}

/// Shows one more chunk, where verbatim text may stand before it, and says whether such stands at its end.
fn push_chunk(out: &mut String, is_open: bool, chunk: &Chunk) -> Result<bool, AllocError>
    ensures { IfOk result (λ ends_open. (more : List Member)
        → string_bytes out.new ++ shown_from ends_open more
        ≡ string_bytes out.old ++ shown_from is_open (members chunk.now ++ more)) }
{
    match chunk {
        Chunk::Normal(text) => push_text(out, is_open, false, text.as_str()),
        Chunk::Verbatim(text) => push_text(out, is_open, true, text.as_str()),
        Chunk::Math(text) => push_math(out, is_open, text.as_str()),
    }
}

/// Shows normal or verbatim text.
fn push_text(
    out: &mut String,
    is_open: bool,
    is_verbatim: bool,
    text: &str,
) -> Result<bool, AllocError>
    ensures { IfOk result (λ ends_open. (more : List Member)
        → string_bytes out.new ++ shown_from ends_open more ≡ string_bytes out.old
        ++ shown_from is_open (letters (kind_of is_verbatim) (chars text.now) ++ more)) }
{
    if !has_text(text) {
        return Ok(is_open);
    }
    turn(out, is_open, is_verbatim)?;
    push_characters(out, text)?;
    Ok(is_verbatim)
}

/// Shows math.
fn push_math(out: &mut String, is_open: bool, text: &str) -> Result<bool, AllocError>
    ensures { IfOk result (λ ends_open. (more : List Member)
        → string_bytes out.new ++ shown_from ends_open more
        ≡ string_bytes out.old ++ shown_from is_open (Math (chars text.now) ∷ more)) }
{
    turn(out, is_open, false)?;
    out.push('$')?;
    push_characters(out, text)?;
    out.push('$')?;
    Ok(false)
}

/// The brace between verbatim text and other text.
fn turn(out: &mut String, is_open: bool, is_verbatim: bool) -> Result<(), AllocError>
    ensures { OnOk result (string_bytes out.new
        ≡ string_bytes out.old ++ turning is_open is_verbatim) }
{
    match (is_open, is_verbatim) {
        (true, false) => out.push('}'),
        (false, true) => out.push('{'),
        _ => Ok(()),
    }
}

/// Shows characters.
fn push_characters(out: &mut String, text: &str) -> Result<(), AllocError>
    ensures { OnOk result (string_bytes out.new
        ≡ string_bytes out.old ++ shown_characters (chars text.now)) }
{
    let mut rest = push_plain(out, text)?;
    while let Some((c, more)) = split_first(rest) {
        push_escape(out, c)?;
        rest = push_plain(out, more)?;
    }
    Ok(())
}

/// Shows the characters before the first one that is marked, in one go, and gives back what follows them.
fn push_plain<'s>(out: &mut String, text: &'s str) -> Result<&'s str, AllocError>
    ensures shown { IfOk result (λ rest. string_bytes out.new ++ shown_characters (chars rest.now)
        ≡ string_bytes out.old ++ shown_characters (chars text.now)) }
    ensures rest { IfOk result (λ rest. chars rest.now ≡ after is_plain (chars text.now)) }
{
    let (plain, rest) = split_plain(text);
    out.push_str(plain)?;
    Ok(rest)
}

/// The characters that are shown as they are.
#[derive(Clone, Copy)]
struct Plain;

impl CharacterClass for Plain {
    ghost passes = { λ _ c. is_plain c };

    fn contains(self, c: char) -> bool {
        !is_marked(c)
    }
}

/// The characters before the first one that is marked, and what follows them.
fn split_plain(text: &str) -> (&str, &str)
    ensures prefix { chars result.0.now ≡ prefix_of is_plain (chars text.now) }
    ensures rest { chars result.1.now ≡ after is_plain (chars text.now) }
{
    split_run(text, Plain)
}

/// Whether the character is a backslash, a dollar sign, a brace or a control character.
fn is_marked(c: char) -> bool
    ensures { result ≡ is_marked c }
{
    match c {
        '\\' | '$' | '{' | '}' => true,
        ' '..='~' => false,
        _ => c.is_control(),
    }
}
