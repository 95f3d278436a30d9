//! Writing: the text that chunks are read from.

ghost use Rattle.std.specs.Prelude.{◌≡◌, ◌++◌, ◌∷◌, false, List, IfOk, OnOk};
ghost use Rattle.std.specs.List.{flat_map};
ghost use Rattle.std.specs.Str.{chars};
ghost use Rattle.biblatex_content.specs.Styled.{Member, Letter, Math, letters};
ghost use Rattle.biblatex_tex.specs.Token.{begins_command};
ghost use Rattle.biblatex_content.specs.Writing.{escaped, written_character, guard, closing, turning, is_grouped, written_ordinary, written_as_is, written_verbatim, written_content, written_after};
ghost use Rattle.biblatex_content.specs.Views.{members, styled};
ghost use Rattle.laws.specs.Characters.{open_brace};
ghost use Rattle.laws.specs.Text.{characters};

use crate::chunk::{Chunk, Kind};
use crate::verbatim::is_escapable;
use biblatex_text::Spanned;
use std::alloc::{AllocError, Global};
use texts::{empty_text, push_character, push_text};

/// Whether what is written of the character in an ordinary field begins with a backslash.
fn is_command(c: char) -> bool
    ensures { result ≡ begins_command (written_character c) }
{
    matches!(c, '\\' | '~' | '^') || is_escapable(c, false, false)
}

/// Writes a character of an ordinary field.
fn push_ordinary_character(text: &mut String, c: char) -> Result<(), AllocError>
    ensures { OnOk result (characters text.new ≡ characters text.old ++ written_character c) }
{
    match c {
        '\\' => push_text(text, "\\textbackslash{}"),
        '~' => push_text(text, "\\textasciitilde{}"),
        '^' => push_text(text, "\\textasciicircum{}"),
        '\u{a0}' => push_character(text, '~'),
        _ => push_escaped(text, is_escapable(c, false, false), c),
    }
}

/// Writes a character, after a backslash or not.
fn push_escaped(text: &mut String, is_escaped: bool, c: char) -> Result<(), AllocError>
    ensures { OnOk result (characters text.new ≡ characters text.old ++ escaped is_escaped c) }
{
    if is_escaped {
        push_character(text, '\\')?;
    }
    push_character(text, c)
}

/// Whether characters of the kind stand in a group.
fn is_grouped(kind: Kind) -> bool
    ensures { result ≡ is_grouped kind }
{
    matches!(kind, Kind::Verbatim)
}

/// Ends the group, if one is open.
fn close_group(text: &mut String, is_open: bool) -> Result<(), AllocError>
    ensures { OnOk result (characters text.new ≡ characters text.old ++ closing is_open) }
{
    if is_open {
        return push_character(text, '}');
    }
    Ok(())
}

/// Begins a group whose first character is given: an empty group comes first where else the group would begin with a
/// backslash.
fn open_group(text: &mut String, c: char) -> Result<(), AllocError>
    ensures { OnOk result (characters text.new
        ≡ characters text.old ++ open_brace ∷ guard (written_character c)) }
{
    if is_command(c) {
        return push_text(text, "{{}");
    }
    push_character(text, '{')
}

/// Ends or begins a group, as the kind of the next character asks.
fn turn(text: &mut String, is_open: bool, kind: Kind, c: char) -> Result<(), AllocError>
    ensures { OnOk result (characters text.new ≡ characters text.old ++ turning is_open kind c) }
{
    match kind {
        Kind::Normal => close_group(text, is_open),
        Kind::Verbatim if is_open => Ok(()),
        Kind::Verbatim => open_group(text, c),
    }
}

/// Writes characters of the kind after a text in which a group may be open, and says whether one is open then.
fn push_run(text: &mut String, is_open: bool, kind: Kind, run: &str) -> Result<bool, AllocError>
    ensures { IfOk result (λ is_next. (ms : List Member) → written_after text.new is_next ms
        ≡ written_after text.old is_open (letters kind (chars run.now) ++ ms)) }
{
    let mut is_open = is_open;
    for c in run.chars() {
        turn(text, is_open, kind, c)?;
        push_ordinary_character(text, c)?;
        is_open = is_grouped(kind);
    }
    Ok(is_open)
}

/// Writes a math piece after a text in which a group may be open; then none is open.
fn push_math(text: &mut String, is_open: bool, math: &str) -> Result<(), AllocError>
    ensures { OnOk result ((ms : List Member) → written_after text.new false ms
        ≡ written_after text.old is_open (Math (chars math.now) ∷ ms)) }
{
    close_group(text, is_open)?;
    push_character(text, '$')?;
    push_text(text, math)?;
    push_character(text, '$')
}

/// Writes a chunk after a text in which a group may be open, and says whether one is open then.
fn push_chunk(text: &mut String, is_open: bool, chunk: &Chunk) -> Result<bool, AllocError>
    ensures { IfOk result (λ is_next. (ms : List Member) → written_after text.new is_next ms
        ≡ written_after text.old is_open (members chunk.now ++ ms)) }
{
    match chunk {
        Chunk::Normal(normal) => push_run(text, is_open, Kind::Normal, normal.as_str()),
        Chunk::Verbatim(verbatim) => push_run(text, is_open, Kind::Verbatim, verbatim.as_str()),
        Chunk::Math(math) => {
            push_math(text, is_open, math.as_str())?;
            Ok(false)
        }
    }
}

/// Writes the chunks of an ordinary field after a text.
fn push_ordinary(text: &mut String, chunks: &[Spanned<Chunk>]) -> Result<(), AllocError>
    ensures { OnOk result (characters text.new
        ≡ characters text.old ++ written_ordinary (styled chunks.now)) }
{
    let mut is_open = false;
    for chunk in chunks.iter() {
        is_open = push_chunk(text, is_open, &chunk.v)?;
    }
    close_group(text, is_open)
}

/// Writes the text of a chunk of a verbatim field after a text.
fn push_as_is(text: &mut String, more: &str) -> Result<(), AllocError>
    ensures { OnOk result (characters text.new
        ≡ characters text.old ++ flat_map written_as_is (chars more.now)) }
{
    for c in more.chars() {
        push_escaped(text, is_escapable(c, true, false), c)?;
    }
    Ok(())
}

/// Writes the chunks of a verbatim field after a text.
fn push_verbatim(text: &mut String, chunks: &[Spanned<Chunk>]) -> Result<(), AllocError>
    ensures { OnOk result (characters text.new
        ≡ characters text.old ++ written_verbatim (styled chunks.now)) }
{
    for chunk in chunks.iter() {
        push_as_is(text, chunk.v.get())?;
    }
    Ok(())
}

/// Writes chunks as the value of a field, verbatim or ordinary, after a text. In an ordinary field `{ } # & % $ _` stand
/// after a backslash, `\`, `~` and `^` are written as commands and a no-break space as `~`; verbatim text stands in braces,
/// math between dollar signs. In a verbatim field all is text, in which `{ } \` stand after a backslash. After an error
/// some of it may have been written.
pub fn push_biblatex(
    text: &mut String,
    chunks: &[Spanned<Chunk>],
    is_verbatim: bool,
) -> Result<(), AllocError>
    ensures { OnOk result (characters text.new
        ≡ characters text.old ++ written_content is_verbatim (styled chunks.now)) }
{
    if is_verbatim {
        push_verbatim(text, chunks)
    } else {
        push_ordinary(text, chunks)
    }
}

impl Chunk {
    /// The text of a field, verbatim or ordinary, that has this chunk alone.
    pub fn to_biblatex_string(&self, alloc: Global, is_verbatim: bool) -> Result<String, AllocError>
        ensures { IfOk result (λ s. characters s ≡ written_content is_verbatim (members self.now)) }
    {
        let mut text = empty_text(alloc);
        if is_verbatim {
            push_as_is(&mut text, self.get())?;
            return Ok(text);
        }
        let is_open = push_chunk(&mut text, false, self)?;
        close_group(&mut text, is_open)?;
        Ok(text)
    }
}
