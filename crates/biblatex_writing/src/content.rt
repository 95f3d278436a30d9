//! The content of a field, as it is written.

ghost use Rattle.std.specs.Prelude.{◌≡◌, false, [], ◌∷◌};
ghost use Rattle.std.specs.Fmt.{WritesInCalls};
ghost use Rattle.std.specs.Str.{chars};
ghost use Rattle.laws.specs.Text.{text as text_of};
ghost use Rattle.biblatex_content.specs.Styled.{Math, letters};
ghost use Rattle.biblatex_content.specs.Views.{members, styled};
ghost use Rattle.biblatex_content.specs.Writing.{closing, turning, is_grouped, written_ordinary, written_verbatim, written_content};
ghost use Rattle.biblatex_writing.specs.ContentPieces.{WritesMembers};

use crate::characters::{is_command, push_characters};
use biblatex_content::{Chunk, Kind, Spanned};
use sinks::Target;
use texts::split_first;

/// Whether characters of the kind stand in a group.
fn is_grouped(kind: Kind) -> bool
    ensures { result ≡ is_grouped kind }
{
    matches!(kind, Kind::Verbatim)
}

/// The end of the group, if one is open.
fn closing(is_open: bool) -> &'static str
    ensures { result.now ≡ closing is_open }
{
    if is_open { "}" } else { "" }
}

/// What stands before a character of the kind, where a group may be open: its end before a normal character, the start of
/// a group before a verbatim one. An empty group comes first where else the group would begin with a backslash.
fn turning(is_open: bool, kind: Kind, c: char) -> &'static str
    ensures { result.now ≡ turning is_open kind c }
{
    match kind {
        Kind::Normal => closing(is_open),
        Kind::Verbatim if is_open => "",
        Kind::Verbatim if is_command(c) => "{{}",
        Kind::Verbatim => "{",
    }
}

/// Writes characters of the kind where a group may be open, and says whether one is open then.
fn push_letters<T: Target>(target: &mut T, is_open: bool, kind: Kind, text: &str) -> bool
    ensures { WritesMembers T.takes target.old is_open
        (letters kind (chars text.now)) target.new result }
{
    let Some((c, _)) = split_first(text) else {
        return is_open;
    };
    target.push_str(turning(is_open, kind, c));
    push_characters(target, false, text);
    is_grouped(kind)
}

/// Writes a math piece where a group may be open; then none is open.
fn push_math<T: Target>(target: &mut T, is_open: bool, math: &str)
    ensures { WritesMembers T.takes target.old is_open
        (Math (chars math.now) ∷ []) target.new false }
{
    target.push_str(closing(is_open));
    target.push_str("$");
    target.push_str(math);
    target.push_str("$");
}

/// Writes a chunk of an ordinary field where a group may be open, and says whether one is open then.
fn push_chunk<T: Target>(target: &mut T, is_open: bool, chunk: &Chunk) -> bool
    ensures { WritesMembers T.takes target.old is_open (members chunk.now) target.new result }
{
    match chunk {
        Chunk::Normal(text) => push_letters(target, is_open, Kind::Normal, text.as_str()),
        Chunk::Verbatim(text) => push_letters(target, is_open, Kind::Verbatim, text.as_str()),
        Chunk::Math(math) => {
            push_math(target, is_open, math.as_str());
            false
        }
    }
}

/// Writes the chunks of an ordinary field.
fn push_ordinary<T: Target>(target: &mut T, chunks: &[Spanned<Chunk>])
    ensures { WritesInCalls T.takes target.old
        (text_of (written_ordinary (styled chunks.now))) target.new }
{
    let mut is_open = false;
    for chunk in chunks {
        is_open = push_chunk(target, is_open, &chunk.v);
    }
    target.push_str(closing(is_open));
}

/// Writes the chunks of a verbatim field.
fn push_verbatim<T: Target>(target: &mut T, chunks: &[Spanned<Chunk>])
    ensures { WritesInCalls T.takes target.old
        (text_of (written_verbatim (styled chunks.now))) target.new }
{
    for chunk in chunks {
        push_characters(target, true, chunk.v.get());
    }
}

/// Writes chunks as the content of a field, verbatim or ordinary.
pub(crate) fn push_content<T: Target>(target: &mut T, is_verbatim: bool, chunks: &[Spanned<Chunk>])
    ensures { WritesInCalls T.takes target.old
        (text_of (written_content is_verbatim (styled chunks.now))) target.new }
{
    if is_verbatim {
        push_verbatim(target, chunks);
    } else {
        push_ordinary(target, chunks);
    }
}
