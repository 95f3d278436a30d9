//! Chunks that are joined: no two neighbours are text of one kind, and no text is empty.

ghost use Rattle.std.specs.Prelude.{◌≡◌, ◌&&◌};
ghost use Rattle.biblatex_content.specs.Parted.{is_full, kind_of, is_apart, first_kind, are_parted};

use crate::chunk::{Chunk, Kind};
use biblatex_text::Spanned;
use texts::has_text;

/// Whether the chunk gives something: it is math, or has a character.
pub(crate) fn is_full(chunk: &Chunk) -> bool
    ensures { result ≡ is_full chunk.now }
{
    match chunk {
        Chunk::Normal(text) | Chunk::Verbatim(text) => has_text(text.as_str()),
        Chunk::Math(_) => true,
    }
}

/// The kind of a chunk of text.
fn kind_of(chunk: &Chunk) -> Option<Kind>
    ensures { result ≡ kind_of chunk.now }
{
    match chunk {
        Chunk::Normal(_) => Some(Kind::Normal),
        Chunk::Verbatim(_) => Some(Kind::Verbatim),
        Chunk::Math(_) => None,
    }
}

/// Whether two chunks of these kinds may be neighbours.
fn is_apart(kind: Option<Kind>, next: Option<Kind>) -> bool
    ensures { result ≡ is_apart kind next }
{
    match (kind, next) {
        (Some(Kind::Normal), Some(Kind::Normal)) => false,
        (Some(Kind::Verbatim), Some(Kind::Verbatim)) => false,
        _ => true,
    }
}

/// The kind of the first chunk.
fn first_kind(chunks: &[Spanned<Chunk>]) -> Option<Kind>
    ensures { result ≡ first_kind chunks.now }
{
    match chunks.split_first() {
        Some((chunk, _)) => kind_of(&chunk.v),
        None => None,
    }
}

/// Whether the chunk gives something, and the first of those after it may be its neighbour.
fn is_parted(chunk: &Chunk, others: &[Spanned<Chunk>]) -> bool
    ensures { result
        ≡ (is_full chunk.now && is_apart (kind_of chunk.now) (first_kind others.now)) }
{
    is_full(chunk) && is_apart(kind_of(chunk), first_kind(others))
}

/// Whether no text is empty, and no two neighbours are text of one kind.
pub(crate) fn are_parted(chunks: &[Spanned<Chunk>]) -> bool
    ensures { result ≡ are_parted chunks.now }
{
    let mut rest = chunks;
    while let Some((chunk, others)) = rest.split_first() {
        if !is_parted(&chunk.v, others) {
            return false;
        }
        rest = others;
    }
    true
}
