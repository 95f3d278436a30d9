//! The text of chunks, and chunks of a text.

ghost use Rattle.std.specs.Prelude.{◌≡◌, IfOk, string_bytes};
ghost use Rattle.std.specs.Str.{chars};
ghost use Rattle.laws.specs.Text.{text as text_of, characters};
ghost use Rattle.biblatex_content.specs.declared.chunk.Kind.TheVariants.{Normal};
ghost use Rattle.biblatex_content.specs.Styled.{letters, plain};
ghost use Rattle.biblatex_content.specs.Views.{styled};

use biblatex_content::{Chunk, Chunks, ChunksExt, Spanned};
use std::alloc::{AllocError, Global};
use texts::owned;

/// The text of chunks; of math what stands between the dollar signs.
pub fn plain_text(alloc: Global, chunks: &[Spanned<Chunk>]) -> Result<String, AllocError>
    ensures characters { IfOk result (λ s. characters s ≡ plain (styled chunks.now)) }
    ensures bytes { IfOk result (λ s. string_bytes s ≡ text_of (plain (styled chunks.now))) }
{
    chunks.format_verbatim(alloc)
}

/// One chunk of normal text, of no source.
pub fn normal_chunks(alloc: Global, text: String) -> Result<Chunks, AllocError>
    ensures { IfOk result (λ cs. styled cs.items ≡ letters Normal (characters text)) }
{
    let mut chunks = Vec::with_capacity(alloc, 1)?;
    chunks.push(Spanned::detached(Chunk::Normal(text)))?;
    Ok(chunks)
}

/// One chunk of the same text, normal and of no source.
pub fn text_chunks(alloc: Global, text: &str) -> Result<Chunks, AllocError>
    ensures { IfOk result (λ cs. styled cs.items ≡ letters Normal (chars text.now)) }
{
    normal_chunks(alloc, owned(alloc, text)?)
}
