//! Copies of chunks.

ghost use Rattle.std.specs.Prelude.{◌≡◌, IfOk};
ghost use Rattle.biblatex_content.specs.Parted.{are_parted, is_full, kind_of};
ghost use Rattle.biblatex_content.specs.Views.{members, spans, styled};

use crate::chunk::{Chunk, Chunks};
use biblatex_text::Spanned;
use std::alloc::{AllocError, Global};

/// The same chunks, with the same spans.
pub fn copied(alloc: Global, chunks: &[Spanned<Chunk>]) -> Result<Chunks, AllocError>
    ensures styled { IfOk result (λ cs. styled cs.items ≡ styled chunks.now) }
    ensures spans { IfOk result (λ cs. spans cs.items ≡ spans chunks.now) }
    ensures parted { IfOk result (λ cs. are_parted cs.items ≡ are_parted chunks.now) }
{
    let mut copies = Vec::with_capacity(alloc, chunks.len())?;
    for chunk in chunks {
        let span = chunk.span.start..chunk.span.end;
        copies.push(Spanned::new(copied_chunk(&chunk.v)?, span))?;
    }
    Ok(copies)
}

fn copied_chunk(chunk: &Chunk) -> Result<Chunk, AllocError>
    ensures members { IfOk result (λ c. members c ≡ members chunk.now) }
    ensures kind { IfOk result (λ c. kind_of c ≡ kind_of chunk.now) }
    ensures full { IfOk result (λ c. is_full c ≡ is_full chunk.now) }
{
    match chunk {
        Chunk::Normal(text) => Ok(Chunk::Normal(text.clone()?)),
        Chunk::Verbatim(text) => Ok(Chunk::Verbatim(text.clone()?)),
        Chunk::Math(text) => Ok(Chunk::Math(text.clone()?)),
    }
}
