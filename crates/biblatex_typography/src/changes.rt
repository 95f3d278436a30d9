//! The fields that are changed.

ghost use Rattle.std.specs.Prelude.{◌≡◌, ◌++◌, true, IfOk, OnOk};
ghost use Rattle.std.specs.List.{list_any};
ghost use Rattle.biblatex_content.specs.Parted.{are_parted, is_full, kind_of};
ghost use Rattle.biblatex_content.specs.Spans.{chunk_spans};
ghost use Rattle.biblatex_content.specs.Views.{members, styled};
ghost use Rattle.biblatex_fields.specs.Fields.{AreInOrder, AreJoined, named_fields_view};
ghost use Rattle.biblatex_fields.specs.Value.{field_value_view};
ghost use Rattle.biblatex_typography.specs.Typography.{typographic};
ghost use Rattle.biblatex_typography.specs.Changes as specs;
ghost use Rattle.biblatex_typography.specs.Changes.{changed_field, changed_fields, chunk_is_marked, is_marked};

use crate::text::{has_mark, typographic_text};
use biblatex_content::{Chunk, Chunks, is_verbatim_field};
use biblatex_fields::Fields;
use biblatex_text::Spanned;
use std::alloc::{AllocError, Global};
use texts::owned;

/// Whether the chunk has a mark.
#[tactic(auto, using(crate::proofs::Pairs::marked_letters))]
fn chunk_has_mark(chunk: &Chunk) -> bool
    ensures { result ≡ list_any is_marked (members chunk.now) }
{
    match chunk {
        Chunk::Normal(text) | Chunk::Verbatim(text) => has_mark(text.as_str()),
        Chunk::Math(_) => false,
    }
}

/// Whether the chunks have a mark.
fn have_mark(chunks: &[Spanned<Chunk>]) -> bool
    ensures { result ≡ list_any chunk_is_marked chunks.now }
{
    for chunk in chunks {
        if chunk_has_mark(&chunk.v) {
            return true;
        }
    }
    false
}

/// Whether a field is changed.
#[tactic(auto, using(crate::proofs::Chunks::marked_chunks))]
fn is_changed(name: &str, value: &[Spanned<Chunk>]) -> bool
    ensures { result ≡ specs.is_changed (name.now, field_value_view value.now) }
{
    !is_verbatim_field(name) && have_mark(value)
}

/// The chunk as it is printed.
#[tactic(auto, using(crate::proofs::Pairs::text_members, crate::proofs::Pairs::text_full))]
fn typographic_chunk(alloc: Global, chunk: &Chunk) -> Result<Chunk, AllocError>
    ensures members { IfOk result (λ c. members c ≡ typographic (members chunk.now)) }
    ensures kind { IfOk result (λ c. kind_of c ≡ kind_of chunk.now) }
    ensures full { IfOk result (λ c. is_full c ≡ is_full chunk.now) }
{
    match chunk {
        Chunk::Normal(text) => Ok(Chunk::Normal(typographic_text(alloc, text.as_str())?)),
        Chunk::Verbatim(text) => Ok(Chunk::Verbatim(typographic_text(alloc, text.as_str())?)),
        Chunk::Math(text) => Ok(Chunk::Math(text.clone()?)),
    }
}

/// The chunks as they are printed, with the same spans.
fn typographic_chunks(alloc: Global, chunks: &[Spanned<Chunk>]) -> Result<Chunks, AllocError>
    requires { are_parted chunks.now ≡ true }
    ensures styled { IfOk result (λ cs. styled cs.items ≡ typographic (styled chunks.now)) }
    ensures spans { IfOk result (λ cs. chunk_spans cs.items ≡ chunk_spans chunks.now) }
    ensures parted { IfOk result (λ cs. are_parted cs.items ≡ are_parted chunks.now) }
{
    let mut printed = Vec::with_capacity(alloc, chunks.len())?;
    for chunk in chunks {
        let span = chunk.span.start..chunk.span.end;
        printed.push(Spanned::new(typographic_chunk(alloc, &chunk.v)?, span))?;
    }
    Ok(printed)
}

/// Appends a field as it is printed, where that is another one.
fn push_changed(
    alloc: Global,
    name: &str,
    value: &[Spanned<Chunk>],
    changed: &mut Vec<(String, Chunks)>,
) -> Result<(), AllocError>
    requires { are_parted value.now ≡ true }
    ensures { OnOk result (named_fields_view changed.new.items
        ≡ named_fields_view changed.old.items
        ++ changed_field (name.now, field_value_view value.now)) }
{
    if !is_changed(name, value) {
        return Ok(());
    }
    let name = owned(alloc, name)?;
    let value = typographic_chunks(alloc, value)?;
    Ok(changed.push((name, value))?)
}

/// The fields that are changed, as they are printed.
pub(crate) fn changed_fields(
    alloc: Global,
    fields: &Fields,
) -> Result<Vec<(String, Chunks)>, AllocError>
    requires { AreJoined fields.now }
    ensures changed { IfOk result (λ v. named_fields_view v.items ≡ changed_fields fields.now) }
    ensures ordered { AreInOrder fields.now }
{
    let mut changed = Vec::new(alloc);
    for (name, value) in fields.iter() {
        push_changed(alloc, name.as_str(), value.as_slice(), &mut changed)?;
    }
    Ok(changed)
}
