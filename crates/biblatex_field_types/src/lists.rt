//! Ranges and lists in fields.

ghost use Rattle.std.specs.Prelude.{◌≡◌, ℕ, List, Ok, map};
ghost use Rattle.std.proofs.Common.{ap};
ghost use Rattle.std.specs.declared.ops.Range.{Range as Pages};
ghost use Rattle.biblatex_values.specs.Pages.{reads_range, reads_ranges, writes_range, writes_ranges, ArePages, AreSomePages};
ghost use Rattle.biblatex_values.proofs.PagesAgain.{range_again, ranges_again};
ghost use Rattle.laws.specs.Text.{characters};
ghost use Rattle.biblatex_lists.specs.Laws.{IsReadBack};
ghost use Rattle.biblatex_lists.specs.Writing.{written_texts};
ghost use Rattle.biblatex_lists.proofs.ReadBack.{texts_are_back};
ghost use Rattle.biblatex_field_types.specs.Meaning.{listed};
ghost use Rattle.biblatex_field_types.specs.Views.{reads_texts};

use crate::error::FieldTypeError;
use crate::field_type::{FieldType, at_span};
use biblatex_content::{Chunk, Chunks, Spanned};
use biblatex_dates::TypeErrorKind;
use biblatex_lists::{read_texts, write_texts};
use biblatex_values::{
    ListError, normal_chunks, plain_text, range_text, ranges_text, read_range, read_ranges,
};
use std::alloc::{AllocError, Global};
use std::ops::Range;

/// A number, or two with dashes between. A number alone is the range from it to itself.
impl FieldType for Range<u32> {
    ghost View = { Pages ℕ };

    ghost view = { λ r. r };

    ghost reads = { reads_range };

    ghost writes = { writes_range };

    ghost InClass = { ArePages };

    ghost back = { range_again };

    fn from_chunks(alloc: Global, chunks: &[Spanned<Chunk>]) -> Result<Range<u32>, FieldTypeError> {
        let text = plain_text(alloc, chunks)?;
        at_span(chunks, read_range(text.as_str()))
    }

    fn to_chunks(&self, alloc: Global) -> Result<Chunks, AllocError> {
        normal_chunks(alloc, range_text(alloc, self)?)
    }
}

/// Ranges with commas or ampersands between.
impl FieldType for Vec<Range<u32>> {
    ghost View = { List (Pages ℕ) };

    ghost view = { λ v. v.items };

    ghost reads = { reads_ranges };

    ghost writes = { writes_ranges };

    ghost InClass = { AreSomePages };

    ghost back = { ranges_again };

    fn from_chunks(
        alloc: Global,
        chunks: &[Spanned<Chunk>],
    ) -> Result<Vec<Range<u32>>, FieldTypeError> {
        let text = plain_text(alloc, chunks)?;
        list_at_span(chunks, read_ranges(alloc, text.as_str()))
    }

    fn to_chunks(&self, alloc: Global) -> Result<Chunks, AllocError> {
        normal_chunks(alloc, ranges_text(alloc, self.as_slice())?)
    }
}

/// Texts with the word `and` between. No text is refused; empty parts are left out.
impl FieldType for Vec<String> {
    ghost View = { List (List ℕ) };

    ghost view = { λ v. map characters v.items };

    ghost reads = { reads_texts };

    ghost writes = { written_texts };

    ghost InClass = { IsReadBack };

    ghost back = { λ ts is. ap (λ (us : List (List ℕ)). Ok us) (texts_are_back ts is) };

    fn from_chunks(
        alloc: Global,
        chunks: &[Spanned<Chunk>],
    ) -> Result<Vec<String>, FieldTypeError> {
        Ok(read_texts(alloc, chunks)?)
    }

    fn to_chunks(&self, alloc: Global) -> Result<Chunks, AllocError> {
        write_texts(alloc, self.as_slice())
    }
}

/// The list that was read of chunks, or its fault with their span.
fn list_at_span<T>(
    chunks: &[Spanned<Chunk>],
    read: Result<T, ListError>,
) -> Result<T, FieldTypeError>
    ensures { result ≡ listed chunks.now read }
{
    match read {
        Ok(list) => Ok(list),
        Err(ListError::Memory) => Err(FieldTypeError::Memory),
        Err(ListError::Unreadable) => at_span(chunks, Err(TypeErrorKind::Unreadable)),
    }
}
