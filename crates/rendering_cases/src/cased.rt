//! Texts in a case.

ghost use Rattle.std.specs.Prelude.{◌≡◌, ◌++◌, [], true, false, List, map, IfOk, IfSome, OnOk};
ghost use Rattle.std.specs.List.{list_any};
ghost use Rattle.std.specs.Str.{chars};
ghost use Rattle.laws.specs.Text.{characters};
ghost use Rattle.literature_values.specs.TextViews.{Chunk, chunk_view, chunks_view};
ghost use Rattle.rendering_cases.specs.Along.{changed_along, chunk_along, chunks_along, past, value_along};
ghost use Rattle.rendering_cases.specs.Cases as specs;
ghost use Rattle.rendering_cases.specs.Cases.{changed_between, is_for, plain};
ghost use Rattle.rendering_cases.specs.Laws.{changes_first_letters, kept, letter_by_letter};
ghost use Rattle.rendering_cases.specs.Views.{place_view};
ghost use Rattle.rendering_cases.specs.Words.{is_in_capitals, is_letter};

use crate::place::Place;
use crate::word::is_in_capitals;
use literature_values::{ChunkKind, ChunkedString, StringChunk};
use rendering_taxonomy::TextCase;
use std::alloc::{AllocError, Global};
use texts::{empty_text, owned, push_text, split_first};

/// Whether there is a case, and it is for texts of the language; where it is not, texts stay as they are.
#[tactic(auto, using(crate::proofs::Kept::same_text, crate::proofs::Kept::same_chunks))]
pub fn applies(case: Option<TextCase>, is_english: bool) -> bool
    ensures applies { result ≡ specs.applies case is_english }
    ensures text { result ≡ false → (cs : _) → specs.cased_text case is_english cs ≡ cs }
    ensures chunks { result ≡ false
        → (ks : List Chunk) → specs.cased_chunks case is_english ks ≡ ks }
{
    match case {
        Some(wanted) => is_for(wanted, is_english),
        None => false,
    }
}

/// A text in a case, or as it is.
///
/// # Errors
/// Out of memory.
pub fn cased_text(
    alloc: Global,
    text: &str,
    case: Option<TextCase>,
    is_english: bool,
) -> Result<String, AllocError>
    ensures cased { IfOk result (λ s. characters s
        ≡ specs.cased_text case is_english (chars text.now)) }
    ensures by_letters { IfOk result (λ s.
        IfSome (letter_by_letter case (chars text.now)) (λ cs. characters s ≡ cs)) }
    ensures unlettered { IfOk result (λ s. changes_first_letters case ≡ true
        → list_any is_letter (chars text.now) ≡ false → characters s ≡ chars text.now) }
{
    match case {
        Some(wanted) => text_in_case(alloc, text, wanted, is_english),
        None => owned(alloc, text),
    }
}

/// A text in pieces in a case, or as it is. Words may go on from piece to piece; verbatim pieces and formulas stay.
///
/// # Errors
/// Out of memory.
pub fn cased_chunks(
    alloc: Global,
    chunks: &[StringChunk],
    case: Option<TextCase>,
    is_english: bool,
) -> Result<ChunkedString, AllocError>
    ensures cased { IfOk result (λ s. chunks_view s
        ≡ specs.cased_chunks case is_english (map chunk_view chunks.now)) }
    ensures kept { IfOk result (λ s. map kept (chunks_view s)
        ≡ map kept (map chunk_view chunks.now)) }
{
    match case {
        Some(wanted) => chunks_in_case(alloc, chunks, wanted, is_english),
        None => copied(alloc, chunks),
    }
}

/// Whether a case is for texts of the language.
fn is_for(case: TextCase, is_english: bool) -> bool
    ensures { result ≡ is_for case is_english }
{
    match case {
        TextCase::Title => is_english,
        TextCase::Lowercase
        | TextCase::Uppercase
        | TextCase::CapitalizeFirst
        | TextCase::CapitalizeAll
        | TextCase::Sentence => true,
    }
}

/// A text in a case, where that is for the language.
fn text_in_case(
    alloc: Global,
    text: &str,
    case: TextCase,
    is_english: bool,
) -> Result<String, AllocError>
    ensures { IfOk result (λ s. characters s
        ≡ specs.cased_text (Some case) is_english (chars text.now)) }
{
    if is_for(case, is_english) {
        changed_text(alloc, text, case)
    } else {
        owned(alloc, text)
    }
}

/// A text in a case.
fn changed_text(alloc: Global, text: &str, case: TextCase) -> Result<String, AllocError>
    ensures { IfOk result (λ s. characters s
        ≡ changed_between case (is_in_capitals (chars text.now)) [] (chars text.now) []) }
{
    let mut place = Place::new(text);
    changed_value(alloc, text, case, is_in_capitals(text), &mut place)
}

/// A text in pieces in a case, where that is for the language.
fn chunks_in_case(
    alloc: Global,
    chunks: &[StringChunk],
    case: TextCase,
    is_english: bool,
) -> Result<ChunkedString, AllocError>
    ensures { IfOk result (λ s. chunks_view s
        ≡ specs.cased_chunks (Some case) is_english (map chunk_view chunks.now)) }
{
    if is_for(case, is_english) {
        changed_chunks(alloc, chunks, case)
    } else {
        copied(alloc, chunks)
    }
}

/// A text in pieces in a case. The characters of a single piece are not copied to look ahead in them.
fn changed_chunks(
    alloc: Global,
    chunks: &[StringChunk],
    case: TextCase,
) -> Result<ChunkedString, AllocError>
    ensures { IfOk result (λ s. chunks_view s ≡ specs.changed_chunks case
        (is_in_capitals (plain (map chunk_view chunks.now))) [] (map chunk_view chunks.now)) }
{
    match chunks {
        [chunk] => chunks_of(alloc, chunks, case, chunk.value.as_str()),
        _ => joined_chunks(alloc, chunks, case),
    }
}

/// A text in pieces in a case, by a copy of all their characters.
fn joined_chunks(
    alloc: Global,
    chunks: &[StringChunk],
    case: TextCase,
) -> Result<ChunkedString, AllocError>
    ensures { IfOk result (λ s. chunks_view s ≡ specs.changed_chunks case
        (is_in_capitals (plain (map chunk_view chunks.now))) [] (map chunk_view chunks.now)) }
{
    let whole = plain_text(alloc, chunks)?;
    chunks_of(alloc, chunks, case, whole.as_str())
}

/// Pieces in a case, where the text is all of their characters.
fn chunks_of(
    alloc: Global,
    chunks: &[StringChunk],
    case: TextCase,
    text: &str,
) -> Result<ChunkedString, AllocError>
    ensures { chars text.now ≡ plain (map chunk_view chunks.now)
        → IfOk result (λ s. chunks_view s ≡ specs.changed_chunks case
        (is_in_capitals (plain (map chunk_view chunks.now))) [] (map chunk_view chunks.now)) }
{
    let mut place = Place::new(text);
    chunks_along(alloc, chunks, case, is_in_capitals(text), &mut place)
}

/// The characters of pieces.
fn plain_text(alloc: Global, chunks: &[StringChunk]) -> Result<String, AllocError>
    ensures { IfOk result (λ s. characters s ≡ plain (map chunk_view chunks.now)) }
{
    let mut plain = empty_text(alloc);
    for chunk in chunks {
        push_text(&mut plain, chunk.value.as_str())?;
    }
    Ok(plain)
}

/// A copy of pieces.
fn copied(alloc: Global, chunks: &[StringChunk]) -> Result<ChunkedString, AllocError>
    ensures { IfOk result (λ s. chunks_view s ≡ map chunk_view chunks.now) }
{
    let mut copied = Vec::with_capacity(alloc, chunks.len())?;
    for chunk in chunks {
        copied.push(chunk.clone()?)?;
    }
    Ok(ChunkedString(copied))
}

/// Pieces in a case, from a place on.
fn chunks_along(
    alloc: Global,
    chunks: &[StringChunk],
    case: TextCase,
    in_capitals: bool,
    place: &mut Place<'_>,
) -> Result<ChunkedString, AllocError>
    ensures { IfOk result (λ s. chunks_view s ≡ chunks_along case in_capitals
        (place_view place.old) (map chunk_view chunks.now)) }
{
    let mut changed = Vec::with_capacity(alloc, chunks.len())?;
    for chunk in chunks {
        changed.push(chunk_along(alloc, chunk, case, in_capitals, place)?)?;
    }
    Ok(ChunkedString(changed))
}

/// A piece in a case, from a place on, which is moved past it.
fn chunk_along(
    alloc: Global,
    chunk: &StringChunk,
    case: TextCase,
    in_capitals: bool,
    place: &mut Place<'_>,
) -> Result<StringChunk, AllocError>
    ensures chunk { IfOk result (λ k. chunk_view k
        ≡ chunk_along case in_capitals (place_view place.old) (chunk_view chunk.now)) }
    ensures place { OnOk result (place_view place.new
        ≡ past (place_view place.old) (characters chunk.now.value)) }
{
    let text = chunk.value.as_str();
    let value = value_along(alloc, text, chunk.kind, case, in_capitals, place)?;
    Ok(StringChunk {
        value,
        kind: chunk.kind,
    })
}

/// The text of a piece in a case, by its kind, from a place on, which is moved past it.
fn value_along(
    alloc: Global,
    text: &str,
    kind: ChunkKind,
    case: TextCase,
    in_capitals: bool,
    place: &mut Place<'_>,
) -> Result<String, AllocError>
    ensures value { IfOk result (λ s. characters s
        ≡ value_along kind case in_capitals (place_view place.old) (chars text.now)) }
    ensures place { OnOk result (place_view place.new
        ≡ past (place_view place.old) (chars text.now)) }
{
    match kind {
        ChunkKind::Normal => changed_value(alloc, text, case, in_capitals, place),
        ChunkKind::Verbatim | ChunkKind::Math => kept_value(alloc, text, place),
    }
}

/// A text in a case, from a place on, which is moved past it.
fn changed_value(
    alloc: Global,
    text: &str,
    case: TextCase,
    in_capitals: bool,
    place: &mut Place<'_>,
) -> Result<String, AllocError>
    ensures value { IfOk result (λ s. characters s
        ≡ changed_along case in_capitals (place_view place.old) (chars text.now)) }
    ensures place { OnOk result (place_view place.new
        ≡ past (place_view place.old) (chars text.now)) }
{
    let mut changed = empty_text(alloc);
    let mut rest = text;
    while let Some((c, after)) = split_first(rest) {
        place.push_changed(&mut changed, case, in_capitals, c)?;
        place.pass(c);
        rest = after;
    }
    Ok(changed)
}

/// A copy of a text, at a place that is moved past it.
fn kept_value(alloc: Global, text: &str, place: &mut Place<'_>) -> Result<String, AllocError>
    ensures value { IfOk result (λ s. characters s ≡ chars text.now) }
    ensures place { place_view place.new ≡ past (place_view place.old) (chars text.now) }
{
    place.pass_text(text);
    owned(alloc, text)
}
