//! The contents of an entry's fields, by the names under which they are written.

ghost use Rattle.std.specs.Prelude.{◌≡◌, [], List, IfOk};
ghost use Rattle.std.specs.Option.{option_map, option_or};
ghost use Rattle.laws.specs.Text.{text as text_of, characters, is_filled};
ghost use Rattle.biblatex_content.specs.Views.{styled, members};
ghost use Rattle.biblatex_fields.specs.Fields.{text_named};
ghost use Rattle.biblatex_fields.specs.Value.{field_value_view};
ghost use Rattle.interop_values.specs.Values.{filled, by_other_name, values, text_under};

use biblatex_content::{Chunk, Chunks, Spanned};
use biblatex_fields::Fields;
use biblatex_values::plain_text;
use biblatex_writing::{is_never_written, other_name};
use std::alloc::{AllocError, Global};
use texts::{empty_text, has_text};

/// The content under a written name. Of two fields that are written as one, the one that was read under that name counts; an
/// empty one is absent.
#[inline(always)]
pub fn value<'f>(fields: &'f Fields, name: &str) -> Option<&'f [Spanned<Chunk>]>
    ensures { option_map (λ v. styled v.now) result ≡ values fields.now name.now }
{
    let value = by_either_name(fields, name)?;
    if is_never_written(name) {
        return None;
    }
    Some(value)
}

/// The content of a field by its name, else by its other name.
#[inline(always)]
fn by_either_name<'f>(fields: &'f Fields, name: &str) -> Option<&'f [Spanned<Chunk>]>
    ensures { option_map (λ v. styled v.now) result
        ≡ option_or (filled (text_named name.now fields.now)) (by_other_name name.now fields.now) }
{
    match by_name(fields, name) {
        Some(value) => Some(value),
        None => by_other_name(fields, name),
    }
}

/// The content of a field by its name.
#[inline(never)]
fn by_name<'f>(fields: &'f Fields, name: &str) -> Option<&'f [Spanned<Chunk>]>
    ensures { option_map (λ v. styled v.now) result ≡ filled (text_named name.now fields.now) }
{
    filled(fields.get(name))
}

/// The characters under a written name; none where nothing stands there.
#[inline(always)]
pub fn text(alloc: Global, fields: &Fields, name: &str) -> Result<String, AllocError>
    ensures { IfOk result (λ s. characters s ≡ text_under name.now (values fields.now)) }
{
    match value(fields, name) {
        Some(value) => plain_text(alloc, value),
        None => Ok(empty_text(alloc)),
    }
}

/// The content of a field by its other name, where it has one.
#[inline(always)]
fn by_other_name<'f>(fields: &'f Fields, name: &str) -> Option<&'f [Spanned<Chunk>]>
    ensures { option_map (λ v. styled v.now) result ≡ by_other_name name.now fields.now }
{
    let other = other_name(name)?;
    by_name(fields, other)
}

/// The content, unless it is empty.
fn filled(value: Option<&Chunks>) -> Option<&[Spanned<Chunk>]>
    ensures { option_map (λ v. styled v.now) result ≡ filled
        (option_map (λ v. v.text) (option_map (λ v. field_value_view v.now.items) value.entry)) }
{
    match value {
        Some(value) if has_members(value.as_slice()) => Some(value.as_slice()),
        _ => None,
    }
}

/// Whether chunks spell anything.
#[tactic(auto, using(crate::proofs::ValuesMembers::some_before, crate::proofs::ValuesMembers::none_before))]
fn has_members(value: &[Spanned<Chunk>]) -> bool
    ensures { result ≡ is_filled (styled value.now) }
{
    for chunk in value {
        if is_filled(&chunk.v) {
            return true;
        }
    }
    false
}

/// Whether a chunk spells anything. A formula does, even an empty one.
fn is_filled(chunk: &Chunk) -> bool
    ensures { result ≡ is_filled (members chunk.now) }
{
    match chunk {
        Chunk::Normal(text) | Chunk::Verbatim(text) => has_text(text.as_str()),
        Chunk::Math(_) => true,
    }
}
