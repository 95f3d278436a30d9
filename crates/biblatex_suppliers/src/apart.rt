//! Taking long values out of an entry whose fields are written as one abbreviation alone, so that a value is held once for all fields that
//! are written so. Whether a value is the known one is seen by comparing the two.

ghost use Rattle.std.specs.Prelude.{◌≡◌, IfOk, IfSome, OnOk, Some, false, string_bytes, true};
ghost use Rattle.biblatex_fields.specs.Fields.{value_named};
ghost use Rattle.biblatex_fields.specs.Value.{field_value_view};
ghost use Rattle.biblatex_entries.specs.Entries.{Source, source_view};
ghost use Rattle.biblatex_suppliers.specs.Written.{is_said, IsSetAside};

use crate::shared::Shared;
use biblatex_content::{Chunk, Chunks, Spanned, is_verbatim_field};
use biblatex_entries::Entry;
use biblatex_inherited_fields::copied_value;
use biblatex_text::{Pair, RawChunk, RawEntry};
use std::alloc::{AllocError, Global};
use std::collections::BTreeMap;
use std::rc::Rc;

/// The values that are held for all fields that have them. Of each abbreviation, by its name in lower case, there is one for ordinary
/// fields, and one for verbatim fields, under the name with a brace after it.
pub type Known = BTreeMap<String, Rc<Chunks>>;

/// Takes the values out of an entry that are long and written as one abbreviation alone, and gives them as the fields beside it. The names
/// of entries stay in it.
///
/// # Errors
/// Out of memory.
pub fn set_aside(
    alloc: Global,
    known: &mut Known,
    raw: &RawEntry,
    entry: &mut Entry,
) -> Result<Vec<Shared>, AllocError>
    ensures { IfOk result (λ v.
        IsSetAside (source_view entry.old) (source_view entry.new) v.items) }
{
    let mut shared = Vec::new(alloc);
    for pair in raw.fields.iter() {
        set_pair_aside(alloc, known, pair, entry, &mut shared)?;
    }
    Ok(shared)
}

/// Takes the value of one field out of an entry, if it is long and written as one abbreviation alone.
fn set_pair_aside(
    alloc: Global,
    known: &mut Known,
    pair: &Pair,
    entry: &mut Entry,
    shared: &mut Vec<Shared>,
) -> Result<(), AllocError>
    ensures { OnOk result ((e : Source)
        → IsSetAside e (source_view entry.old) shared.old.items
        → IsSetAside e (source_view entry.new) shared.new.items) }
{
    match abbreviation_alone(pair) {
        Some(abbreviation) => {
            set_field_aside(alloc, known, abbreviation, pair.key.v, entry, shared)
        }
        None => Ok(()),
    }
}

/// The name of the abbreviation that a value is, if it is one alone.
fn abbreviation_alone<'s>(pair: &Pair<'s>) -> Option<&'s str> {
    match pair.value.v.as_slice() {
        [piece] => abbreviation_of(piece),
        _ => None,
    }
}

/// The name of the abbreviation that a piece is, if it is one.
fn abbreviation_of<'s>(piece: &Spanned<RawChunk<'s>>) -> Option<&'s str> {
    match piece.v {
        RawChunk::Abbreviation(name) => Some(name),
        RawChunk::Normal(_) => None,
    }
}

/// Takes the value of the field of a name, as it is written, out of an entry, if it is long.
fn set_field_aside(
    alloc: Global,
    known: &mut Known,
    abbreviation: &str,
    written_name: &str,
    entry: &mut Entry,
    shared: &mut Vec<Shared>,
) -> Result<(), AllocError>
    ensures { OnOk result ((e : Source)
        → IsSetAside e (source_view entry.old) shared.old.items
        → IsSetAside e (source_view entry.new) shared.new.items) }
{
    let name = written_name.to_ascii_lowercase(alloc)?;
    if is_said(name.as_str()) {
        return Ok(());
    }
    let held = held_value(alloc, known, abbreviation, entry, name.as_str())?;
    match held {
        Some(value) => put_beside(name, value, entry, shared),
        None => Ok(()),
    }
}

/// Whether a field of this name says how its entry is called, or to which others it refers.
fn is_said(name: &str) -> bool
    ensures { result ≡ is_said name.now }
{
    name == "ids" || name == "crossref" || name == "xdata"
}

/// Puts a field beside its entry, with this value, which is the one that it has.
fn put_beside(
    name: String,
    value: Rc<Chunks>,
    entry: &mut Entry,
    shared: &mut Vec<Shared>,
) -> Result<(), AllocError>
    requires said { is_said (string_bytes name) ≡ false }
    requires value { value_named (string_bytes name) entry.old.fields
        ≡ Some (field_value_view value.value.items) }
    ensures { OnOk result ((e : Source)
        → IsSetAside e (source_view entry.old) shared.old.items
        → IsSetAside e (source_view entry.new) shared.new.items) }
{
    // The names of the fields stand in order.
    let _ = entry.fields.iter();
    entry.remove(name.as_str());
    shared.push(Shared { name, value })?;
    Ok(())
}

/// The value of the field of that name, held for all fields of that abbreviation, if there is one and it is long.
fn held_value(
    alloc: Global,
    known: &mut Known,
    abbreviation: &str,
    entry: &Entry,
    name: &str,
) -> Result<Option<Rc<Chunks>>, AllocError>
    ensures { IfOk result (λ o. IfSome o (λ r.
        value_named name.now entry.now.fields ≡ Some (field_value_view r.value.items))) }
{
    match entry.get(name) {
        Some(value) => long_value(alloc, known, abbreviation, is_verbatim_field(name), value),
        None => Ok(None),
    }
}

/// The value, held for all fields of that abbreviation, if it is long.
fn long_value(
    alloc: Global,
    known: &mut Known,
    abbreviation: &str,
    is_verbatim: bool,
    value: &Chunks,
) -> Result<Option<Rc<Chunks>>, AllocError>
    ensures { IfOk result (λ o. IfSome o (λ r.
        field_value_view value.now.items ≡ field_value_view r.value.items)) }
{
    if !is_long(value.as_slice()) {
        return Ok(None);
    }
    let name = known_name(alloc, abbreviation, is_verbatim)?;
    let same = known_value(known, name.as_str(), value)?;
    match same {
        Some(held) => Ok(Some(held)),
        None => Ok(Some(learned(alloc, known, name, value)?)),
    }
}

/// Whether a value takes so much memory that it is held once: it has more than two chunks, or one of more than a hundred bytes.
fn is_long(value: &[Spanned<Chunk>]) -> bool {
    match value {
        [] => false,
        [chunk] => is_long_chunk(&chunk.v),
        [chunk, other] => is_long_chunk(&chunk.v) || is_long_chunk(&other.v),
        _ => true,
    }
}

/// Whether a chunk has more than a hundred bytes.
fn is_long_chunk(chunk: &Chunk) -> bool {
    chunk.get().len() > 100
}

/// The name under which the value of an abbreviation is known in fields of that kind.
fn known_name(alloc: Global, abbreviation: &str, is_verbatim: bool) -> Result<String, AllocError> {
    let mut name = abbreviation.to_ascii_lowercase(alloc)?;
    if is_verbatim {
        name.push('{')?;
    }
    Ok(name)
}

/// The value that is known under a name, if it is this one.
fn known_value(known: &Known, name: &str, value: &Chunks) -> Result<Option<Rc<Chunks>>, AllocError>
    ensures { IfOk result (λ o. IfSome o (λ r.
        field_value_view value.now.items ≡ field_value_view r.value.items)) }
{
    match known.get(name) {
        Some(held) => if_same(held, value),
        None => Ok(None),
    }
}

/// The value that is held, if it is this one.
fn if_same(held: &Rc<Chunks>, value: &Chunks) -> Result<Option<Rc<Chunks>>, AllocError>
    ensures { IfOk result (λ o. IfSome o (λ r.
        field_value_view value.now.items ≡ field_value_view r.value.items)) }
{
    if !are_same(value.as_slice(), held.as_ref().as_slice()) {
        return Ok(None);
    }
    Ok(Some(held.clone()?))
}

/// Whether chunks are the same, and stand where the others do.
fn are_same(some: &[Spanned<Chunk>], others: &[Spanned<Chunk>]) -> bool
    ensures { result ≡ true → field_value_view some.now ≡ field_value_view others.now }
{
    some == others
}

/// A copy of the value, which is known under that name from now on.
fn learned(
    alloc: Global,
    known: &mut Known,
    name: String,
    value: &Chunks,
) -> Result<Rc<Chunks>, AllocError>
    ensures { IfOk result (λ r.
        field_value_view value.now.items ≡ field_value_view r.value.items) }
{
    let held = Rc::new(alloc, copied_value(alloc, value)?)?;
    known.insert(name, held.clone()?)?;
    Ok(held)
}
