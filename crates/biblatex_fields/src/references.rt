//! Which definitions the pieces of definitions name.

ghost use Rattle.std.specs.Prelude.{◌≡◌, List, map, IfOk};
ghost use Rattle.biblatex_text.specs.Raw.{Field};
ghost use Rattle.biblatex_text.specs.Views.{chunk_view, field_view, piece_view};
ghost use Rattle.reference_graph.specs.References.{lists};
ghost use Rattle.biblatex_fields.specs.Abbreviations.{indices, named, references_of, references, Copied, IsArranged};
ghost use Rattle.biblatex_fields.specs.Views.{IsIndex};

use crate::glossary::lowered;
use biblatex_text::{Pair, RawChunk, Spanned};
use reference_graph::{ReferenceOrder, reference_order};
use std::alloc::{AllocError, Global};
use std::collections::BTreeMap;

/// The index of the definition that the piece names, if there is one.
fn named(
    alloc: Global,
    table: &BTreeMap<String, usize>,
    raw: RawChunk,
) -> Result<Option<usize>, AllocError>
    ensures { (ds : List Field) → IsIndex table.now ds
        → IfOk result (λ index. indices index ≡ named ds (chunk_view raw.entry)) }
{
    match raw {
        RawChunk::Normal(_) => Ok(None),
        RawChunk::Abbreviation(name) => {
            let name = lowered(alloc, name)?;
            Ok(table.get(name.as_str()).copied())
        }
    }
}

/// The indices of the definitions that the pieces name.
fn references_of(
    alloc: Global,
    table: &BTreeMap<String, usize>,
    raws: &[Spanned<RawChunk>],
) -> Result<Vec<usize>, AllocError>
    ensures { (ds : List Field) → IsIndex table.now ds
        → IfOk result (λ v. v.items ≡ references_of ds (map piece_view raws.now)) }
{
    let mut found = Vec::new(alloc);
    for raw in raws.iter() {
        if let Some(index) = named(alloc, table, raw.v)? {
            found.push(index)?;
        }
    }
    Ok(found)
}

/// Of each definition, the indices of the definitions that its pieces name.
pub(crate) fn references(
    alloc: Global,
    table: &BTreeMap<String, usize>,
    definitions: &[Pair],
) -> Result<Vec<Vec<usize>>, AllocError>
    ensures { IsIndex table.now (map field_view definitions.now)
        → IfOk result (λ v. lists v.items ≡ references (map field_view definitions.now)) }
{
    let mut all = Vec::with_capacity(alloc, definitions.len())?;
    for definition in definitions.iter() {
        all.push(references_of(alloc, table, definition.value.v.as_slice())?)?;
    }
    Ok(all)
}

/// Of each number below the count, whether it is circular in the order.
pub(crate) fn circular_in(
    alloc: Global,
    order: &ReferenceOrder,
    count: usize,
) -> Result<Vec<bool>, AllocError>
    ensures { IfOk result (λ flags. Copied flags.items order.now.circular count) }
{
    let mut circular = Vec::with_capacity(alloc, count)?;
    for index in 0..count {
        circular.push(order.is_circular(index))?;
    }
    Ok(circular)
}

/// Which definitions reach themselves through the names in their pieces, and an order of all.
pub(crate) fn order_of(
    alloc: Global,
    table: &BTreeMap<String, usize>,
    definitions: &[Pair],
) -> Result<ReferenceOrder, AllocError>
    ensures { IsIndex table.now (map field_view definitions.now)
        → IfOk result (IsArranged (map field_view definitions.now)) }
{
    let references = references(alloc, table, definitions)?;
    reference_order(alloc, references.as_slice())
}
