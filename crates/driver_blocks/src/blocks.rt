//! The blocks of a citation.

ghost use Rattle.std.specs.Prelude.{◌≡◌, ◌<◌, ◌∷◌, ◌++◌, ℕ, All, List, [], Some, false, IfOk, OnOk, bytes_eq, find, if◌then◌else◌, length, map, slice_index_or, string_bytes};
ghost use Rattle.std.specs.Option.{option_map};
ghost use Rattle.rendering_style.specs.Views.{citation_layout_view};
ghost use Rattle.driver_blocks.specs.Blocks.{blocks, gathered, gathers, is_of_block};
ghost use Rattle.driver_blocks.specs.Indexed.{IsIndex, key_of_names, under};
ghost use Rattle.driver_blocks.specs.Views.{blocks_view, first_taking, gathered_view, put_in, takes};

use crate::cite::Gathered;
use crate::key::names_key;
use rendering_style::Citation;
use rendering_tree::are_equal_elements;
use std::alloc::{AllocError, Global};
use std::collections::BTreeMap;

/// The blocks of a citation: the cites that go together, or each cite by itself where they are not gathered or it has no names.
pub(crate) fn blocks_of<'a>(
    alloc: Global,
    style: &Citation,
    cites: &[Gathered<'a>],
) -> Result<Vec<Vec<Gathered<'a>>>, AllocError>
    ensures { IfOk result (λ v. blocks_view v.items
        ≡ blocks (citation_layout_view style.now) (map gathered_view cites.now)) }
{
    if gathers(style) {
        gather(alloc, style.gathers_by_text, cites)
    } else {
        each_alone(alloc, cites)
    }
}

/// Whether the cites of a style are gathered.
fn gathers(style: &Citation) -> bool
    ensures { result ≡ gathers (citation_layout_view style.now) }
{
    style.cite_group_delimiter.is_some()
        || (style.collapse.is_some() && style.layout.delimiter.is_some())
}

/// Each cite by itself.
fn each_alone<'a>(
    alloc: Global,
    cites: &[Gathered<'a>],
) -> Result<Vec<Vec<Gathered<'a>>>, AllocError>
    ensures { IfOk result (λ v. blocks_view v.items
        ≡ map (λ x. x ∷ []) (map gathered_view cites.now)) }
{
    let mut blocks = Vec::with_capacity(alloc, cites.len())?;
    for cite in cites {
        blocks.push(alone(alloc, *cite)?)?;
    }
    Ok(blocks)
}

/// A cite by itself.
fn alone<'a>(alloc: Global, cite: Gathered<'a>) -> Result<Vec<Gathered<'a>>, AllocError>
    ensures { IfOk result (λ v. v.items ≡ cite.entry ∷ []) }
{
    let mut block = Vec::new(alloc);
    block.push(cite)?;
    Ok(block)
}

/// Cites gathered in order, those that go together at the first of them: those of the same names, or, where cites are gathered by the
/// text, those whose names print the same people alike. A cite is compared with those blocks alone whose names print the same text and
/// name the same people, and by the text with none.
fn gather<'a>(
    alloc: Global,
    by_text: bool,
    cites: &[Gathered<'a>],
) -> Result<Vec<Vec<Gathered<'a>>>, AllocError>
    ensures { IfOk result (λ v. blocks_view v.items
        ≡ gathered (is_of_block by_text) (map gathered_view cites.now)) }
{
    let mut table = BTreeMap::new(alloc);
    let mut blocks = Vec::new(alloc);
    for cite in cites {
        put(alloc, by_text, *cite, &mut table, &mut blocks)?;
    }
    Ok(blocks)
}

/// Puts a cite into the block of its names, or else after all blocks.
fn put<'a>(
    alloc: Global,
    by_text: bool,
    cite: Gathered<'a>,
    table: &mut BTreeMap<String, Vec<usize>>,
    blocks: &mut Vec<Vec<Gathered<'a>>>,
) -> Result<(), AllocError>
    requires { IsIndex by_text table.old (blocks_view blocks.old.items) }
    ensures blocks { OnOk result (blocks_view blocks.new.items
        ≡ put_in (is_of_block by_text) (gathered_view cite.entry) (blocks_view blocks.old.items)) }
    ensures table { OnOk result (IsIndex by_text table.new (blocks_view blocks.new.items)) }
{
    match key_of_names(alloc, by_text, &cite)? {
        Some(key) => put_named(alloc, by_text, cite, key, table, blocks),
        None => put_alone(alloc, cite, blocks),
    }
}

/// Puts a cite with this key into the block of its names, or else after all blocks.
fn put_named<'a>(
    alloc: Global,
    by_text: bool,
    cite: Gathered<'a>,
    key: String,
    table: &mut BTreeMap<String, Vec<usize>>,
    blocks: &mut Vec<Vec<Gathered<'a>>>,
) -> Result<(), AllocError>
    requires table { IsIndex by_text table.old (blocks_view blocks.old.items) }
    requires key { key_of_names by_text (gathered_view cite) ≡ Some (string_bytes key) }
    ensures blocks { OnOk result (blocks_view blocks.new.items
        ≡ put_in (is_of_block by_text) (gathered_view cite.entry) (blocks_view blocks.old.items)) }
    ensures table { OnOk result (IsIndex by_text table.new (blocks_view blocks.new.items)) }
{
    match block_taking(by_text, table, key.as_str(), blocks, &cite) {
        Some(index) => blocks[index].push(cite)?,
        None => {
            add(table, key, blocks.len())?;
            put_alone(alloc, cite, blocks)?;
        }
    }
    Ok(())
}

/// Puts a cite after all blocks.
fn put_alone<'a>(
    alloc: Global,
    cite: Gathered<'a>,
    blocks: &mut Vec<Vec<Gathered<'a>>>,
) -> Result<(), AllocError>
    ensures { OnOk result (blocks_view blocks.new.items
        ≡ blocks_view blocks.old.items ++ (gathered_view cite.entry ∷ []) ∷ []) }
{
    blocks.push(alone(alloc, cite)?)?;
    Ok(())
}

/// The key of the names of a cite, if it prints names.
fn key_of_names(alloc: Global, by_text: bool, cite: &Gathered) -> Result<Option<String>, AllocError>
    ensures { IfOk result (λ t. option_map string_bytes t
        ≡ key_of_names by_text (gathered_view cite.now)) }
{
    match cite.names {
        Some(names) => Ok(Some(names_key(alloc, by_text, names)?)),
        None => Ok(None),
    }
}

/// Adds the index of a block to those under the key of its names.
fn add(
    table: &mut BTreeMap<String, Vec<usize>>,
    key: String,
    index: usize,
) -> Result<(), AllocError>
    ensures { OnOk result ((q : List ℕ) → under table.new q
        ≡ under table.old q ++ (if bytes_eq q (string_bytes key) then index ∷ [] else [])) }
{
    table.entry(key)?.or_default().push(index)?;
    Ok(())
}

/// The index of the first block that takes a cite with this key.
fn block_taking(
    by_text: bool,
    table: &BTreeMap<String, Vec<usize>>,
    key: &str,
    blocks: &[Vec<Gathered>],
    cite: &Gathered,
) -> Option<usize>
    requires table { IsIndex by_text table.now (blocks_view blocks.now) }
    requires key { key_of_names by_text (gathered_view cite.now) ≡ Some key.now }
    ensures { result
        ≡ first_taking (is_of_block by_text) (gathered_view cite.now) 0 (blocks_view blocks.now) }
{
    match table.get(key) {
        Some(indices) => {
            if by_text {
                indices.first().copied()
            } else {
                taking_among(indices, blocks, cite)
            }
        }
        None => None,
    }
}

/// The first of these indices whose block takes a cite by whom their names name.
fn taking_among(indices: &[usize], blocks: &[Vec<Gathered>], cite: &Gathered) -> Option<usize>
    requires { All (λ p. p < length blocks.now) indices.now }
    ensures { result ≡ find (λ p. takes (is_of_block false)
        (slice_index_or (blocks_view blocks.now) p []) (gathered_view cite.now)) indices.now }
{
    for index in indices {
        if takes(&blocks[*index], cite) {
            return Some(*index);
        }
    }
    None
}

/// Whether a cite has the same names as the first one of a block.
fn takes(block: &[Gathered], cite: &Gathered) -> bool
    ensures { result
        ≡ takes (is_of_block false) (map gathered_view block.now) (gathered_view cite.now) }
{
    match block.first() {
        Some(first) => have_same_names(first, cite),
        None => false,
    }
}

/// Whether two cites have the same names.
fn have_same_names(first: &Gathered, cite: &Gathered) -> bool
    ensures { result ≡ is_of_block false (gathered_view first.now) (gathered_view cite.now) }
{
    match (first.names, cite.names) {
        (Some(names), Some(own)) => are_equal_elements(names, own),
        _ => false,
    }
}
