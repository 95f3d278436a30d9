//! Styles.

ghost use Rattle.std.specs.Prelude.{◌≡◌, ◌<◌, ℕ, true, Some, None, length, map, slice_get, IfOk, IfSome, MatchResult};
ghost use Rattle.std.specs.Cmp.Rules.{comparing};
ghost use Rattle.std.specs.Option.{option_map};
ghost use Rattle.std.specs.Ordering.{on};
ghost use Rattle.rendering_style.specs.contracts.parts.StylePartsEq.TheImpl.Laws as parts_eq;
ghost use Rattle.reference_graph.specs.References.{IsCircular};
ghost use Rattle.rendering_style.specs.Nodes.{nodes_of};
ghost use Rattle.rendering_style.specs.Opening.{references, style_fits, macro_named, macro_ring, IsAnswer};
ghost use Rattle.rendering_style.specs.Tables.{IsIndex};
ghost use Rattle.rendering_style.specs.Views.{nodes_view, macro_view, style_parts_view, macros_view};
ghost use Rattle.rendering_style.specs.Errors.{refusal_of};

use crate::calls::{references_of, table_of};
use crate::error::StyleError;
use crate::levels::{fits, heights_of};
use crate::node::Node;
use crate::parts::{Macro, StyleParts};
use reference_graph::reference_order;
use std::alloc::Global;
use std::collections::BTreeMap;

/// A style: no macro reaches itself, and no layout and no macro has more than 200 levels of nodes.
#[derive(Debug)]
pub struct Style {
    parts: StyleParts,
    table: BTreeMap<String, usize>,
    ghost indexed: { IsIndex table (macros_view parts) },
    ghost acyclic: { (i : ℕ) → IsCircular (references (macros_view parts)) i → ⊥ },
    ghost shallow: { style_fits (style_parts_view parts) ≡ true },
}

impl Drop for Style {
    fn drop(self) {
        let Style { parts: _, table: _ } = self;
    }
}

impl Style {
    ghost use Rattle.rendering_style.specs.StyleViews.{style_view};

    /// A style of these parts. The cost grows with the parts, whatever their macros open to, and it recurses as deep as their
    /// nodes are nested.
    ///
    /// # Errors
    /// `MacroRing` with the first macro in order that reaches itself, else `TooDeep` where a layout or a macro has more than
    /// 200 nodes one inside the other, macros opened; of equal names the first macro counts. `Memory` where a request for
    /// memory was refused.
    pub fn new(alloc: Global, parts: StyleParts) -> Result<Style, StyleError>
        ensures style { IfOk result (λ s. style_view s ≡ style_parts_view parts) }
        ensures answer { MatchResult result (λ _. IsAnswer (style_parts_view parts) None) (λ e.
            IfSome (refusal_of e) (λ r. IsAnswer (style_parts_view parts) (Some r))) }
    {
        match checked(alloc, &parts) {
            Ok(table) => Ok(Style { parts, table }),
            Err(fault) => {
                drop(parts);
                Err(fault)
            }
        }
    }

    /// What the style is made of.
    pub fn parts(&self) -> &StyleParts
        ensures style { style_parts_view result.now ≡ style_view self.now }
        ensures taken { IsAnswer (style_view self.now) None }
    {
        let _facts = &self.table;
        &self.parts
    }

    /// The nodes of the first macro of that name.
    pub fn macro_named(&self, name: &str) -> Option<&[Node]>
        ensures { option_map (λ xs. nodes_view xs.now) result
            ≡ macro_named (style_view self.now).macros name.now }
    {
        match self.table.get(name) {
            Some(index) => nodes_at(&self.parts.macros, *index),
            None => None,
        }
    }
}

/// Styles are equal where their parts are.
impl PartialEq for Style {
    ghost eq = { on (λ s. s.parts) ⟦<StyleParts as PartialEq>⟧.eq };

    ghost laws = { Prim.search (comparing, parts_eq.laws-law) depth 10 };

    fn eq(&self, other: &Style) -> bool {
        self.parts == other.parts
    }
}

impl Eq for Style {
    ghost laws = { Prim.search (comparing, parts_eq.laws-law) depth 10 };
}

fn nodes_at(macros: &[Macro], index: usize) -> Option<&[Node]>
    ensures { option_map (λ xs. nodes_view xs.now) result
        ≡ option_map (λ m. nodes_of m.nodes) (slice_get (map macro_view macros.now) index) }
{
    match macros.get(index) {
        Some(found) => Some(found.nodes.as_slice()),
        None => None,
    }
}

/// The index of each macro by its name, unless a style of these parts is refused.
fn checked(alloc: Global, parts: &StyleParts) -> Result<BTreeMap<String, usize>, StyleError>
    ensures table { IfOk result (λ table. IsIndex table (macros_view parts.now)) }
    ensures answer { MatchResult result (λ _. IsAnswer (style_parts_view parts.now) None) (λ e.
        IfSome (refusal_of e) (λ r. IsAnswer (style_parts_view parts.now) (Some r))) }
{
    let table = table_of(alloc, &parts.macros)?;
    let references = references_of(alloc, &table, &parts.macros)?;
    let order = reference_order(alloc, &references)?;
    if let Some(index) = order.first_circular() {
        return Err(ring_at(&parts.macros, index));
    }
    let heights = heights_of(alloc, &parts.macros, &table, order.order())?;
    if !fits(parts, &table, &heights) {
        return Err(StyleError::TooDeep);
    }
    Ok(table)
}

/// The refusal for a ring that begins with the macro at the index.
fn ring_at(macros: &[Macro], index: usize) -> StyleError
    requires { index < length macros.now }
    ensures { IfSome (refusal_of result) (λ r. option_map (λ m. macro_ring m.name)
        (slice_get (map macro_view macros.now) index) ≡ Some r) }
{
    match macros[index].name.clone() {
        Ok(name) => StyleError::MacroRing(name),
        Err(_) => StyleError::Memory,
    }
}
