//! The style of plain numbers.

ghost use Rattle.std.specs.Prelude.{◌≡◌, IfOk, map};
ghost use Rattle.rendering_style.specs.StyleViews.{style_view};
ghost use Rattle.rendering_style.specs.Views.{node_view, citation_layout_view, bibliography_layout_view, style_parts_view};
ghost use Rattle.cite_styles.specs.Nodes.{item_number};
ghost use Rattle.cite_styles.specs.Styles.{numeric_cite, numeric_entry, numeric_item, numeric_citation, numeric_bibliography, numeric};

use crate::layouts::{accepted, bracketed, plain_bibliography, sentence, style_of};
use crate::nodes::{citation_number, grouped, item_number, locator};
use crate::parts::{Part, described};
use rendering_style::{Bibliography, Citation, Look, Node, Style, StyleParts};
use rendering_taxonomy::{Collapse, SecondFieldAlign, StyleCategory, StyleClass};
use std::alloc::{AllocError, Global};

/// A cite: the number of its entry, and the locator.
#[tactic(auto, unfolding(crate::specs::Styles::numeric_cite), using(crate::proofs::Literals::comma))]
fn cite(alloc: Global) -> Result<Node, AllocError>
    ensures { IfOk result (λ n. node_view n ≡ numeric_cite) }
{
    let nodes = vec![in alloc; citation_number(Look::plain(alloc)), locator(alloc)?]?;
    grouped(alloc, ", ", nodes)
}

/// An entry: who wrote it, what it is, where it appeared, and when.
#[tactic(auto, unfolding(crate::specs::Styles::numeric_entry), using(crate::proofs::Literals::full_stop_space))]
fn entry(alloc: Global) -> Result<Node, AllocError>
    ensures { IfOk result (λ n. node_view n ≡ numeric_entry) }
{
    let parts = &[Part::Authors, Part::Title, Part::Source, Part::Year];
    described(alloc, ". ", parts)
}

/// An item: its number, and the entry.
#[tactic(auto, unfolding(crate::specs::Styles::numeric_item))]
fn item(alloc: Global) -> Result<Vec<Node>, AllocError>
    ensures { IfOk result (λ v. map node_view v.items ≡ numeric_item) }
{
    Ok(vec![in alloc; item_number(alloc)?, entry(alloc)?]?)
}

/// Cites in square brackets, of which numbers one after the other are collapsed.
#[tactic(auto, unfolding(crate::specs::Styles::numeric_citation), using(crate::proofs::Literals::open_square, crate::proofs::Literals::close_square, crate::proofs::Literals::comma))]
fn citation(alloc: Global) -> Result<Citation, AllocError>
    ensures { IfOk result (λ c. citation_layout_view c ≡ numeric_citation) }
{
    let layout = bracketed(alloc, "[", "]", ", ", cite(alloc)?)?;
    Ok(Citation {
        collapse: Some(Collapse::CitationNumber),
        ..Citation::new(layout)
    })
}

/// Items whose numbers are aligned.
#[tactic(auto, unfolding(crate::specs::Styles::numeric_bibliography))]
fn bibliography(alloc: Global) -> Result<Bibliography, AllocError>
    ensures { IfOk result (λ b. bibliography_layout_view b ≡ numeric_bibliography) }
{
    let layout = sentence(alloc, item(alloc)?)?;
    Ok(Bibliography {
        second_field_align: Some(SecondFieldAlign::Flush),
        ..plain_bibliography(layout)
    })
}

/// What the style is made of.
#[tactic(auto, unfolding(crate::specs::Styles::numeric))]
fn parts(alloc: Global) -> Result<StyleParts, AllocError>
    ensures { IfOk result (λ p. style_parts_view p ≡ numeric) }
{
    let citation = citation(alloc)?;
    let bibliography = bibliography(alloc)?;
    style_of(
        alloc,
        StyleClass::InText,
        StyleCategory::Numeric,
        citation,
        Some(bibliography),
    )
}

/// The style of plain numbers: `[1, p. 3]`, and items `[1] Kevin Kwan. T. 2014.`
///
/// # Errors
/// Out of memory.
pub fn numeric(alloc: Global) -> Result<Style, AllocError>
    ensures { IfOk result (λ s. style_view s ≡ numeric) }
{
    accepted(alloc, parts(alloc)?)
}
