//! Copies of what a driver gives.

ghost use Rattle.std.specs.Prelude.{◌≡◌, IfOk, map};
ghost use Rattle.std.specs.Option.{option_map};
ghost use Rattle.rendering_tree.specs.Views.{child_view};
ghost use Rattle.driver.specs.RenderedViews.{held_item_view, item_fields_view, key_view, keys_view, rendered_bibliography_view, rendered_citation_view, rendered_view};

use crate::rendered::{BibliographyItem, Rendered, RenderedBibliography, RenderedCitation};
use rendering_tree::ElemChild;
use std::alloc::AllocError;

impl Rendered {
    /// A copy.
    ///
    /// # Errors
    /// Out of memory.
    pub fn clone(&self) -> Result<Rendered, AllocError>
        ensures rendered { IfOk result (λ r. rendered_view r ≡ rendered_view self.now) }
        ensures keys { IfOk result (λ r. option_map keys_view r.bibliography
            ≡ option_map keys_view self.now.bibliography) }
        ensures effort { IfOk result (λ r. r.effort ≡ self.now.effort) }
    {
        Ok(Rendered {
            bibliography: copied_bibliography(&self.bibliography)?,
            citations: copied_citations(&self.citations)?,
            effort: self.effort,
        })
    }
}

impl RenderedBibliography {
    /// A copy.
    ///
    /// # Errors
    /// Out of memory.
    pub fn clone(&self) -> Result<RenderedBibliography, AllocError>
        ensures bibliography { IfOk result (λ b. rendered_bibliography_view b
            ≡ rendered_bibliography_view self.now) }
        ensures keys { IfOk result (λ b. keys_view b ≡ keys_view self.now) }
    {
        Ok(RenderedBibliography {
            hanging_indent: self.hanging_indent,
            second_field_align: self.second_field_align,
            line_spacing: self.line_spacing,
            entry_spacing: self.entry_spacing,
            items: copied_items(&self.items)?,
        })
    }
}

impl BibliographyItem {
    /// A copy.
    ///
    /// # Errors
    /// Out of memory.
    pub fn clone(&self) -> Result<BibliographyItem, AllocError>
        ensures { IfOk result (λ i. held_item_view i ≡ held_item_view self.now) }
    {
        Ok(BibliographyItem {
            key: self.key.clone()?,
            first_field: copied_field(&self.first_field)?,
            content: self.content.clone()?,
        })
    }
}

impl RenderedCitation {
    /// A copy.
    ///
    /// # Errors
    /// Out of memory.
    pub fn clone(&self) -> Result<RenderedCitation, AllocError>
        ensures { IfOk result (λ c. rendered_citation_view c ≡ rendered_citation_view self.now) }
    {
        Ok(RenderedCitation {
            note_number: self.note_number,
            citation: self.citation.clone()?,
        })
    }
}

/// A copy of a bibliography, where there is one.
fn copied_bibliography(
    bibliography: &Option<RenderedBibliography>,
) -> Result<Option<RenderedBibliography>, AllocError>
    ensures bibliography { IfOk result (λ b. option_map rendered_bibliography_view b
        ≡ option_map rendered_bibliography_view bibliography.now) }
    ensures keys { IfOk result (λ b. option_map keys_view b
        ≡ option_map keys_view bibliography.now) }
{
    match bibliography {
        Some(bibliography) => Ok(Some(bibliography.clone()?)),
        None => Ok(None),
    }
}

/// A copy of a first field, where there is one.
fn copied_field(field: &Option<ElemChild>) -> Result<Option<ElemChild>, AllocError>
    ensures { IfOk result (λ f. option_map child_view f ≡ option_map child_view field.now) }
{
    match field {
        Some(field) => Ok(Some(field.clone()?)),
        None => Ok(None),
    }
}

fn copied_items(items: &Vec<BibliographyItem>) -> Result<Vec<BibliographyItem>, AllocError>
    ensures { IfOk result (λ v. map held_item_view v.items ≡ map held_item_view items.now.items) }
{
    let mut copies = Vec::with_capacity(*items.allocator(), items.len())?;
    for item in items {
        copies.push(item.clone()?)?;
    }
    Ok(copies)
}

fn copied_citations(citations: &Vec<RenderedCitation>) -> Result<Vec<RenderedCitation>, AllocError>
    ensures { IfOk result (λ v. map rendered_citation_view v.items
        ≡ map rendered_citation_view citations.now.items) }
{
    let mut copies = Vec::with_capacity(*citations.allocator(), citations.len())?;
    for citation in citations {
        copies.push(citation.clone()?)?;
    }
    Ok(copies)
}
