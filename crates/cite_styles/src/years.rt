//! The style of authors and years.

ghost use Rattle.std.specs.Prelude.{◌≡◌, IfOk, map};
ghost use Rattle.rendering_style.specs.StyleViews.{style_view};
ghost use Rattle.rendering_style.specs.Views.{node_view, citation_layout_view, bibliography_layout_view, style_parts_view};
ghost use Rattle.cite_styles.specs.Styles.{author_year, author_date_cite, author_date_item, author_date_citation, author_date_bibliography, author_date};

use crate::layouts::{accepted, bracketed, plain_bibliography, sentence, style_of};
use crate::nodes::{grouped, locator};
use crate::parts::{Part, described};
use rendering_style::{Bibliography, Citation, Node, Style, StyleParts};
use rendering_taxonomy::{StyleCategory, StyleClass};
use std::alloc::{AllocError, Global};

#[tactic(auto, unfolding(crate::specs::Styles::author_year), using(crate::proofs::Literals::space))]
fn author_year(alloc: Global) -> Result<Node, AllocError>
    ensures { IfOk result (λ n. node_view n ≡ author_year) }
{
    described(alloc, " ", &[Part::ShortAuthors, Part::Year])
}

/// A cite: the authors, the year, and the locator.
#[tactic(auto, unfolding(crate::specs::Styles::author_date_cite), using(crate::proofs::Literals::comma))]
fn cite(alloc: Global) -> Result<Node, AllocError>
    ensures { IfOk result (λ n. node_view n ≡ author_date_cite) }
{
    let nodes = vec![in alloc; author_year(alloc)?, locator(alloc)?]?;
    grouped(alloc, ", ", nodes)
}

/// An item: who wrote it, when, what it is, and where it appeared.
#[tactic(auto, unfolding(crate::specs::Styles::author_date_item), using(crate::proofs::Literals::full_stop_space))]
fn item(alloc: Global) -> Result<Node, AllocError>
    ensures { IfOk result (λ n. node_view n ≡ author_date_item) }
{
    let parts = &[Part::Authors, Part::Year, Part::Title, Part::Source];
    described(alloc, ". ", parts)
}

/// Cites in round brackets. Names, given names and year suffixes disambiguate like ones.
#[tactic(auto, unfolding(crate::specs::Styles::author_date_citation), using(crate::proofs::Literals::open_round, crate::proofs::Literals::close_round, crate::proofs::Literals::semicolon))]
fn citation(alloc: Global) -> Result<Citation, AllocError>
    ensures { IfOk result (λ c. citation_layout_view c ≡ author_date_citation) }
{
    let layout = bracketed(alloc, "(", ")", "; ", cite(alloc)?)?;
    Ok(Citation {
        add_names: true,
        add_givenname: true,
        add_year_suffix: true,
        ..Citation::new(layout)
    })
}

/// Items.
#[tactic(auto, unfolding(crate::specs::Styles::author_date_bibliography))]
fn bibliography(alloc: Global) -> Result<Bibliography, AllocError>
    ensures { IfOk result (λ b. bibliography_layout_view b ≡ author_date_bibliography) }
{
    let nodes = vec![in alloc; item(alloc)?]?;
    Ok(plain_bibliography(sentence(alloc, nodes)?))
}

/// What the style is made of.
#[tactic(auto, unfolding(crate::specs::Styles::author_date))]
fn parts(alloc: Global) -> Result<StyleParts, AllocError>
    ensures { IfOk result (λ p. style_parts_view p ≡ author_date) }
{
    let citation = citation(alloc)?;
    let bibliography = bibliography(alloc)?;
    style_of(
        alloc,
        StyleClass::InText,
        StyleCategory::AuthorDate,
        citation,
        Some(bibliography),
    )
}

/// The style of authors and years: `(Kwan 2014, p. 3)`, and items `Kevin Kwan. 2014. T.`
///
/// # Errors
/// Out of memory.
pub fn author_date(alloc: Global) -> Result<Style, AllocError>
    ensures { IfOk result (λ s. style_view s ≡ author_date) }
{
    accepted(alloc, parts(alloc)?)
}
