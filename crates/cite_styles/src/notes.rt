//! The style of notes.

ghost use Rattle.std.specs.Prelude.{◌≡◌, IfOk, map};
ghost use Rattle.rendering_style.specs.StyleViews.{style_view};
ghost use Rattle.rendering_style.specs.Views.{node_view, branch_view, citation_layout_view, style_parts_view};
ghost use Rattle.cite_styles.specs.Styles.{first_note, later_note, ibid_note, at, repeated, note_cite, note_citation, note};

use crate::layouts::{accepted, sentence, style_of};
use crate::nodes::{grouped, ibid, locator};
use crate::parts::{Part, described};
use rendering_style::{
    ChooseBranch, ChooseTest, Citation, Condition, Layout, Node, Style, StyleParts,
};
use rendering_taxonomy::{ChooseMatch, StyleCategory, StyleClass, TestPosition};
use std::alloc::{AllocError, Global};
use texts::owned;

/// The first note on an entry: who wrote it, what it is, where it appeared and when, and the locator.
#[tactic(auto, unfolding(crate::specs::Styles::first_note), using(crate::proofs::Literals::comma))]
fn first_note(alloc: Global) -> Result<Node, AllocError>
    ensures { IfOk result (λ n. node_view n ≡ first_note) }
{
    let parts = &[
        Part::Authors,
        Part::Title,
        Part::Source,
        Part::Year,
        Part::Locator,
    ];
    described(alloc, ", ", parts)
}

/// A later note on it: the authors, the title, and the locator.
#[tactic(auto, unfolding(crate::specs::Styles::later_note), using(crate::proofs::Literals::comma))]
fn later_note(alloc: Global) -> Result<Node, AllocError>
    ensures { IfOk result (λ n. node_view n ≡ later_note) }
{
    let parts = &[Part::ShortAuthors, Part::Title, Part::Locator];
    described(alloc, ", ", parts)
}

/// A note on the entry of the cite before, with a locator of its own.
#[tactic(auto, unfolding(crate::specs::Styles::ibid_note), using(crate::proofs::Literals::comma))]
fn ibid_note(alloc: Global) -> Result<Node, AllocError>
    ensures { IfOk result (λ n. node_view n ≡ ibid_note) }
{
    let nodes = vec![in alloc; ibid(alloc), locator(alloc)?]?;
    grouped(alloc, ", ", nodes)
}

/// A node for the cites at a position.
fn at(alloc: Global, position: TestPosition, node: Node) -> Result<ChooseBranch, AllocError>
    ensures { IfOk result (λ b. branch_view b ≡ at position (node_view node)) }
{
    let tests = vec![in alloc; ChooseTest::Position(position)]?;
    let children = vec![in alloc; node]?;
    Ok(ChooseBranch {
        condition: Condition {
            required: ChooseMatch::All,
            tests,
        },
        children,
    })
}

/// The notes for cites that are not the first of their entry.
#[tactic(auto, unfolding(crate::specs::Styles::repeated))]
fn repeated(alloc: Global) -> Result<Vec<ChooseBranch>, AllocError>
    ensures { IfOk result (λ v. map branch_view v.items ≡ repeated) }
{
    let mut branches = Vec::new(alloc);
    branches.push(at(alloc, TestPosition::IbidWithLocator, ibid_note(alloc)?)?)?;
    branches.push(at(alloc, TestPosition::Ibid, ibid(alloc))?)?;
    branches.push(at(alloc, TestPosition::Subsequent, later_note(alloc)?)?)?;
    Ok(branches)
}

/// A cite, by where it stands.
#[tactic(auto, unfolding(crate::specs::Styles::note_cite))]
fn cite(alloc: Global) -> Result<Node, AllocError>
    ensures { IfOk result (λ n. node_view n ≡ note_cite) }
{
    let branches = repeated(alloc)?;
    let otherwise = vec![in alloc; first_note(alloc)?]?;
    Ok(Node::Choose(branches, otherwise))
}

/// Cites with a full stop after them.
#[tactic(auto, unfolding(crate::specs::Styles::note_citation), using(crate::proofs::Literals::semicolon))]
fn citation(alloc: Global) -> Result<Citation, AllocError>
    ensures { IfOk result (λ c. citation_layout_view c ≡ note_citation) }
{
    let nodes = vec![in alloc; cite(alloc)?]?;
    let delimiter = owned(alloc, "; ")?;
    Ok(Citation::new(Layout {
        delimiter: Some(delimiter),
        ..sentence(alloc, nodes)?
    }))
}

/// What the style is made of.
#[tactic(auto, unfolding(crate::specs::Styles::note))]
fn parts(alloc: Global) -> Result<StyleParts, AllocError>
    ensures { IfOk result (λ p. style_parts_view p ≡ note) }
{
    let citation = citation(alloc)?;
    style_of(alloc, StyleClass::Note, StyleCategory::Note, citation, None)
}

/// The style of notes: `Kevin Kwan, T, 2014.`, then `ibid., p. 4.` It has no bibliography.
///
/// # Errors
/// Out of memory.
pub fn note(alloc: Global) -> Result<Style, AllocError>
    ensures { IfOk result (λ s. style_view s ≡ note) }
{
    accepted(alloc, parts(alloc)?)
}
