//! The parts that an entry is described by.

ghost use Rattle.std.specs.Prelude.{◌≡◌, IfOk, map};
ghost use Rattle.std.specs.Str.{chars};
ghost use Rattle.rendering_style.specs.Views.{node_view};
ghost use Rattle.cite_styles.specs.Nodes.{grouped};
ghost use Rattle.cite_styles.specs.Parts.{part_node};

use crate::nodes::{grouped, locator, source, title, year};
use crate::people::{authors, short_authors};
use rendering_style::Node;
use std::alloc::{AllocError, Global};

/// A part that an entry is described by.
#[derive(Clone, Copy, Debug)]
pub(crate) enum Part {
    Authors,
    ShortAuthors,
    Title,
    Source,
    Year,
    Locator,
}

fn part_node(alloc: Global, part: Part) -> Result<Node, AllocError>
    ensures { IfOk result (λ n. node_view n ≡ part_node part) }
{
    match part {
        Part::Authors => authors(alloc),
        Part::ShortAuthors => short_authors(alloc),
        Part::Title => Ok(title(alloc)),
        Part::Source => source(alloc),
        Part::Year => year(alloc),
        Part::Locator => locator(alloc),
    }
}

fn part_nodes(alloc: Global, parts: &[Part]) -> Result<Vec<Node>, AllocError>
    ensures { IfOk result (λ v. map node_view v.items ≡ map part_node parts.now) }
{
    let mut nodes = Vec::new(alloc);
    for part in parts {
        nodes.push(part_node(alloc, *part)?)?;
    }
    Ok(nodes)
}

/// A group of the parts with a text between them.
pub(crate) fn described(alloc: Global, delimiter: &str, parts: &[Part]) -> Result<Node, AllocError>
    ensures { IfOk result (λ n. node_view n
        ≡ grouped (chars delimiter.now) (map part_node parts.now)) }
{
    grouped(alloc, delimiter, part_nodes(alloc, parts)?)
}
