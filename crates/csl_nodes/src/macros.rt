//! Macros.

ghost use Rattle.std.specs.Prelude.{◌≡◌, map, IfOk, codes, string_bytes};
ghost use Rattle.laws.specs.Text.{text};
ghost use Rattle.rendering_style.specs.Nodes.{group, nodes_of};
ghost use Rattle.rendering_style.specs.Views.{macro_view, node_view};
ghost use Rattle.xml_tree.specs.Views.{element_view};
ghost use Rattle.csl_nodes.specs.Nodes.{plain_group, macro_of};
ghost use Rattle.csl_words.specs.Looking.{text_of};
ghost use Rattle.csl_nodes.specs.Views.{words_view};

use crate::nodes::nodes_inside;
use crate::words::Words;
use csl_words::attribute;
use rendering_style::{Group, Look, Macro, Node};
use std::alloc::{AllocError, Global};
use texts::{empty_text, owned};
use xml_tree::Element;

/// The name of a macro.
fn macro_name(alloc: Global, element: &Element<'_>) -> Result<String, AllocError>
    ensures { IfOk result (λ s. string_bytes s
        ≡ text (text_of (codes "name") (element_view element.now))) }
{
    match attribute("name", element) {
        Some(name) => owned(alloc, name),
        None => Ok(empty_text(alloc)),
    }
}

/// A group for whose look nothing is specified.
fn plain_group(alloc: Global, inside: Vec<Node>) -> Node
    ensures { node_view result ≡ group plain_group (nodes_of (map node_view inside.items)) }
{
    let group = Group {
        delimiter: None,
        look: Look::plain(alloc),
    };
    Node::Group(group, inside)
}

/// A macro by its name. All that it prints stands in one group, so that it prints nothing where it calls variables and none has an answer.
///
/// # Errors
/// Where a request for memory was refused.
pub fn macro_of(alloc: Global, unlisted: &Words, element: &Element<'_>) -> Result<Macro, AllocError>
    ensures { IfOk result (λ m. macro_view m
        ≡ macro_of (words_view unlisted.now) (element_view element.now)) }
{
    let name = macro_name(alloc, element)?;
    let inside = nodes_inside(alloc, unlisted, element)?;
    let nodes = vec![in alloc; plain_group(alloc, inside)]?;
    Ok(Macro { name, nodes })
}
