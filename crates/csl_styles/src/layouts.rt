//! Layouts.

ghost use Rattle.std.specs.Prelude.{◌≡◌, IfOk};
ghost use Rattle.xml_tree.specs.Views.{element_view};
ghost use Rattle.rendering_style.specs.Views.{layout_view};
ghost use Rattle.csl_nodes.specs.Views.{words_view};
ghost use Rattle.csl_styles.specs.Layouts.{layout, empty_layout, layout_in};

use csl_nodes::{Words, formatting, nodes_inside};
use csl_words::{part_called, printed};
use rendering_style::Layout;
use rendering_taxonomy::FormattingChanges;
use std::alloc::{AllocError, Global};
use xml_tree::Element;

/// A layout.
fn layout(alloc: Global, words: &Words, element: &Element<'_>) -> Result<Layout, AllocError>
    ensures { IfOk result (λ l. layout_view l
        ≡ layout (words_view words.now) (element_view element.now)) }
{
    let prefix = printed(alloc, "prefix", element)?;
    let suffix = printed(alloc, "suffix", element)?;
    let delimiter = printed(alloc, "delimiter", element)?;
    let nodes = nodes_inside(alloc, words, element)?;
    Ok(Layout {
        nodes,
        formatting: formatting(element),
        prefix,
        suffix,
        delimiter,
    })
}

/// A layout that prints nothing.
pub(crate) fn empty_layout(alloc: Global) -> Layout
    ensures { layout_view result ≡ empty_layout }
{
    Layout {
        nodes: Vec::new(alloc),
        formatting: FormattingChanges::default(),
        prefix: None,
        suffix: None,
        delimiter: None,
    }
}

/// The layout of a citation or of a bibliography.
pub(crate) fn layout_in(
    alloc: Global,
    words: &Words,
    element: &Element<'_>,
) -> Result<Layout, AllocError>
    ensures { IfOk result (λ l. layout_view l
        ≡ layout_in (words_view words.now) (element_view element.now)) }
{
    match part_called("layout", element) {
        Some(part) => layout(alloc, words, part),
        None => Ok(empty_layout(alloc)),
    }
}
