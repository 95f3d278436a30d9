//! Macros.

ghost use Rattle.std.specs.Prelude.{◌≡◌, map, codes, IfOk};
ghost use Rattle.xml_tree.specs.Views.{element_view};
ghost use Rattle.rendering_style.specs.Views.{macro_view};
ghost use Rattle.csl_nodes.specs.Nodes as nodes;
ghost use Rattle.csl_nodes.specs.Views.{words_view};
ghost use Rattle.csl_locales.specs.Called.{called};

use csl_locales::all_called;
use csl_nodes::{Words, macro_of};
use rendering_style::Macro;
use std::alloc::{AllocError, Global};
use xml_tree::Element;

/// The macros of a style.
pub(crate) fn macros_of(
    alloc: Global,
    words: &Words,
    element: &Element<'_>,
) -> Result<Vec<Macro>, AllocError>
    ensures { IfOk result (λ v. map macro_view v.items ≡ map
        (nodes.macro_of (words_view words.now))
        (called (codes "macro") (element_view element.now))) }
{
    let mut macros = Vec::new(alloc);
    for part in all_called(alloc, "macro", element)? {
        macros.push(macro_of(alloc, words, part)?)?;
    }
    Ok(macros)
}
