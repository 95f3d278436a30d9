//! The style by which keys print.

ghost use Rattle.std.specs.Prelude.{◌≡◌, None, map, IfOk, OnOk};
ghost use Rattle.std.specs.Option.{option_map};
ghost use Rattle.rendering_style.specs.Opening.{IsAnswer};
ghost use Rattle.rendering_style.specs.StyleViews.{style_view};
ghost use Rattle.rendering_style.specs.Views.{bibliography_layout_view, macro_view, style_parts_view};
ghost use Rattle.sorting_styles.specs.Styles as specs;

use crate::locales::change_locales;
use crate::nodes::change_nodes;
use rendering_style::{Bibliography, Macro, Style, StyleError, StyleParts};
use std::alloc::{AllocError, Global};

/// Makes a macro print for sorting.
fn change_macro(alloc: Global, called: &mut Macro) -> Result<(), AllocError>
    ensures { OnOk result (macro_view called.new
        ≡ specs.sorting_macro (macro_view called.old)) }
{
    change_nodes(alloc, &mut called.nodes)
}

/// Makes macros print for sorting.
fn change_macros(alloc: Global, macros: &mut [Macro]) -> Result<(), AllocError>
    ensures { OnOk result (map macro_view macros.new
        ≡ map specs.sorting_macro (map macro_view macros.old)) }
{
    for called in macros.iter_mut() {
        change_macro(alloc, called)?;
    }
    Ok(())
}

/// Leaves out the word before the last name of a bibliography, if there is one.
fn change_bibliography(bibliography: &mut Option<Bibliography>)
    ensures { option_map bibliography_layout_view bibliography.new
        ≡ option_map specs.sorting_bibliography
        (option_map bibliography_layout_view bibliography.old) }
{
    if let Some(bibliography) = bibliography {
        bibliography.name_options.and = None;
    }
}

/// Makes the parts of a style print for sorting.
fn change_parts(alloc: Global, parts: &mut StyleParts, demotes: bool) -> Result<(), AllocError>
    ensures { OnOk result (style_parts_view parts.new
        ≡ specs.sorting_style demotes (style_parts_view parts.old)) }
{
    parts.name_options.and = None;
    parts.name_options.demote_non_dropping_particle = Some(demotes);
    parts.citation.name_options.and = None;
    change_bibliography(&mut parts.bibliography);
    change_locales(alloc, &mut parts.locales)?;
    change_macros(alloc, &mut parts.macros)
}

/// The style of parts that are not refused.
fn accepted(alloc: Global, parts: StyleParts) -> Result<Style, AllocError>
    requires { IsAnswer (style_parts_view parts) None }
    ensures { IfOk result (λ s. style_view s ≡ style_parts_view parts) }
{
    match Style::new(alloc, parts) {
        Ok(style) => Ok(style),
        Err(StyleError::Memory) => Err(AllocError),
        Err(StyleError::MacroRing(_)) => unreachable!(),
        Err(StyleError::TooDeep) => unreachable!(),
    }
}

/// The style by which the keys of the style of these parts print; whether the particles of names go behind the given names is said. It recurses
/// as deep as nodes are nested.
///
/// # Errors
/// Where a request for memory was refused.
pub fn sorting_style(
    alloc: Global,
    mut parts: StyleParts,
    demotes: bool,
) -> Result<Style, AllocError>
    requires { IsAnswer (style_parts_view parts) None }
    ensures { IfOk result (λ s. style_view s
        ≡ specs.sorting_style demotes (style_parts_view parts)) }
{
    change_parts(alloc, &mut parts, demotes)?;
    accepted(alloc, parts)
}
