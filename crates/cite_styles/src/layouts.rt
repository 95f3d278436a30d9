//! Layouts, citations and bibliographies for which little is specified, and styles of them.

ghost use Rattle.std.specs.Prelude.{◌≡◌, [], ◌∷◌, true, IfOk, map, None};
ghost use Rattle.std.specs.Option.{option_map};
ghost use Rattle.std.specs.Str.{chars};
ghost use Rattle.rendering_style.specs.Opening.{IsAnswer};
ghost use Rattle.rendering_style.specs.StyleViews.{style_view};
ghost use Rattle.rendering_style.specs.Views.{node_view, layout_view, citation_layout_view, bibliography_layout_view, style_parts_view};
ghost use Rattle.cite_styles.specs.Layouts.{plain_layout, sentence, bracketed, plain_bibliography, style_of};

use rendering_style::{
    Bibliography, Citation, Layout, NameOptions, Node, Style, StyleError, StyleParts,
};
use rendering_taxonomy::{
    FormattingChanges, PageRule, StyleCategory, StyleClass, SubsequentAuthorSubstituteRule,
};
use std::alloc::{AllocError, Global};
use std::num::NonZeroI16;
use texts::owned;

/// Nodes with nothing round them.
fn plain_layout(nodes: Vec<Node>) -> Layout
    ensures { layout_view result ≡ plain_layout (map node_view nodes.items) }
{
    Layout {
        nodes,
        formatting: FormattingChanges::default(),
        prefix: None,
        suffix: None,
        delimiter: None,
    }
}

/// Nodes with a full stop after them.
#[tactic(auto, using(crate::proofs::Literals::full_stop))]
pub(crate) fn sentence(alloc: Global, nodes: Vec<Node>) -> Result<Layout, AllocError>
    ensures { IfOk result (λ l. layout_view l ≡ sentence (map node_view nodes.items)) }
{
    let suffix = owned(alloc, ".")?;
    Ok(Layout {
        suffix: Some(suffix),
        ..plain_layout(nodes)
    })
}

/// A node between brackets, and a text between cites.
pub(crate) fn bracketed(
    alloc: Global,
    opening: &str,
    closing: &str,
    delimiter: &str,
    node: Node,
) -> Result<Layout, AllocError>
    ensures { IfOk result (λ l. layout_view l ≡ bracketed (chars opening.now)
        (chars closing.now) (chars delimiter.now) (node_view node)) }
{
    let nodes = vec![in alloc; node]?;
    let prefix = owned(alloc, opening)?;
    let suffix = owned(alloc, closing)?;
    let delimiter = owned(alloc, delimiter)?;
    Ok(Layout {
        prefix: Some(prefix),
        suffix: Some(suffix),
        delimiter: Some(delimiter),
        ..plain_layout(nodes)
    })
}

/// Items without an indent, a line apart.
pub(crate) fn plain_bibliography(layout: Layout) -> Bibliography
    ensures { bibliography_layout_view result ≡ plain_bibliography (layout_view layout) }
{
    let Some(line_spacing) = NonZeroI16::new(1) else {
        unreachable!()
    };
    Bibliography {
        layout,
        name_options: NameOptions::default(),
        hanging_indent: false,
        second_field_align: None,
        line_spacing,
        entry_spacing: 1,
        subsequent_author_substitute: None,
        subsequent_author_substitute_rule: SubsequentAuthorSubstituteRule::CompleteAll,
        substitutes_names_alone: false,
    }
}

/// What a style of one category is made of, without locales and macros of its own.
pub(crate) fn style_of(
    alloc: Global,
    class: StyleClass,
    category: StyleCategory,
    citation: Citation,
    bibliography: Option<Bibliography>,
) -> Result<StyleParts, AllocError>
    ensures { IfOk result (λ p. style_parts_view p ≡ style_of class category
        (citation_layout_view citation) (option_map bibliography_layout_view bibliography)) }
{
    let categories = vec![in alloc; category]?;
    Ok(StyleParts {
        class,
        categories,
        default_locale: None,
        page_ranges: None,
        page_rule: PageRule::AsWritten,
        name_options: NameOptions::default(),
        locales: Vec::new(alloc),
        macros: Vec::new(alloc),
        citation,
        bibliography,
        citation_sort: Vec::new(alloc),
        bibliography_sort: Vec::new(alloc),
    })
}

/// The style of parts that are not refused.
pub(crate) fn accepted(alloc: Global, parts: StyleParts) -> Result<Style, AllocError>
    requires { IsAnswer (style_parts_view parts) None }
    ensures { IfOk result (λ s. style_view s ≡ style_parts_view parts) }
{
    match Style::new(alloc, parts) {
        Ok(style) => Ok(style),
        Err(StyleError::Memory) => Err(AllocError),
        Err(StyleError::MacroRing(_)) => unreachable!(),
        Err(StyleError::TooDeep) => unreachable!(),
    }
}
