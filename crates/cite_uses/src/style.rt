//! A style of one's own, with a macro.

ghost use Rattle.std.specs.Prelude.{◌≡◌, IfOk};
ghost use Rattle.rendering_style.specs.StyleViews.{style_view};
ghost use Rattle.rendering_style.specs.Views.{layout_view, macro_view, node_view, style_parts_view, text_node_view};
ghost use Rattle.cite_uses.specs.Titles.{in_font, title_layout, title_macro, titles};

use rendering_style::{
    Citation, Layout, Look, Macro, NameOptions, Node, Style, StyleError, StyleParts, Text,
    TextLook, TextTarget,
};
use rendering_taxonomy::{
    FontStyle, FormattingChanges, LongShortForm, PageRule, StandardVariable, StyleClass, Variable,
};
use std::alloc::{AllocError, Global};
use texts::owned;

/// A style in which a cite is the title of its entry in italics, by a macro; there is no bibliography.
///
/// # Errors
/// Out of memory. The style is never refused.
pub fn titles(alloc: Global) -> Result<Style, AllocError>
    ensures { IfOk result (λ s. style_view s ≡ titles) }
{
    match Style::new(alloc, parts(alloc)?) {
        Ok(style) => Ok(style),
        Err(StyleError::Memory) => Err(AllocError),
        Err(StyleError::MacroRing(_)) => unreachable!(),
        Err(StyleError::TooDeep) => unreachable!(),
    }
}

/// What the style is made of.
#[tactic(auto, unfolding(crate::specs::Titles::titles))]
fn parts(alloc: Global) -> Result<StyleParts, AllocError>
    ensures { IfOk result (λ p. style_parts_view p ≡ titles) }
{
    let macros = vec![in alloc; title_macro(alloc)?]?;
    let layout = title_layout(alloc)?;
    Ok(StyleParts {
        class: StyleClass::InText,
        categories: Vec::new(alloc),
        default_locale: None,
        page_ranges: None,
        page_rule: PageRule::AsWritten,
        name_options: NameOptions::default(),
        locales: Vec::new(alloc),
        macros,
        citation: Citation::new(layout),
        bibliography: None,
        citation_sort: Vec::new(alloc),
        bibliography_sort: Vec::new(alloc),
    })
}

/// The macro: the title, in italics.
#[tactic(auto, unfolding(crate::specs::Titles::title_macro))]
fn title_macro(alloc: Global) -> Result<Macro, AllocError>
    ensures { IfOk result (λ m. macro_view m ≡ title_macro) }
{
    let title = Variable::Standard(StandardVariable::Title);
    let target = TextTarget::Variable(title, LongShortForm::Long);
    let nodes = vec![in alloc; text(alloc, target, Some(FontStyle::Italic))]?;
    let name = owned(alloc, "title")?;
    Ok(Macro { name, nodes })
}

/// A call of the macro for each cite, and commas between cites.
#[tactic(auto, unfolding(crate::specs::Titles::title_layout), using(cite_styles::proofs::Literals::comma))]
fn title_layout(alloc: Global) -> Result<Layout, AllocError>
    ensures { IfOk result (λ l. layout_view l ≡ title_layout) }
{
    let target = TextTarget::Macro(owned(alloc, "title")?);
    let nodes = vec![in alloc; text(alloc, target, None)]?;
    let delimiter = owned(alloc, ", ")?;
    Ok(Layout {
        nodes,
        formatting: FormattingChanges::default(),
        prefix: None,
        suffix: None,
        delimiter: Some(delimiter),
    })
}

/// A text for which nothing is specified but the style of its font.
fn text(alloc: Global, target: TextTarget, font_style: Option<FontStyle>) -> Node
    ensures { node_view result ≡ text_node_view target (in_font font_style) }
{
    let formatting = FormattingChanges {
        font_style,
        ..FormattingChanges::default()
    };
    let look = Look {
        formatting,
        ..Look::plain(alloc)
    };
    Node::Text(Text {
        target,
        look: TextLook {
            look,
            quotes: false,
            strip_periods: false,
            text_case: None,
        },
    })
}
