//! Layouts: how their texts look, what they hand down, and what stands round them.

ghost use Rattle.std.specs.Prelude.{◌≡◌, [], false, None, is_some};
ghost use Rattle.std.specs.Option.{option_map_or, option_map};
ghost use Rattle.rendering_leaves.specs.Views.{form_view, setting_view};
ghost use Rattle.rendering_names.specs.Views.{resolved_options_view};
ghost use Rattle.rendering_nodes.specs.Named.{has_suffix};
ghost use Rattle.rendering_page.specs.Views.{frame_view, manner_view};
ghost use Rattle.rendering_style.specs.Options.{NameOptions as Options, options_over};
ghost use Rattle.rendering_style.specs.Styles.{Style as Styled};
ghost use Rattle.rendering_style.specs.StyleViews.{style_view};
ghost use Rattle.rendering_style.specs.Views.{bibliography_layout_view, layout_view, options_view, style_parts_view};
ghost use Rattle.rendering.specs.Purposes.{citation_options, is_published, layout_frame, layout_manner, layout_nodes, prints_suffix, setting_of};

use rendering_leaves::{NodeSetting, SpecialForm};
use rendering_names::{NamesAround, ResolvedNameOptions};
use rendering_nodes::has_suffix;
use rendering_page::{Frame, Manner, plain_manner};
use rendering_style::{Bibliography, Layout, NameOptions, Style, StyleParts};
use rendering_taxonomy::PageRule;
use texts::text_or_empty;

/// How a layout's own texts are appended.
pub(crate) fn layout_manner(layout: &Layout) -> Manner
    ensures { manner_view result ≡ layout_manner (layout_view layout.now) }
{
    let plain = plain_manner();
    Manner {
        formatting: layout.formatting.over(plain.formatting),
        ..plain
    }
}

/// The options of a layout for names, over those of the style.
pub(crate) fn layout_options<'a>(
    parts: &'a StyleParts,
    options: &'a NameOptions,
) -> ResolvedNameOptions<'a>
    ensures { resolved_options_view result
        ≡ options_over (options_view options.now) (style_parts_view parts.now).name_options }
{
    let around = ResolvedNameOptions::new(&parts.name_options);
    ResolvedNameOptions::new(options).over(&around)
}

/// The options for names in the citation.
pub(crate) fn citation_options<'a>(style: &'a Style) -> ResolvedNameOptions<'a>
    ensures { resolved_options_view result ≡ citation_options (style_view style.now) }
{
    let parts = style.parts();
    layout_options(parts, &parts.citation.name_options)
}

/// What a layout hands down in a form, with its options for names, which are over those of the style; whether it prints English.
pub(crate) fn setting_of<'a>(
    layout: &'a Layout,
    options: &ResolvedNameOptions<'a>,
    form: SpecialForm,
    is_english: bool,
) -> NodeSetting<'a>
    ensures { (s : Styled) (own : Options)
        → resolved_options_view options.now ≡ options_over own s.name_options
        → setting_view result
        ≡ setting_of s is_english (layout_view layout.now) own (form_view form) }
{
    NodeSetting {
        manner: Manner {
            is_english,
            ..layout_manner(layout)
        },
        inside_quotes: false,
        delimiter: None,
        options: NamesAround::not_overriding(options),
        in_substitute: false,
        form,
        outer_names: None,
    }
}

/// A layout's affixes round all that it prints.
pub(crate) fn layout_frame<'a>(layout: &'a Layout) -> Frame<'a>
    ensures { frame_view result ≡ layout_frame (layout_view layout.now) }
{
    Frame {
        display: None,
        meta: None,
        manner: layout_manner(layout),
        prefix: text_or_empty(&layout.prefix),
        suffix: text_or_empty(&layout.suffix),
    }
}

/// Whether a text stands for names that repeat those of the item before.
pub(crate) fn has_substitute(bibliography: &Bibliography) -> bool
    ensures { result ≡ is_some (bibliography_layout_view bibliography.now).substitute }
{
    bibliography.subsequent_author_substitute.is_some()
}

/// Whether a style is a published one: the texts of its pages are joined.
pub fn is_published(style: &Style) -> bool
    ensures { result ≡ is_published (style_view style.now) }
{
    match style.parts().page_rule {
        PageRule::Joined => true,
        PageRule::AsWritten => false,
    }
}

/// Whether a layout of the style prints the year suffix by itself.
#[tactic(auto, unfolding(crate::specs::Purposes::prints_suffix))]
pub(crate) fn prints_suffix(style: &Style) -> bool
    ensures { result ≡ prints_suffix (style_view style.now) }
{
    let parts = style.parts();
    has_suffix(style, &parts.citation.layout.nodes)
        || bibliography_prints_suffix(style, &parts.bibliography)
}

/// Whether the layout of the bibliography does, where there is one.
fn bibliography_prints_suffix(style: &Style, bibliography: &Option<Bibliography>) -> bool
    ensures { result
        ≡ option_map_or (λ b. has_suffix (layout_nodes (style_view style.now) b.layout))
        (option_map bibliography_layout_view bibliography.now) false }
{
    match bibliography {
        Some(bibliography) => has_suffix(style, &bibliography.layout.nodes),
        None => false,
    }
}
