//! How elements look.

ghost use Rattle.std.specs.Prelude.{◌≡◌, IfOk};
ghost use Rattle.rendering_taxonomy.specs.Views.{changes_view};
ghost use Rattle.rendering_style.specs.Views.{look_view, text_look_view, label_look_view};
ghost use Rattle.xml_tree.specs.Views.{element_view};
ghost use Rattle.csl_nodes.specs.Looks.{formatting, text_case, look, text_look, term_form, label_look};

use csl_words::{
    ALIGNMENTS, DECORATIONS, DISPLAYS, FONT_STYLES, FONT_VARIANTS, FONT_WEIGHTS, PLURALS,
    TERM_FORMS, TEXT_CASES, is_true, printed_text, value_by,
};
use rendering_style::{LabelLook, Look, TextLook};
use rendering_taxonomy::{FormattingChanges, LabelPluralize, TermForm, TextCase};
use std::alloc::{AllocError, Global};
use xml_tree::Element;

/// What an element says of the look of characters.
pub fn formatting(element: &Element<'_>) -> FormattingChanges
    ensures { changes_view result ≡ formatting (element_view element.now) }
{
    FormattingChanges {
        font_style: value_by(FONT_STYLES, "font-style", element),
        font_variant: value_by(FONT_VARIANTS, "font-variant", element),
        font_weight: value_by(FONT_WEIGHTS, "font-weight", element),
        text_decoration: value_by(DECORATIONS, "text-decoration", element),
        vertical_align: value_by(ALIGNMENTS, "vertical-align", element),
    }
}

/// The case of the letters of what an element prints.
pub fn text_case(element: &Element<'_>) -> Option<TextCase>
    ensures { result ≡ text_case (element_view element.now) }
{
    value_by(TEXT_CASES, "text-case", element)
}

/// The look of an element, with its affixes and where it stands.
pub(crate) fn look(alloc: Global, element: &Element<'_>) -> Result<Look, AllocError>
    ensures { IfOk result (λ l. look_view l ≡ look (element_view element.now)) }
{
    let prefix = printed_text(alloc, "prefix", element)?;
    let suffix = printed_text(alloc, "suffix", element)?;
    Ok(Look {
        formatting: formatting(element),
        prefix,
        suffix,
        display: value_by(DISPLAYS, "display", element),
    })
}

/// The look of a text.
pub(crate) fn text_look(alloc: Global, element: &Element<'_>) -> Result<TextLook, AllocError>
    ensures { IfOk result (λ l. text_look_view l ≡ text_look (element_view element.now)) }
{
    let look = look(alloc, element)?;
    Ok(TextLook {
        look,
        quotes: is_true("quotes", element),
        strip_periods: is_true("strip-periods", element),
        text_case: text_case(element),
    })
}

/// The form of a term.
pub fn term_form(element: &Element<'_>) -> TermForm
    ensures { result ≡ term_form (element_view element.now) }
{
    value_by(TERM_FORMS, "form", element).unwrap_or(TermForm::Long)
}

/// The look of a label.
pub(crate) fn label_look(alloc: Global, element: &Element<'_>) -> Result<LabelLook, AllocError>
    ensures { IfOk result (λ l. label_look_view l ≡ label_look (element_view element.now)) }
{
    let look = look(alloc, element)?;
    Ok(LabelLook {
        form: term_form(element),
        plural: value_by(PLURALS, "plural", element).unwrap_or(LabelPluralize::Contextual),
        strip_periods: is_true("strip-periods", element),
        text_case: text_case(element),
        look,
    })
}
