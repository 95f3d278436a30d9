//! The manner of texts for which nothing is specified.

ghost use Rattle.std.specs.Prelude.{◌≡◌};
ghost use Rattle.rendering_page.specs.PageCharacters.{plain_manner};
ghost use Rattle.rendering_page.specs.Views.{manner_view};

use crate::manner::Manner;
use rendering_taxonomy::{
    FontStyle, FontVariant, FontWeight, Formatting, TextDecoration, VerticalAlign,
};

/// How texts are appended in the default formatting, with their full stops and in the case that they have.
pub fn plain_manner() -> Manner
    ensures { manner_view result ≡ plain_manner }
{
    Manner {
        formatting: Formatting {
            font_style: FontStyle::Normal,
            font_variant: FontVariant::Normal,
            font_weight: FontWeight::Normal,
            text_decoration: TextDecoration::None,
            vertical_align: VerticalAlign::None,
        },
        strips_periods: false,
        text_case: None,
        is_english: false,
    }
}
