//! The locales of a style.

ghost use Rattle.std.specs.Prelude.{◌≡◌, map, codes, IfOk};
ghost use Rattle.xml_tree.specs.Views.{element_view};
ghost use Rattle.rendering_locale.specs.Views.{locale_view};
ghost use Rattle.csl_nodes.specs.Views.{words_view};
ghost use Rattle.csl_locales.specs.Called.{called};
ghost use Rattle.csl_locales.specs.Locales as specs;

use csl_locales::{all_called, locale};
use csl_nodes::Words;
use rendering_locale::Locale;
use std::alloc::{AllocError, Global};
use xml_tree::Element;

/// The locales of a style.
pub(crate) fn locales_of(
    alloc: Global,
    words: &Words,
    element: &Element<'_>,
) -> Result<Vec<Locale>, AllocError>
    ensures { IfOk result (λ v. map locale_view v.items ≡ map
        (specs.locale (words_view words.now))
        (called (codes "locale") (element_view element.now))) }
{
    let mut locales = Vec::new(alloc);
    for part in all_called(alloc, "locale", element)? {
        locales.push(locale(alloc, words, part)?)?;
    }
    Ok(locales)
}
