//! By what a document is printed and sorted.

ghost use Rattle.std.specs.Prelude.{◌≡◌, IfOk};
ghost use Rattle.std.specs.Option.{option_map};
ghost use Rattle.rendering_locale.specs.CodeViews.{code_view};

use rendering_locale::{Locale, LocaleCode};
use rendering_style::Style;
use std::alloc::{AllocError, Global};
use texts::owned;

/// The style of all citations, the same style as it prints for sorting, the language that is asked for, and the locales.
#[derive(Clone, Copy)]
pub struct SortedSetting<'a> {
    pub style: &'a Style,
    pub sorting: &'a Style,
    /// The language that is asked for; where there is none it is that of the style.
    pub lang: Option<&'a str>,
    pub locales: &'a [Locale],
}

/// The language that is asked for.
///
/// # Errors
/// Where a request for memory was refused.
pub fn language(alloc: Global, lang: Option<&str>) -> Result<Option<LocaleCode>, AllocError>
    ensures { IfOk result (λ code. option_map code_view code
        ≡ option_map (λ s. s.now) lang.entry) }
{
    match lang {
        Some(code) => Ok(Some(LocaleCode(owned(alloc, code)?))),
        None => Ok(None),
    }
}
