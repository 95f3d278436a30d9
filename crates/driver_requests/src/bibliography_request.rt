//! The bibliography that is asked for.

use rendering_locale::{Locale, LocaleCode};
use rendering_style::Style;

/// The style that a bibliography is printed in, with the language that is asked for, the files with locales, and the entries that come
/// first in it so far as they are cited.
#[derive(Debug, PartialEq, Drop)]
pub struct BibliographyRequest<'a, T> {
    pub style: &'a Style,
    pub locale: Option<LocaleCode>,
    pub locale_files: &'a [Locale],
    order: &'a [&'a T],
}

impl<'a, T> BibliographyRequest<'a, T> {
    ghost use Rattle.std.specs.Prelude.{◌≡◌, []};
    ghost use Rattle.laws.specs.Borrowed.{borrowed};
    ghost use Rattle.rendering_style.specs.StyleViews.{style_view};

    /// A bibliography in the order of first cites.
    pub fn new(
        style: &'a Style,
        locale: Option<LocaleCode>,
        locale_files: &'a [Locale],
    ) -> BibliographyRequest<'a, T>
        ensures style { style_view result.style.now ≡ style_view style.now }
        ensures locale { result.locale ≡ locale }
        ensures files { result.locale_files.now ≡ locale_files.now }
        ensures order { result.order.now ≡ [] }
    {
        BibliographyRequest {
            style,
            locale,
            locale_files,
            order: &[],
        }
    }

    /// The same request with these entries first, so far as they are cited.
    pub fn with_order(self, order: &'a [&'a T]) -> BibliographyRequest<'a, T>
        ensures style { style_view result.style.now ≡ style_view self.entry.style.now }
        ensures locale { result.locale ≡ self.entry.locale }
        ensures files { result.locale_files.now ≡ self.entry.locale_files.now }
        ensures order { borrowed result.order.now ≡ borrowed order.now }
    {
        let BibliographyRequest {
            style,
            locale,
            locale_files,
            order: _,
        } = self;
        BibliographyRequest {
            style,
            locale,
            locale_files,
            order,
        }
    }

    /// The entries that come first, so far as they are cited.
    pub fn order(&self) -> &'a [&'a T]
        ensures { borrowed result.now ≡ borrowed self.now.order.now }
    {
        self.order
    }
}
