//! Cites that are asked for together.

ghost use Rattle.std.specs.Prelude.{◌≡◌};
ghost use Rattle.driver_requests.specs.Requests.{note_number_in};

use crate::item::CitationItem;
use rendering_locale::{Locale, LocaleCode};
use rendering_style::Style;
use rendering_taxonomy::StyleClass;
use std::fmt;

/// Items that are cited together, with the style that they are printed in, the language that is asked for, the files with locales, and
/// the number of the note that they stand in.
#[derive(PartialEq, Drop)]
pub struct CitationRequest<'a, T: 'a, P: 'a> {
    pub items: Vec<CitationItem<'a, T, P>>,
    style: &'a Style,
    pub locale: Option<LocaleCode>,
    pub locale_files: &'a [Locale],
    note_number: Option<usize>,
}

/// Written with the number of items and the number of the note alone.
impl<'a, T: 'a, P: 'a> fmt::Debug for CitationRequest<'a, T, P> {
    fn fmt<W: fmt::Write>(&self, f: &mut fmt::Formatter<W>) -> fmt::Result {
        let count = self.items.len();
        write!(
            f,
            "CitationRequest {{ items: {count}, note_number: {:?} }}",
            self.note_number
        )
    }
}

impl<'a, T: 'a, P: 'a> CitationRequest<'a, T, P> {
    ghost use Rattle.std.specs.Prelude.{None};
    ghost use Rattle.rendering_style.specs.StyleViews.{style_view};

    /// A request. Its note number counts in a style of notes alone.
    pub fn new(
        items: Vec<CitationItem<'a, T, P>>,
        style: &'a Style,
        locale: Option<LocaleCode>,
        locale_files: &'a [Locale],
        note_number: Option<usize>,
    ) -> CitationRequest<'a, T, P>
        ensures items { result.items ≡ items.entry }
        ensures style { style_view result.style.now ≡ style_view style.now }
        ensures locale { result.locale ≡ locale }
        ensures files { result.locale_files.now ≡ locale_files.now }
        ensures note { result.note_number
            ≡ note_number_in (style_view style.now).class note_number }
    {
        CitationRequest {
            items,
            style,
            locale,
            locale_files,
            note_number: note_number_in(style.parts().class, note_number),
        }
    }

    /// A request in the language of the style, outside of notes.
    pub fn from_items(
        items: Vec<CitationItem<'a, T, P>>,
        style: &'a Style,
        locale_files: &'a [Locale],
    ) -> CitationRequest<'a, T, P>
        ensures items { result.items ≡ items.entry }
        ensures style { style_view result.style.now ≡ style_view style.now }
        ensures locale { result.locale ≡ None }
        ensures files { result.locale_files.now ≡ locale_files.now }
        ensures note { result.note_number ≡ None }
    {
        CitationRequest {
            items,
            style,
            locale: None,
            locale_files,
            note_number: None,
        }
    }

    /// The style that the items are printed in.
    pub fn style(&self) -> &'a Style
        ensures { style_view result.now ≡ style_view self.now.style.now }
    {
        self.style
    }

    /// The number of the note that the items stand in.
    pub fn note_number(&self) -> Option<usize>
        ensures { result ≡ self.now.note_number }
    {
        self.note_number
    }
}

/// The number of a note, where the style has notes.
fn note_number_in(class: StyleClass, note_number: Option<usize>) -> Option<usize>
    ensures { result ≡ note_number_in class note_number }
{
    match class {
        StyleClass::Note => note_number,
        StyleClass::InText => None,
    }
}
