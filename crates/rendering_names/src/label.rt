//! Labels.

ghost use Rattle.std.specs.Prelude.{◌≡◌, OnOk};
ghost use Rattle.std.specs.Option.{option_map};
ghost use Rattle.laws.specs.Text.{spelled};
ghost use Rattle.rendering_names.specs.Names.{label_frame, label_manner, label_pieces, label_text_pieces, pluralizes};
ghost use Rattle.rendering_names.specs.Views.{append_here, name_style_view};
ghost use Rattle.rendering_page.specs.Views.{manner_view, frame_view};
ghost use Rattle.rendering_style.specs.Views.{label_look_view};

use crate::style::{NameStyle, changed_manner};
use rendering_page::{Frame, Manner, Page, with_case};
use rendering_style::LabelLook;
use rendering_taxonomy::{LabelPluralize, Term};
use std::alloc::AllocError;

/// Whether a label stands in the plural. `is_plural` says whether its value is more than one.
pub fn pluralizes(plural: LabelPluralize, is_plural: bool) -> bool
    ensures { result ≡ pluralizes plural is_plural }
{
    match plural {
        LabelPluralize::Contextual => is_plural,
        LabelPluralize::Always => true,
        LabelPluralize::Never => false,
    }
}

/// How the text of a label is appended.
pub fn label_manner(manner: Manner, label: &LabelLook) -> Manner
    ensures { manner_view result ≡ label_manner (manner_view manner) (label_look_view label.now) }
{
    let own = changed_manner(label.look.formatting, manner);
    let stripped = Manner {
        strips_periods: manner.strips_periods || label.strip_periods,
        ..own
    };
    with_case(stripped, label.text_case)
}

impl<'s, 'a> NameStyle<'s, 'a> {
    /// Appends the label of so many people by its term, where there is one.
    pub(crate) fn push_label(
        &self,
        page: &mut Page<'a>,
        term: Term,
        people: usize,
        label: Option<&'a LabelLook>,
    ) -> Result<(), AllocError>
        ensures { OnOk result (page.new ≡ append_here self.now
            (label_pieces self.now.setting.locales.now (name_style_view self.now).manner
            term people (option_map (λ b. label_look_view b.now) label.entry)) page.old) }
    {
        let Some(label) = label else {
            return Ok(());
        };
        let is_plural = pluralizes(label.plural, 1 < people);
        let locales = self.setting.locales;
        self.push_label_text(page, label, locales.term_text(term, label.form, is_plural))
    }

    /// Appends the text of a label between its affixes.
    fn push_label_text(
        &self,
        page: &mut Page<'a>,
        label: &'a LabelLook,
        text: &'a str,
    ) -> Result<(), AllocError>
        ensures { OnOk result (page.new
            ≡ append_here self.now (label_text_pieces (name_style_view self.now).manner
            (label_look_view label.now) (spelled text.entry)) page.old) }
    {
        let frame = label_frame(self.setting.manner, label);
        page.begin(&frame)?;
        page.push_text(
            self.setting.quotes,
            label_manner(self.setting.manner, label),
            text,
        )?;
        page.end(self.setting.quotes, &frame)?;
        Ok(())
    }
}

/// The affixes of a label.
fn label_frame<'a>(manner: Manner, label: &'a LabelLook) -> Frame<'a>
    ensures { frame_view result ≡ label_frame (manner_view manner) (label_look_view label.now) }
{
    Frame {
        display: None,
        meta: None,
        manner,
        prefix: label.look.prefix.as_str(),
        suffix: label.look.suffix.as_str(),
    }
}
