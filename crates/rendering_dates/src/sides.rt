//! A side of a date on a page: the parts that it has, with the delimiter between any two.

ghost use Rattle.std.specs.Prelude.{◌≡◌, IfOk, OnOk};
ghost use Rattle.std.specs.Str.{chars};
ghost use Rattle.rendering_dates.specs.Dates.{filled_pieces};
ghost use Rattle.rendering_dates.specs.Joined.{joined_from, still_first, before_next};
ghost use Rattle.rendering_dates.specs.Views.{part_text_view, printed_view, delimiter_by, part_by, side_by, listed_by};
ghost use Rattle.rendering_page.specs.Pieces.{append_pieces};
ghost use Rattle.rendering_page.specs.Views.{quotes_view, manner_view};

use crate::changes::{PrintedPart, printed_part};
use crate::parts::{PartText, part_text};
use crate::printed::push_part;
use crate::shape::{DateShape, is_within};
use literature_values::Date;
use rendering_locale::{AskedLocales, DatePart};
use rendering_page::{Manner, Page};
use std::alloc::{AllocError, Global};

/// How dates are appended, and where.
#[derive(Clone, Copy)]
pub struct DateStyle<'s, 'a> {
    pub alloc: Global,
    /// The close quotes inside which punctuation goes, in the order in which they are tried.
    pub quotes: &'s [&'s str],
    /// The locales that are asked for months, eras and the endings of numbers.
    pub locales: &'s AskedLocales<'a>,
    /// How the texts around the parts are appended; a part may change it for its own text.
    pub manner: Manner,
    pub shape: DateShape<'a>,
}

impl<'s, 'a> DateStyle<'s, 'a> {
    /// Appends the year, the month and the day of a date, as far as the shape has them. What a range ends with is left out.
    pub(crate) fn push_side(
        &self,
        page: &mut Page<'a>,
        year_suffix: &'a str,
        date: &Date,
    ) -> Result<(), AllocError>
        ensures { OnOk result (page.new ≡ append_pieces (quotes_view self.now.quotes.now)
            (side_by self.now (chars year_suffix.now) date.now) page.old) }
    {
        self.push_parts(page, year_suffix, date, true, self.shape.parts)?;
        Ok(())
    }

    /// Appends the parts of a date, those that are printed, with the delimiter between any two, and before the first unless that is
    /// the first of all. Returns whether the next is the first of all.
    pub(crate) fn push_parts(
        &self,
        page: &mut Page<'a>,
        year_suffix: &'a str,
        date: &Date,
        is_first: bool,
        parts: &'a [DatePart],
    ) -> Result<bool, AllocError>
        ensures page { OnOk result (page.new ≡ append_pieces
            (quotes_view self.now.quotes.now) (joined_from is_first (delimiter_by self.now)
            (listed_by self.now (chars year_suffix.now) date.now parts.now)) page.old) }
        ensures first { IfOk result (λ b. b ≡ still_first is_first
            (listed_by self.now (chars year_suffix.now) date.now parts.now)) }
    {
        let mut is_next_first = is_first;
        for part in parts {
            let printed = printed_part(part, self.shape.changes);
            is_next_first = self.push_next(page, year_suffix, date, is_next_first, &printed)?;
        }
        Ok(is_next_first)
    }

    /// Appends a part that is printed, after the delimiter unless it is the first, and returns whether the next is the first.
    pub(crate) fn push_next(
        &self,
        page: &mut Page<'a>,
        year_suffix: &'a str,
        date: &Date,
        is_first: bool,
        part: &PrintedPart<'a>,
    ) -> Result<bool, AllocError>
        ensures page { OnOk result (page.new ≡ append_pieces
            (quotes_view self.now.quotes.now) (joined_from is_first (delimiter_by self.now)
            (part_by self.now (chars year_suffix.now) date.now (printed_view part.now))) page.old) }
        ensures first { IfOk result (λ b. b ≡ still_first is_first
            (part_by self.now (chars year_suffix.now) date.now (printed_view part.now))) }
    {
        if !is_within(self.shape.cut, part.form) {
            return Ok(is_first);
        }
        let text = part_text(self.alloc, self.locales, date, part.form)?;
        self.push_filled(page, year_suffix, is_first, part, text)
    }

    /// Appends a part that has that text, after the delimiter unless it is the first, and returns whether the next is the first.
    /// A part without a text is not printed.
    fn push_filled(
        &self,
        page: &mut Page<'a>,
        year_suffix: &'a str,
        is_first: bool,
        part: &PrintedPart<'a>,
        text: PartText<'a>,
    ) -> Result<bool, AllocError>
        ensures page { OnOk result (page.new
            ≡ append_pieces (quotes_view self.now.quotes.now) (joined_from is_first
            (delimiter_by self.now) (filled_pieces (manner_view self.now.manner)
            (chars year_suffix.now) (printed_view part.now) (part_text_view text.entry)))
            page.old) }
        ensures first { IfOk result (λ b. b
            ≡ still_first is_first (filled_pieces (manner_view self.now.manner)
            (chars year_suffix.now) (printed_view part.now) (part_text_view text.entry))) }
    {
        if !text.is_filled() {
            return Ok(is_first);
        }
        self.push_delimiter(page, is_first)?;
        push_part(page, self.quotes, self.manner, year_suffix, part, text)?;
        Ok(false)
    }

    /// Appends what stands before a part.
    fn push_delimiter(&self, page: &mut Page<'a>, is_first: bool) -> Result<(), AllocError>
        ensures { OnOk result (page.new ≡ append_pieces (quotes_view self.now.quotes.now)
            (before_next is_first (delimiter_by self.now)) page.old) }
    {
        if is_first {
            return Ok(());
        }
        page.push_text(self.quotes, self.manner, self.shape.delimiter)
    }
}
