//! Dates and ranges of dates on a page.

ghost use Rattle.std.specs.Prelude.{◌≡◌, IfOk, OnOk};
ghost use Rattle.std.specs.Str.{chars, bytes_eq};
ghost use Rattle.rendering_dates.specs.Dates.{dash, side_text, whole_sides, both_pieces, last_side, date_pieces};
ghost use Rattle.rendering_dates.specs.Views.{shape_view};
ghost use Rattle.rendering_page.specs.Pages.{append_normal};
ghost use Rattle.rendering_page.specs.Pieces.{append_pieces};
ghost use Rattle.rendering_page.specs.Views.{quotes_view, manner_view};

use crate::sides::DateStyle;
use literature_values::{Date, DateEnd};
use rendering_page::Page;
use std::alloc::AllocError;

impl<'s, 'a> DateStyle<'s, 'a> {
    /// Appends a date: the parts of the shape that it has, each with its look and its affixes, with the delimiter between any
    /// two, and the year suffix. Of a range that prints its two sides alike the first side is appended, of
    /// another one the first side, the delimiter of the part that is the largest in which they differ, or an en dash, and the last
    /// side, which alone has the year suffix; of a range that has no end yet the first side with the year suffix, and an en dash.
    /// Where the shape merges ranges the two sides print once what they share: the first side ends with its last part that is not
    /// shared, which has no suffix there, the last one begins with its first part that is not shared, which has no prefix there, and
    /// the year suffix stands after the last year that is printed. A day is not shared, a month or a year is if it and the larger
    /// parts are the same and both dates have the next smaller part or neither has. Nothing is promised of the page after an error.
    ///
    /// # Errors
    /// Out of memory alone.
    pub fn push_date(
        &self,
        page: &mut Page<'a>,
        year_suffix: &'a str,
        date: &Date,
    ) -> Result<(), AllocError>
        ensures { OnOk result (page.new ≡ append_pieces (quotes_view self.now.quotes.now)
            (date_pieces self.now.locales.now (manner_view self.now.manner)
            (shape_view self.now.shape) (chars year_suffix.now) date.now) page.old) }
    {
        match date.end {
            None => self.push_side(page, year_suffix, date),
            Some(DateEnd::On { year, month, day }) => {
                self.push_both(page, year_suffix, date, &last_side(date, year, month, day))
            }
            Some(DateEnd::Open) => {
                self.push_side(page, year_suffix, date)?;
                self.push_dash(page)
            }
        }
    }

    /// Appends both sides of a range with what stands between them, or the first alone where they print the same.
    fn push_both(
        &self,
        page: &mut Page<'a>,
        year_suffix: &'a str,
        first: &Date,
        last: &Date,
    ) -> Result<(), AllocError>
        ensures { OnOk result (page.new ≡ append_pieces (quotes_view self.now.quotes.now)
            (both_pieces self.now.locales.now (manner_view self.now.manner)
            (shape_view self.now.shape) (chars year_suffix.now) first.now last.now) page.old) }
    {
        if self.prints_alike(first, last)? {
            return self.push_side(page, year_suffix, first);
        }
        if self.shape.merges_ranges {
            return self.push_merged(page, year_suffix, first, last);
        }
        self.push_whole(page, year_suffix, first, last)
    }

    /// Appends both sides of a range whole, with what stands between them.
    fn push_whole(
        &self,
        page: &mut Page<'a>,
        year_suffix: &'a str,
        first: &Date,
        last: &Date,
    ) -> Result<(), AllocError>
        ensures { OnOk result (page.new ≡ append_pieces (quotes_view self.now.quotes.now)
            (whole_sides self.now.locales.now (manner_view self.now.manner)
            (shape_view self.now.shape) (chars year_suffix.now) first.now last.now) page.old) }
    {
        let delimiter = self.shape.range_delimiter(first, last);
        self.push_side(page, "", first)?;
        page.push_text(self.quotes, self.manner, delimiter)?;
        self.push_side(page, year_suffix, last)
    }

    /// Whether two dates print the same by themselves.
    fn prints_alike(&self, first: &Date, last: &Date) -> Result<bool, AllocError>
        ensures { IfOk result (λ b. b
            ≡ bytes_eq (side_text self.now.locales.now (manner_view self.now.manner)
            (shape_view self.now.shape) first.now) (side_text self.now.locales.now
            (manner_view self.now.manner) (shape_view self.now.shape) last.now)) }
    {
        let alone = DateStyle {
            quotes: &[],
            ..*self
        };
        let mut first_page = Page::new(self.alloc);
        let mut last_page = Page::new(self.alloc);
        alone.push_side(&mut first_page, "", first)?;
        alone.push_side(&mut last_page, "", last)?;
        Ok(first_page.has_text_of(&last_page))
    }

    /// Appends an en dash.
    fn push_dash(&self, page: &mut Page<'a>) -> Result<(), AllocError>
        ensures { OnOk result (page.new ≡ append_normal (quotes_view self.now.quotes.now)
            (manner_view self.now.manner) dash page.old) }
    {
        page.push_text(self.quotes, self.manner, "–")
    }
}

/// What a range ends with, as a date of its own.
fn last_side(date: &Date, year: i32, month: Option<u8>, day: Option<u8>) -> Date
    ensures { result ≡ last_side date.now year month day }
{
    Date {
        year,
        month,
        day,
        end: None,
        ..*date
    }
}
