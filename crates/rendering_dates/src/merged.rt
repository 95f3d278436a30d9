//! Ranges whose sides print once what they share.

ghost use Rattle.std.specs.Prelude.{◌≡◌, OnOk, [], if◌then◌else◌};
ghost use Rattle.std.specs.Str.{chars};
ghost use Rattle.laws.specs.Text.{spelled};
ghost use Rattle.rendering_dates.specs.Dates.{merged_sides};
ghost use Rattle.rendering_dates.specs.Sides.{share_year};
ghost use Rattle.rendering_dates.specs.Views.{first_half_by, last_half_by, shape_view};
ghost use Rattle.rendering_page.specs.Pieces.{append_pieces};
ghost use Rattle.rendering_page.specs.Views.{quotes_view, manner_view};

use crate::apart::share_year;
use crate::sides::DateStyle;
use literature_values::Date;
use rendering_page::Page;
use std::alloc::AllocError;
use texts::no_text;

impl<'s, 'a> DateStyle<'s, 'a> {
    /// Appends both sides of a range, which print once what they share, with what stands between them.
    pub(crate) fn push_merged(
        &self,
        page: &mut Page<'a>,
        year_suffix: &'a str,
        first: &Date,
        last: &Date,
    ) -> Result<(), AllocError>
        ensures { OnOk result (page.new ≡ append_pieces (quotes_view self.now.quotes.now)
            (merged_sides self.now.locales.now (manner_view self.now.manner)
            (shape_view self.now.shape) (chars year_suffix.now) first.now last.now) page.old) }
    {
        let delimiter = self.shape.range_delimiter(first, last);
        self.push_first_half(page, year_suffix, first, last)?;
        page.push_text(self.quotes, self.manner, delimiter)?;
        self.push_last_half(page, year_suffix, first, last)
    }

    /// Appends the first side without what the last one prints for both.
    fn push_first_half(
        &self,
        page: &mut Page<'a>,
        year_suffix: &'a str,
        first: &Date,
        last: &Date,
    ) -> Result<(), AllocError>
        ensures { OnOk result (page.new ≡ append_pieces (quotes_view self.now.quotes.now)
            (first_half_by self.now (chars year_suffix.now) first.now last.now) page.old) }
    {
        let Some((part, before)) = self.shape.last_apart(first, last) else {
            return Ok(());
        };
        let year_suffix = shared_suffix(year_suffix, first, last);
        let is_first = self.push_parts(page, year_suffix, first, true, before)?;
        self.push_next(page, year_suffix, first, is_first, &part)?;
        Ok(())
    }

    /// Appends the last side without what the first one prints for both.
    fn push_last_half(
        &self,
        page: &mut Page<'a>,
        year_suffix: &'a str,
        first: &Date,
        last: &Date,
    ) -> Result<(), AllocError>
        ensures { OnOk result (page.new ≡ append_pieces (quotes_view self.now.quotes.now)
            (last_half_by self.now (chars year_suffix.now) first.now last.now) page.old) }
    {
        let Some((part, after)) = self.shape.first_apart(first, last) else {
            return Ok(());
        };
        let is_first = self.push_next(page, year_suffix, last, true, &part)?;
        self.push_parts(page, year_suffix, last, is_first, after)?;
        Ok(())
    }
}

/// The year suffix of a first side, which has it if its year stands for both sides.
fn shared_suffix<'a>(year_suffix: &'a str, first: &Date, last: &Date) -> &'a str
    ensures { spelled result
        ≡ (if share_year first.now last.now then chars year_suffix.now else []) }
{
    if share_year(first, last) {
        year_suffix
    } else {
        no_text()
    }
}
