//! What stands between the two sides of a range.

ghost use Rattle.std.specs.Prelude.{◌≡◌, ◌&&◌};
ghost use Rattle.std.specs.List.{find};
ghost use Rattle.std.specs.Option.{option_and_then, option_map};
ghost use Rattle.laws.specs.Text.{spelled};
ghost use Rattle.rendering_dates.specs.Dates.{differs_first, is_within, range_delimiter};
ghost use Rattle.rendering_dates.specs.Sides.{is_same_year, is_same_month};
ghost use Rattle.rendering_dates.specs.Views.{shape_view};

use crate::changes::printed_part;
use crate::shape::{DateShape, is_within};
use literature_values::Date;
use rendering_taxonomy::DatePartForm;

impl<'a> DateShape<'a> {
    /// What stands between the sides of a range: the delimiter of the part that is the largest in which they differ, or an en dash.
    pub(crate) fn range_delimiter(&self, first: &Date, last: &Date) -> &'a str
        ensures { spelled result
            ≡ range_delimiter first.now last.now (shape_view self.now).parts }
    {
        match self.own_delimiter(first, last) {
            Some(delimiter) => delimiter,
            None => "–",
        }
    }

    /// The delimiter of the part that is the largest in which two dates differ, if it has one.
    fn own_delimiter(&self, first: &Date, last: &Date) -> Option<&'a str>
        ensures { option_map spelled result ≡ option_and_then (λ p. p.range_delimiter)
            (find (λ p. differs_first first.now last.now p.form) (shape_view self.now).parts) }
    {
        for part in self.parts {
            let printed = printed_part(part, self.changes);
            if self.shows_first(first, last, printed.form) {
                return printed.range_delimiter;
            }
        }
        None
    }

    /// Whether a part is printed, and is the largest in which two dates differ.
    fn shows_first(&self, first: &Date, last: &Date, form: DatePartForm) -> bool
        ensures { result
            ≡ (is_within self.now.cut form && differs_first first.now last.now form) }
    {
        is_within(self.cut, form) && differs_first(first, last, form)
    }
}

/// Whether a part is the largest in which two dates differ, if they differ.
fn differs_first(first: &Date, last: &Date, form: DatePartForm) -> bool
    ensures { result ≡ differs_first first.now last.now form }
{
    match form {
        DatePartForm::Year(_) => !is_same_year(first, last),
        DatePartForm::Month(_) => is_same_year(first, last) && !is_same_month(first, last),
        DatePartForm::Day(_) => is_same_year(first, last) && is_same_month(first, last),
    }
}

/// Whether two dates are of one year.
pub(crate) fn is_same_year(first: &Date, last: &Date) -> bool
    ensures { result ≡ is_same_year first.now last.now }
{
    first.year == last.year
}

/// Whether two dates are of one month, whatever their years are, or both of none.
pub(crate) fn is_same_month(first: &Date, last: &Date) -> bool
    ensures { result ≡ is_same_month first.now last.now }
{
    first.month == last.month
}
