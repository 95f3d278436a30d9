//! What the sides of a range share, and the parts that each of them prints.

ghost use Rattle.std.specs.Prelude.{◌≡◌, ◌&&◌, [], ◌∷◌, ◌++◌, map};
ghost use Rattle.std.specs.Option.{option_map_or};
ghost use Rattle.rendering_locale.specs.Views.{part_view};
ghost use Rattle.rendering_dates.specs.Dates.{is_within};
ghost use Rattle.rendering_dates.specs.Sides.{has_part, is_apart, share, share_month, share_year, first_parts, last_parts, without_prefix, without_suffix};
ghost use Rattle.rendering_dates.specs.Views.{changed_by, printed_by, printed_view, shape_view};

use crate::changes::{PrintedPart, printed_part};
use crate::delimiters::{is_same_month, is_same_year};
use crate::shape::{DateShape, is_within};
use literature_values::Date;
use rendering_locale::DatePart;
use rendering_taxonomy::DatePartForm;
use texts::no_text;

impl<'a> DateShape<'a> {
    /// The last part of the first side of a range that the sides do not share, without its suffix, and the parts before it. The first
    /// side prints these.
    pub(crate) fn last_apart(
        &self,
        first: &Date,
        last: &Date,
    ) -> Option<(PrintedPart<'a>, &'a [DatePart])>
        ensures { printed_by self.now (option_map_or (λ r.
            changed_by self.now (map part_view r.1.now) ++ printed_view r.0 ∷ []) result [])
            ≡ first_parts first.now last.now (shape_view self.now).parts }
    {
        let mut rest = self.parts;
        while let Some((part, before)) = rest.split_last() {
            let printed = printed_part(part, self.changes);
            if self.prints_apart(first, last, printed.form) {
                return Some((without_suffix(printed), before));
            }
            rest = before;
        }
        None
    }

    /// The first part of the last side of a range that the sides do not share, without its prefix, and the parts after it. The last
    /// side prints these.
    pub(crate) fn first_apart(
        &self,
        first: &Date,
        last: &Date,
    ) -> Option<(PrintedPart<'a>, &'a [DatePart])>
        ensures { printed_by self.now (option_map_or (λ r.
            printed_view r.0 ∷ changed_by self.now (map part_view r.1.now)) result [])
            ≡ last_parts first.now last.now (shape_view self.now).parts }
    {
        let mut rest = self.parts;
        while let Some((part, after)) = rest.split_first() {
            let printed = printed_part(part, self.changes);
            if self.prints_apart(last, first, printed.form) {
                return Some((without_prefix(printed), after));
            }
            rest = after;
        }
        None
    }

    /// Whether a part is printed, and a side of a range does not share it with the other side.
    fn prints_apart(&self, date: &Date, other: &Date, form: DatePartForm) -> bool
        ensures { result ≡ (is_within self.now.cut form && is_apart date.now other.now form) }
    {
        is_within(self.cut, form) && is_apart(date, other, form)
    }
}

/// A part without what stands before it.
fn without_prefix(part: PrintedPart<'_>) -> PrintedPart<'_>
    ensures { printed_view result ≡ without_prefix (printed_view part.entry) }
{
    PrintedPart {
        prefix: no_text(),
        ..part
    }
}

/// A part without what stands after it.
fn without_suffix(part: PrintedPart<'_>) -> PrintedPart<'_>
    ensures { printed_view result ≡ without_suffix (printed_view part.entry) }
{
    PrintedPart {
        suffix: no_text(),
        ..part
    }
}

/// Whether a side of a range has a part that it does not share with the other side.
fn is_apart(date: &Date, other: &Date, form: DatePartForm) -> bool
    ensures { result ≡ is_apart date.now other.now form }
{
    has_part(date, form) && !share(date, other, form)
}

fn has_part(date: &Date, form: DatePartForm) -> bool
    ensures { result ≡ has_part date.now form }
{
    match form {
        DatePartForm::Year(_) => true,
        DatePartForm::Month(_) => date.month.is_some(),
        DatePartForm::Day(_) => date.day.is_some(),
    }
}

/// Whether one part stands for both dates.
fn share(date: &Date, other: &Date, form: DatePartForm) -> bool
    ensures { result ≡ share date.now other.now form }
{
    match form {
        DatePartForm::Year(_) => share_year(date, other),
        DatePartForm::Month(_) => share_month(date, other),
        DatePartForm::Day(_) => false,
    }
}

/// Whether one year stands for both dates.
pub(crate) fn share_year(date: &Date, other: &Date) -> bool
    ensures { result ≡ share_year date.now other.now }
{
    is_same_year(date, other) && date.month.is_some() == other.month.is_some()
}

/// Whether one month stands for both dates.
fn share_month(date: &Date, other: &Date) -> bool
    ensures { result ≡ share_month date.now other.now }
{
    share_year(date, other)
        && is_same_month(date, other)
        && date.day.is_some() == other.day.is_some()
}
