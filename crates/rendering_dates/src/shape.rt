//! Which parts of a date are printed.

ghost use Rattle.std.specs.Prelude.{◌≡◌};
ghost use Rattle.rendering_dates.specs.Dates.{is_within};

use rendering_locale::DatePart;
use rendering_style::DatePartChange;
use rendering_taxonomy::{DatePartForm, DateParts};

/// The parts of a date to print, and what stands between them.
#[derive(Clone, Copy)]
pub struct DateShape<'a> {
    /// The parts in the order in which they are printed.
    pub parts: &'a [DatePart],
    /// What is changed of the parts. Of several changes of a part the first counts.
    pub changes: &'a [DatePartChange],
    /// How much of a date is printed. A part that is finer is left out.
    pub cut: DateParts,
    /// The text between two parts that are printed.
    pub delimiter: &'a str,
    /// Whether the sides of a range print once what they share, as in `3–6 May 2014`.
    pub merges_ranges: bool,
}

/// Whether a part is printed where only so much of a date is.
pub(crate) fn is_within(cut: DateParts, form: DatePartForm) -> bool
    ensures { result ≡ is_within cut form }
{
    match (cut, form) {
        (DateParts::YearMonthDay, _) => true,
        (DateParts::YearMonth, DatePartForm::Day(_)) => false,
        (DateParts::YearMonth, DatePartForm::Month(_) | DatePartForm::Year(_)) => true,
        (DateParts::Year, DatePartForm::Day(_) | DatePartForm::Month(_)) => false,
        (DateParts::Year, DatePartForm::Year(_)) => true,
    }
}
