//! Parts of dates as they are printed: with what is changed of them.

ghost use Rattle.std.specs.Prelude.{◌≡◌, map};
ghost use Rattle.std.specs.List.{find};
ghost use Rattle.std.specs.Option.{option_map};
ghost use Rattle.rendering_locale.specs.Views.{part_view};
ghost use Rattle.rendering_style.specs.Views.{part_change_view};
ghost use Rattle.rendering_taxonomy.specs.Views.{changes_view};
ghost use Rattle.rendering_dates.specs.Changes.{is_of, form_with, looks_with, part_with, changed_part};
ghost use Rattle.rendering_dates.specs.Views.{printed_view};

use rendering_locale::DatePart;
use rendering_style::{ChangedDatePart, DatePartChange};
use rendering_taxonomy::{DatePartForm, FormattingChanges, TextCase};
use texts::{borrowed_text, first_text};

/// A part of a date as it is printed.
#[derive(Clone, Copy)]
pub(crate) struct PrintedPart<'a> {
    pub(crate) form: DatePartForm,
    pub(crate) strip_periods: bool,
    pub(crate) text_case: Option<TextCase>,
    pub(crate) formatting: FormattingChanges,
    pub(crate) prefix: &'a str,
    pub(crate) suffix: &'a str,
    pub(crate) range_delimiter: Option<&'a str>,
}

/// A part with the first of these changes that is of it, if there is one.
pub(crate) fn printed_part<'a>(part: &'a DatePart, changes: &'a [DatePartChange]) -> PrintedPart<'a>
    ensures { printed_view result
        ≡ changed_part (map part_change_view changes.now) (part_view part.now) }
{
    match change_of(part.form, changes) {
        Some(change) => part_with(change, part),
        None => unchanged(part),
    }
}

/// The first change of a part.
fn change_of(form: DatePartForm, changes: &[DatePartChange]) -> Option<&DatePartChange>
    ensures { option_map (λ c. part_change_view c.now) result
        ≡ find (λ c. is_of form c.part) (map part_change_view changes.now) }
{
    for change in changes {
        if is_of(form, change.part) {
            return Some(change);
        }
    }
    None
}

/// Whether a change is of a part.
fn is_of(form: DatePartForm, changed: ChangedDatePart) -> bool
    ensures { result ≡ is_of form changed }
{
    match form {
        DatePartForm::Day(_) => matches!(changed, ChangedDatePart::Day(_)),
        DatePartForm::Month(_) => matches!(changed, ChangedDatePart::Month(_)),
        DatePartForm::Year(_) => matches!(changed, ChangedDatePart::Year(_)),
    }
}

/// A part as it is.
fn unchanged(part: &DatePart) -> PrintedPart<'_>
    ensures { printed_view result ≡ part_view part.now }
{
    PrintedPart {
        form: part.form,
        strip_periods: part.strip_periods,
        text_case: part.text_case,
        formatting: part.formatting,
        prefix: part.prefix.as_str(),
        suffix: part.suffix.as_str(),
        range_delimiter: borrowed_text(&part.range_delimiter),
    }
}

/// A part with a change of it. What the change leaves open stays, and so do the affixes.
fn part_with<'a>(change: &'a DatePartChange, part: &'a DatePart) -> PrintedPart<'a>
    ensures { printed_view result ≡ part_with (part_change_view change.now) (part_view part.now) }
{
    PrintedPart {
        form: form_with(change.part, part.form),
        strip_periods: change.strip_periods.unwrap_or(part.strip_periods),
        text_case: change.text_case.or(part.text_case),
        formatting: looks_with(change.formatting, part.formatting),
        prefix: part.prefix.as_str(),
        suffix: part.suffix.as_str(),
        range_delimiter: first_text(
            borrowed_text(&change.range_delimiter),
            borrowed_text(&part.range_delimiter),
        ),
    }
}

/// The form of a part, or another one if a change of the part says it.
fn form_with(changed: ChangedDatePart, own: DatePartForm) -> DatePartForm
    ensures { result ≡ form_with changed own }
{
    match (changed, own) {
        (ChangedDatePart::Day(form), DatePartForm::Day(own)) => {
            DatePartForm::Day(form.unwrap_or(own))
        }
        (ChangedDatePart::Month(form), DatePartForm::Month(own)) => {
            DatePartForm::Month(form.unwrap_or(own))
        }
        (ChangedDatePart::Year(form), DatePartForm::Year(own)) => {
            DatePartForm::Year(form.unwrap_or(own))
        }
        (ChangedDatePart::Day(_), DatePartForm::Month(_) | DatePartForm::Year(_))
        | (ChangedDatePart::Month(_), DatePartForm::Day(_) | DatePartForm::Year(_))
        | (ChangedDatePart::Year(_), DatePartForm::Day(_) | DatePartForm::Month(_)) => own,
    }
}

/// What the first specifies for the look of characters, and else what the second does.
fn looks_with(changes: FormattingChanges, own: FormattingChanges) -> FormattingChanges
    ensures { changes_view result ≡ looks_with (changes_view changes) (changes_view own) }
{
    FormattingChanges {
        font_style: changes.font_style.or(own.font_style),
        font_variant: changes.font_variant.or(own.font_variant),
        font_weight: changes.font_weight.or(own.font_weight),
        text_decoration: changes.text_decoration.or(own.text_decoration),
        vertical_align: changes.vertical_align.or(own.vertical_align),
    }
}
