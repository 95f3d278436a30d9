//! Dates as they print for sorting.

ghost use Rattle.std.specs.Prelude.{◌≡◌, ◌++◌, map, IfOk, OnOk};
ghost use Rattle.rendering_locale.specs.Views.{part_view};
ghost use Rattle.rendering_style.specs.Views.{date_node_view};
ghost use Rattle.sorting_styles.specs.Dates as specs;

use rendering_locale::DatePart;
use rendering_style::Date;
use rendering_taxonomy::{
    DateDayForm, DateMonthForm, DatePartForm, FormattingChanges, LongShortForm,
};
use std::alloc::{AllocError, Global};
use texts::empty_text;

/// A part of a date for which nothing but its form is specified.
fn plain_part(alloc: Global, form: DatePartForm) -> DatePart
    ensures { part_view result ≡ specs.plain_part form }
{
    DatePart {
        form,
        strip_periods: false,
        text_case: None,
        formatting: FormattingChanges::default(),
        prefix: empty_text(alloc),
        suffix: empty_text(alloc),
        range_delimiter: None,
    }
}

/// Whether two forms are of the same part.
fn is_same_part(left: DatePartForm, right: DatePartForm) -> bool
    ensures { result ≡ specs.is_same_part left right }
{
    match left {
        DatePartForm::Day(_) => matches!(right, DatePartForm::Day(_)),
        DatePartForm::Month(_) => matches!(right, DatePartForm::Month(_)),
        DatePartForm::Year(_) => matches!(right, DatePartForm::Year(_)),
    }
}

/// Whether a part is among some.
fn has_part(parts: &[DatePart], form: DatePartForm) -> bool
    ensures { result ≡ specs.has_part (map part_view parts.now) form }
{
    for part in parts {
        if is_same_part(part.form, form) {
            return true;
        }
    }
    false
}

/// Whether a date prints its own parts alone.
fn prints_own(date: &Date) -> bool
    ensures { result ≡ specs.prints_own (date_node_view date.now) }
{
    !date.own_parts.is_empty() || date.form.is_none()
}

/// Whether a date may print a part, before it is cut.
fn may_print(date: &Date, form: DatePartForm) -> bool
    ensures { result ≡ specs.may_print (date_node_view date.now) form }
{
    !prints_own(date) || has_part(&date.own_parts, form)
}

/// Appends a part, if the date may print it.
fn push_part(
    alloc: Global,
    date: &Date,
    form: DatePartForm,
    parts: &mut Vec<DatePart>,
) -> Result<(), AllocError>
    ensures { OnOk result (map part_view parts.new.items
        ≡ map part_view parts.old.items ++ specs.part_if (date_node_view date.now) form) }
{
    if may_print(date, form) {
        parts.push(plain_part(alloc, form))?;
    }
    Ok(())
}

/// The parts of a date for sorting, in their order.
fn sorting_parts(alloc: Global, date: &Date) -> Result<Vec<DatePart>, AllocError>
    ensures { IfOk result (λ v. map part_view v.items
        ≡ specs.sorting_parts (date_node_view date.now)) }
{
    let mut parts = Vec::new(alloc);
    push_part(
        alloc,
        date,
        DatePartForm::Year(LongShortForm::Long),
        &mut parts,
    )?;
    push_part(
        alloc,
        date,
        DatePartForm::Month(DateMonthForm::TwoDigits),
        &mut parts,
    )?;
    push_part(
        alloc,
        date,
        DatePartForm::Day(DateDayForm::TwoDigits),
        &mut parts,
    )?;
    Ok(parts)
}

/// Makes a date print for sorting.
pub(crate) fn change_date(alloc: Global, date: &mut Date) -> Result<(), AllocError>
    ensures { OnOk result (date_node_view date.new
        ≡ specs.sorting_date (date_node_view date.old)) }
{
    let own_parts = sorting_parts(alloc, date)?;
    date.form = None;
    date.own_parts = own_parts;
    date.part_changes = Vec::new(alloc);
    date.delimiter = Some(empty_text(alloc));
    date.merges_ranges = false;
    Ok(())
}
