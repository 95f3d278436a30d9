//! The dates of English.

ghost use Rattle.std.specs.Prelude.{◌≡◌, ◌++◌, map, IfOk, OnOk};
ghost use Rattle.rendering_locale.specs.Views.{part_view, localized_date_view};
ghost use Rattle.cite_styles.specs.Dates.{dates, date, text_parts, numeric_parts};
ghost use Rattle.cite_styles.specs.Rows.{part_row_view};

use rendering_locale::{DatePart, LocalizedDate};
use rendering_taxonomy::{
    DateDayForm, DateForm, DateMonthForm, DatePartForm, FormattingChanges, LongShortForm,
};
use std::alloc::{AllocError, Global};
use texts::{empty_text, owned};

/// A part of a date, and the text after it.
type Row = (DatePartForm, &'static str);

/// The parts of a date in words.
const TEXT: &[Row] = &[
    (DatePartForm::Month(DateMonthForm::Long), " "),
    (DatePartForm::Day(DateDayForm::Numeric), ", "),
    (DatePartForm::Year(LongShortForm::Long), ""),
];

/// The parts of a date in digits.
const NUMERIC: &[Row] = &[
    (DatePartForm::Month(DateMonthForm::TwoDigits), "/"),
    (DatePartForm::Day(DateDayForm::TwoDigits), "/"),
    (DatePartForm::Year(LongShortForm::Long), ""),
];

/// The parts of a date in words.
fn text_parts() -> &'static [Row]
    ensures { map part_row_view result.now ≡ text_parts }
{
    TEXT
}

/// The parts of a date in digits.
fn numeric_parts() -> &'static [Row]
    ensures { map part_row_view result.now ≡ numeric_parts }
{
    NUMERIC
}

/// Both forms of dates.
pub(crate) fn dates(alloc: Global) -> Result<Vec<LocalizedDate>, AllocError>
    ensures { IfOk result (λ v. map localized_date_view v.items ≡ dates) }
{
    let mut dates = Vec::new(alloc);
    dates.push(date(alloc, DateForm::Text, text_parts())?)?;
    dates.push(date(alloc, DateForm::Numeric, numeric_parts())?)?;
    Ok(dates)
}

/// A form of dates.
fn date(alloc: Global, form: DateForm, rows: &[Row]) -> Result<LocalizedDate, AllocError>
    ensures { IfOk result (λ d. localized_date_view d ≡ date form (map part_row_view rows.now)) }
{
    let parts = parts(alloc, rows)?;
    Ok(LocalizedDate {
        form,
        parts,
        delimiter: empty_text(alloc),
    })
}

fn parts(alloc: Global, rows: &[Row]) -> Result<Vec<DatePart>, AllocError>
    ensures { IfOk result (λ v. map part_view v.items ≡ map part_row_view rows.now) }
{
    let mut parts = Vec::new(alloc);
    for row in rows {
        parts.push(part(alloc, row)?)?;
    }
    Ok(parts)
}

fn part(alloc: Global, row: &Row) -> Result<DatePart, AllocError>
    ensures { IfOk result (λ p. part_view p ≡ part_row_view row.now) }
{
    let (form, suffix) = *row;
    let suffix = owned(alloc, suffix)?;
    Ok(DatePart {
        form,
        strip_periods: false,
        text_case: None,
        formatting: FormattingChanges::default(),
        prefix: empty_text(alloc),
        suffix,
        range_delimiter: None,
    })
}
