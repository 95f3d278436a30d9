//! The words of parts of dates.

use crate::styles::terms::form_of;
use cases::{Session, Value};
use csl_words::LENGTHS;
use rendering_style::ChangedDatePart;
use rendering_taxonomy::{DateDayForm, DateMonthForm, DatePartForm};

const MONTHS: &[(&str, DateMonthForm)] = &[
    ("long", DateMonthForm::Long),
    ("short", DateMonthForm::Short),
    ("numeric", DateMonthForm::Numeric),
    ("two-digits", DateMonthForm::TwoDigits),
];

const DAYS: &[(&str, DateDayForm)] = &[
    ("numeric", DateDayForm::Numeric),
    ("two-digits", DateDayForm::TwoDigits),
    ("ordinal", DateDayForm::Ordinal),
];

/// The name of a part of a date.
fn part_name<'v>(session: &mut Session, part: &Value<'v>) -> &'v str {
    let name = session.text(part, "name");
    if !matches!(name, "year" | "month" | "day") {
        session.want("name", "year, month or day");
    }
    name
}

pub(crate) fn part_form(session: &mut Session, part: &Value<'_>) -> DatePartForm {
    match part_name(session, part) {
        "month" => {
            let form = session.word_or(part, "form", MONTHS, DateMonthForm::Long);
            DatePartForm::Month(form)
        }
        "day" => {
            let form = session.word_or(part, "form", DAYS, DateDayForm::Numeric);
            DatePartForm::Day(form)
        }
        _ => DatePartForm::Year(form_of(session, part)),
    }
}

/// The part that a change is of, and the form that the part gets, if one is given.
pub(crate) fn changed_part(session: &mut Session, change: &Value<'_>) -> ChangedDatePart {
    match part_name(session, change) {
        "month" => ChangedDatePart::Month(session.maybe_word(change, "form", MONTHS)),
        "day" => ChangedDatePart::Day(session.maybe_word(change, "form", DAYS)),
        _ => ChangedDatePart::Year(session.maybe_word(change, "form", LENGTHS)),
    }
}
