//! Parts of dates.

ghost use Rattle.std.specs.Prelude.{◌≡◌, ℕ, List, map, IfOk};
ghost use Rattle.std.specs.Option.{option_map};
ghost use Rattle.rendering_locale.specs.Views.{part_view};
ghost use Rattle.rendering_style.specs.Views.{part_change_view};
ghost use Rattle.xml_tree.specs.Trees.{content_of};
ghost use Rattle.xml_tree.specs.Views.{element_view, children_of};
ghost use Rattle.csl_words.specs.Elements.{content_in};
ghost use Rattle.csl_nodes.specs.Dates.{in_form, part_of, named_part, date_part, date_parts, changed_in, change_of, part_change, part_changes};

use crate::looks::{formatting, text_case};
use crate::pushing::push_if;
use csl_words::{
    DATE_PART_NAMES, DAY_FORMS, LENGTHS, MONTH_FORMS, children_of, is_called, is_set, is_true,
    printed, printed_text, value_by,
};
use rendering_locale::DatePart;
use rendering_style::{ChangedDatePart, DatePartChange};
use rendering_taxonomy::DatePartForm;
use std::alloc::{AllocError, Global};
use xml_tree::Element;

/// A part in the form that an element says, if that is one of a day, a month or a year.
fn in_form(element: &Element<'_>, form: DatePartForm) -> DatePartForm
    ensures { result ≡ in_form (element_view element.now) form }
{
    match form {
        DatePartForm::Day(form) => {
            DatePartForm::Day(value_by(DAY_FORMS, "form", element).unwrap_or(form))
        }
        DatePartForm::Month(form) => {
            DatePartForm::Month(value_by(MONTH_FORMS, "form", element).unwrap_or(form))
        }
        DatePartForm::Year(form) => {
            DatePartForm::Year(value_by(LENGTHS, "form", element).unwrap_or(form))
        }
    }
}

/// A part of a date, as an element says how it looks.
fn part_of(alloc: Global, element: &Element<'_>, form: DatePartForm) -> Result<DatePart, AllocError>
    ensures { IfOk result (λ p. part_view p ≡ part_of (element_view element.now) form) }
{
    let prefix = printed_text(alloc, "prefix", element)?;
    let suffix = printed_text(alloc, "suffix", element)?;
    let range_delimiter = printed(alloc, "range-delimiter", element)?;
    Ok(DatePart {
        form: in_form(element, form),
        strip_periods: is_true("strip-periods", element),
        text_case: text_case(element),
        formatting: formatting(element),
        prefix,
        suffix,
        range_delimiter,
    })
}

/// The part of a date that an element names, in the form that it has where nothing else is said.
fn named_part(element: &Element<'_>) -> Option<DatePartForm>
    ensures { result ≡ named_part (element_view element.now) }
{
    if !is_called("date-part", element) {
        return None;
    }
    value_by(DATE_PART_NAMES, "name", element)
}

/// The part of a date that an element is, if it is one.
fn date_part(alloc: Global, element: &Element<'_>) -> Result<Option<DatePart>, AllocError>
    ensures { IfOk result (λ p. option_map part_view p ≡ date_part (element_view element.now)) }
{
    match named_part(element) {
        Some(form) => Ok(Some(part_of(alloc, element, form)?)),
        None => Ok(None),
    }
}

/// The parts of a date among these elements, in their order.
fn parts_among(
    alloc: Global,
    children: &[(String, Element<'_>)],
) -> Result<Vec<DatePart>, AllocError>
    ensures { IfOk result (λ v. (t : List ℕ) → map part_view v.items
        ≡ date_parts (content_of (children_of children.now) t)) }
{
    let mut parts = Vec::new(alloc);
    for child in children {
        let part = date_part(alloc, &child.1)?;
        push_if(&mut parts, part)?;
    }
    Ok(parts)
}

/// The parts of a date in an element, in their order.
///
/// # Errors
/// Where a request for memory was refused.
pub fn date_parts(alloc: Global, element: &Element<'_>) -> Result<Vec<DatePart>, AllocError>
    ensures { IfOk result (λ v. map part_view v.items
        ≡ date_parts (content_in (element_view element.now))) }
{
    parts_among(alloc, children_of(element))
}

/// Which part an element changes, and the form that it says.
fn changed_in(element: &Element<'_>, form: DatePartForm) -> ChangedDatePart
    ensures { result ≡ changed_in (element_view element.now) form }
{
    match form {
        DatePartForm::Day(_) => ChangedDatePart::Day(value_by(DAY_FORMS, "form", element)),
        DatePartForm::Month(_) => ChangedDatePart::Month(value_by(MONTH_FORMS, "form", element)),
        DatePartForm::Year(_) => ChangedDatePart::Year(value_by(LENGTHS, "form", element)),
    }
}

/// What an element changes of a part of a date, but for its affixes.
fn change_of(
    alloc: Global,
    element: &Element<'_>,
    form: DatePartForm,
) -> Result<DatePartChange, AllocError>
    ensures { IfOk result (λ c. part_change_view c ≡ change_of (element_view element.now) form) }
{
    let range_delimiter = printed(alloc, "range-delimiter", element)?;
    Ok(DatePartChange {
        part: changed_in(element, form),
        strip_periods: is_set("strip-periods", element),
        text_case: text_case(element),
        formatting: formatting(element),
        range_delimiter,
    })
}

/// The change of a part of a date that an element is, if it is one.
fn part_change(alloc: Global, element: &Element<'_>) -> Result<Option<DatePartChange>, AllocError>
    ensures { IfOk result (λ c. option_map part_change_view c
        ≡ part_change (element_view element.now)) }
{
    match named_part(element) {
        Some(form) => Ok(Some(change_of(alloc, element, form)?)),
        None => Ok(None),
    }
}

/// The changes of parts of a date among these elements, in their order.
fn changes_among(
    alloc: Global,
    children: &[(String, Element<'_>)],
) -> Result<Vec<DatePartChange>, AllocError>
    ensures { IfOk result (λ v. (t : List ℕ) → map part_change_view v.items
        ≡ part_changes (content_of (children_of children.now) t)) }
{
    let mut changes = Vec::new(alloc);
    for child in children {
        let change = part_change(alloc, &child.1)?;
        push_if(&mut changes, change)?;
    }
    Ok(changes)
}

/// The changes of parts of a date in an element, in their order.
pub(crate) fn part_changes(
    alloc: Global,
    element: &Element<'_>,
) -> Result<Vec<DatePartChange>, AllocError>
    ensures { IfOk result (λ v. map part_change_view v.items
        ≡ part_changes (content_in (element_view element.now))) }
{
    changes_among(alloc, children_of(element))
}
