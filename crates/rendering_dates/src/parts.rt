//! The texts of the parts of a date: words of a locale, which are borrowed, and numbers, which are made.

ghost use Rattle.std.specs.Prelude.{◌≡◌, ◌+◌, [], ◌++◌, false, IfOk, OnOk, pos};
ghost use Rattle.std.specs.Fmt.{decimal};
ghost use Rattle.std.specs.Option.{option_map_or};
ghost use Rattle.date_parts.specs.Written.{padded};
ghost use Rattle.laws.specs.Text.{characters, is_filled};
ghost use Rattle.rendering_dates.specs.Dates.{day_by, is_past_ordinals, month_by, ordinal_day, part_text, year_by};
ghost use Rattle.rendering_dates.specs.Views.{part_text_view};
ghost use Rattle.rendering_locale.specs.Lookup.{ordinals_of, term_text};
ghost use Rattle.rendering_numbers.specs.Numbers.{ordinal_text};

use crate::years::push_year_by;
use literature_values::Date;
use rendering_locale::AskedLocales;
use rendering_numbers::{push_digits, push_ordinal, push_two_digits};
use rendering_taxonomy::{DateDayForm, DateMonthForm, DatePartForm, LongShortForm, Term, TermForm};
use std::alloc::{AllocError, Global};
use texts::{empty_text, has_text};

/// The text of a part of a date.
#[derive(Drop)]
pub(crate) enum PartText<'a> {
    /// The date has no such part.
    Absent,
    /// A word of a locale.
    Word(&'a str),
    /// A number.
    Number(String),
}

impl<'a> PartText<'a> {
    /// Whether the text is not empty.
    pub(crate) fn is_filled(&self) -> bool
        ensures { result ≡ is_filled (part_text_view self.now) }
    {
        match self {
            PartText::Absent => false,
            PartText::Word(word) => has_text(*word),
            PartText::Number(number) => has_text(number.as_str()),
        }
    }
}

pub(crate) fn part_text<'a>(
    alloc: Global,
    locales: &AskedLocales<'a>,
    date: &Date,
    form: DatePartForm,
) -> Result<PartText<'a>, AllocError>
    ensures { IfOk result (λ t. part_text_view t ≡ part_text locales.now date.now form) }
{
    match form {
        DatePartForm::Day(form) => day_text(alloc, locales, form, date.day),
        DatePartForm::Month(form) => month_text(alloc, locales, form, date.month),
        DatePartForm::Year(form) => year_text(alloc, locales, form, date.year),
    }
}

/// The text of a day, which counts from zero.
fn day_text<'a>(
    alloc: Global,
    locales: &AskedLocales<'a>,
    form: DateDayForm,
    day: Option<u8>,
) -> Result<PartText<'a>, AllocError>
    ensures { IfOk result (λ t. part_text_view t ≡ option_map_or (day_by locales.now form) day []) }
{
    let Some(day) = day else {
        return Ok(PartText::Absent);
    };
    match form {
        DateDayForm::Numeric => counted(alloc, day),
        DateDayForm::TwoDigits => counted_in_two_digits(alloc, day),
        DateDayForm::Ordinal => ordinal_day(alloc, locales, day),
    }
}

/// Whether a day, which counts from zero, is no ordinal number: one after the first, where of the days only the first is one.
fn is_past_ordinals(locales: &AskedLocales, day: u8) -> bool
    ensures { result ≡ is_past_ordinals locales.now day }
{
    day != 0 && locales.limits_day_ordinals()
}

/// A day, which counts from zero, as an ordinal number, or in digits alone where it is none.
fn ordinal_day<'a>(
    alloc: Global,
    locales: &AskedLocales<'a>,
    day: u8,
) -> Result<PartText<'a>, AllocError>
    ensures { IfOk result (λ t. part_text_view t ≡ ordinal_day locales.now day) }
{
    if is_past_ordinals(locales, day) {
        counted(alloc, day)
    } else {
        counted_with_ending(alloc, locales, day)
    }
}

/// The text of a month, which counts from zero.
fn month_text<'a>(
    alloc: Global,
    locales: &AskedLocales<'a>,
    form: DateMonthForm,
    month: Option<u8>,
) -> Result<PartText<'a>, AllocError>
    ensures { IfOk result (λ t. part_text_view t
        ≡ option_map_or (month_by locales.now form) month []) }
{
    let Some(month) = month else {
        return Ok(PartText::Absent);
    };
    match form {
        DateMonthForm::Long => Ok(month_word(locales, TermForm::Long, month)),
        DateMonthForm::Short => Ok(month_word(locales, TermForm::Short, month)),
        DateMonthForm::Numeric => counted(alloc, month),
        DateMonthForm::TwoDigits => counted_in_two_digits(alloc, month),
    }
}

/// The locale's word for a month.
fn month_word<'a>(locales: &AskedLocales<'a>, form: TermForm, month: u8) -> PartText<'a>
    ensures { part_text_view result
        ≡ term_text locales.now (Term.Month month) form false }
{
    PartText::Word(locales.term_text(Term::Month(month), form, false))
}

fn year_text<'a>(
    alloc: Global,
    locales: &AskedLocales<'a>,
    form: LongShortForm,
    year: i32,
) -> Result<PartText<'a>, AllocError>
    ensures { IfOk result (λ t. part_text_view t ≡ year_by locales.now form year) }
{
    let mut text = empty_text(alloc);
    push_year_by(&mut text, locales, form, year)?;
    Ok(PartText::Number(text))
}

/// A number that counts from zero, as it counts from one.
fn counted<'a>(alloc: Global, number: u8) -> Result<PartText<'a>, AllocError>
    ensures { IfOk result (λ t. part_text_view t ≡ decimal (number + 1)) }
{
    let mut text = empty_text(alloc);
    push_digits(&mut text, u32::from(number) + 1)?;
    Ok(PartText::Number(text))
}

/// A number that counts from zero, as it counts from one, in two digits or more.
fn counted_in_two_digits<'a>(alloc: Global, number: u8) -> Result<PartText<'a>, AllocError>
    ensures { IfOk result (λ t. part_text_view t ≡ padded 2 (number + 1)) }
{
    let mut text = empty_text(alloc);
    push_two_digits(&mut text, u32::from(number) + 1)?;
    Ok(PartText::Number(text))
}

/// A number that counts from zero, as an ordinal number that counts from one.
fn counted_with_ending<'a>(
    alloc: Global,
    locales: &AskedLocales<'a>,
    number: u8,
) -> Result<PartText<'a>, AllocError>
    ensures { IfOk result (λ t. part_text_view t
        ≡ ordinal_text (ordinals_of locales.now) (pos (number + 1))) }
{
    let mut text = empty_text(alloc);
    push_with_ending(&mut text, locales, u16::from(number) + 1)?;
    Ok(PartText::Number(text))
}

/// Appends a number and the ending that the locales give it. Without endings it is in digits alone.
fn push_with_ending(out: &mut String, locales: &AskedLocales, number: u16) -> Result<(), AllocError>
    ensures { OnOk result (characters out.new
        ≡ characters out.old ++ ordinal_text (ordinals_of locales.now) (pos number)) }
{
    match locales.ordinals() {
        Some(ordinals) => push_ordinal(out, ordinals, i32::from(number)),
        None => push_digits(out, u32::from(number)),
    }
}
