//! The values by which items are sorted where a key is a variable.

ghost use Rattle.std.specs.Prelude.{◌≡◌, ◌++◌, map, IfOk, OnOk};
ghost use Rattle.std.specs.Option.{option_map};
ghost use Rattle.std.specs.Str.{chars};
ghost use Rattle.laws.specs.Text.{characters};
ghost use Rattle.literature_numbers.specs.Numerics.{numbers_in};
ghost use Rattle.literature_numbers.specs.PageViews.{pages_view};
ghost use Rattle.literature_numbers.specs.Pages.{first_number};
ghost use Rattle.literature_numbers.specs.Views.{numeral_view, numeric_value_view};
ghost use Rattle.literature_values.specs.TextViews.{chunk_view};
ghost use Rattle.rendering_context.specs.Views.{answer_view};
ghost use Rattle.rendering_entries.specs.Library.{characters_of};
ghost use Rattle.rendering_sorting.specs.Values.{day_numbers, end_numbers, of_answer, of_date, of_numeral, of_text, part_or_zero};
ghost use Rattle.rendering_sorting.specs.Views.{value_view};

use crate::key::SortValue;
use collation::CollationKey;
use literature_numbers::NumericDelimiter;
use literature_values::{
    Date, DateEnd, MaybeTyped, Numeric, NumericValue, PageRanges, StringChunk,
};
use rendering_context::Answer;
use std::alloc::{AllocError, Global};
use texts::{empty_text, push_text};

/// The value of a text, where there is something in its key.
pub(crate) fn text_value(alloc: Global, text: &str) -> Result<Option<SortValue>, AllocError>
    ensures { IfOk result (λ v. option_map value_view v ≡ of_text (chars text.now)) }
{
    let key = CollationKey::new(alloc, text)?;
    if key.is_empty() {
        Ok(None)
    } else {
        Ok(Some(SortValue::Text(key)))
    }
}

/// The value of an answer, where it has one.
pub(crate) fn value_of_answer(
    alloc: Global,
    answer: &Answer<'_>,
) -> Result<Option<SortValue>, AllocError>
    ensures { IfOk result (λ v. option_map value_view v ≡ of_answer (answer_view answer.now)) }
{
    match answer {
        Answer::Text(text) => pieces_value(alloc, text.0.as_slice()),
        Answer::YearSuffix(text) => text_value(alloc, text),
        Answer::Address { text, url: _ } => text_value(alloc, text.as_str()),
        Answer::Number(MaybeTyped::Typed(number)) => Ok(Some(numeral_value(alloc, number)?)),
        Answer::Number(MaybeTyped::String(text)) => text_value(alloc, text.as_str()),
        Answer::Locator(text) => text_value(alloc, text),
        Answer::Pages(MaybeTyped::Typed(pages)) => pages_value(alloc, pages),
        Answer::Pages(MaybeTyped::String(text)) => text_value(alloc, text.as_str()),
        Answer::Transparent => Ok(None),
    }
}

/// The value of a text in pieces.
fn pieces_value(alloc: Global, pieces: &[StringChunk]) -> Result<Option<SortValue>, AllocError>
    ensures { IfOk result (λ v. option_map value_view v
        ≡ of_text (characters_of (map chunk_view pieces.now))) }
{
    let mut text = empty_text(alloc);
    push_pieces(&mut text, pieces)?;
    text_value(alloc, text.as_str())
}

/// Appends the texts of pieces.
fn push_pieces(text: &mut String, pieces: &[StringChunk]) -> Result<(), AllocError>
    ensures { OnOk result (characters text.new
        ≡ characters text.old ++ characters_of (map chunk_view pieces.now)) }
{
    for piece in pieces {
        push_text(text, piece.value.as_str())?;
    }
    Ok(())
}

/// The value of the first of pages, where there is one.
fn pages_value(alloc: Global, pages: &PageRanges) -> Result<Option<SortValue>, AllocError>
    ensures { IfOk result (λ v. option_map value_view v
        ≡ option_map of_numeral (first_number (pages_view pages.now))) }
{
    match pages.first() {
        Some(first) => Ok(Some(numeral_value(alloc, first)?)),
        None => Ok(None),
    }
}

/// The value of a numeral.
fn numeral_value(alloc: Global, numeral: &Numeric) -> Result<SortValue, AllocError>
    ensures { IfOk result (λ v. value_view v ≡ of_numeral (numeral_view numeral.now)) }
{
    Ok(SortValue::Numbers(numbers(alloc, &numeral.value)?))
}

/// The numbers of a numeral.
fn numbers(alloc: Global, value: &NumericValue) -> Result<Vec<i64>, AllocError>
    ensures { IfOk result (λ v. v.items ≡ numbers_in (numeric_value_view value.now)) }
{
    match value {
        NumericValue::Number(number) => Ok(vec![in alloc; *number as i64]?),
        NumericValue::Set(numbers) => first_parts(alloc, numbers.as_slice()),
    }
}

/// The numbers of a set.
fn first_parts(
    alloc: Global,
    numbers: &[(i32, Option<NumericDelimiter>)],
) -> Result<Vec<i64>, AllocError>
    ensures { IfOk result (λ v. v.items ≡ map (λ n. n.0) numbers.now) }
{
    let mut all = Vec::with_capacity(alloc, numbers.len())?;
    for (number, _) in numbers {
        all.push(*number as i64)?;
    }
    Ok(all)
}

/// The value of a date.
pub(crate) fn date_value(alloc: Global, date: &Date) -> Result<SortValue, AllocError>
    ensures { IfOk result (λ v. value_view v ≡ of_date date.now) }
{
    let mut numbers = Vec::new(alloc);
    push_day(&mut numbers, date.year, date.month, date.day)?;
    push_end(&mut numbers, date.end)?;
    Ok(SortValue::Numbers(numbers))
}

/// Appends year, month and day.
fn push_day(
    numbers: &mut Vec<i64>,
    year: i32,
    month: Option<u8>,
    day: Option<u8>,
) -> Result<(), AllocError>
    ensures { OnOk result (numbers.new.items ≡ numbers.old.items ++ day_numbers year month day) }
{
    numbers.push(year as i64)?;
    numbers.push(part_or_zero(month))?;
    numbers.push(part_or_zero(day))?;
    Ok(())
}

/// Appends the end of a range of dates.
fn push_end(numbers: &mut Vec<i64>, end: Option<DateEnd>) -> Result<(), AllocError>
    ensures { OnOk result (numbers.new.items ≡ numbers.old.items ++ end_numbers end) }
{
    match end {
        Some(DateEnd::On { year, month, day }) => push_day(numbers, year, month, day),
        Some(DateEnd::Open) => Ok(()),
        None => Ok(()),
    }
}

/// A month or a day, counted from one; zero where there is none.
fn part_or_zero(part: Option<u8>) -> i64
    ensures { result ≡ part_or_zero part }
{
    match part {
        Some(part) => part as i64 + 1,
        None => 0,
    }
}
