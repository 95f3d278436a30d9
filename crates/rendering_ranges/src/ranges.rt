//! Pages and ranges of pages in a format.

ghost use Rattle.std.specs.Prelude.{◌≡◌, ◌++◌, OnOk, Some};
ghost use Rattle.std.specs.List.{flat_map};
ghost use Rattle.laws.specs.Text.{characters};
ghost use Rattle.literature_numbers.specs.NumericText.{delimiter_text, numeral_text};
ghost use Rattle.literature_numbers.specs.PageViews.{page_part_view, pages_view};
ghost use Rattle.literature_numbers.specs.Pages.{Range, part_text};
ghost use Rattle.literature_numbers.specs.Views.{numeral_view, numeric_value_view};
ghost use Rattle.rendering_ranges.specs.Ranges.{count_in, count_of, pages_in, part_in, second_text};

use crate::counts::push_second_count;
use literature_numbers::{Numeric, NumericDelimiter, NumericValue, PageRanges, PageRangesPart};
use rendering_taxonomy::PageRangeFormat;
use std::alloc::AllocError;
use std::fmt::Write;

/// Appends pages and ranges of pages, the second number of each range in the format, where there is one.
///
/// # Errors
/// Out of memory alone.
pub fn push_ranges(
    out: &mut String,
    pages: &PageRanges,
    format: Option<PageRangeFormat>,
) -> Result<(), AllocError>
    ensures { OnOk result (characters out.new
        ≡ characters out.old ++ pages_in format (pages_view pages.now)) }
{
    push_parts(out, &pages.ranges, format)
}

/// Appends pages and ranges of pages with what stands between them.
fn push_parts(
    out: &mut String,
    parts: &[PageRangesPart],
    format: Option<PageRangeFormat>,
) -> Result<(), AllocError>
    ensures { OnOk result (characters out.new
        ≡ characters out.old ++ flat_map (λ p. part_in format (page_part_view p)) parts.now) }
{
    for part in parts {
        push_part(out, part, format)?;
    }
    Ok(())
}

/// Appends a page, a range of pages, or what stands between them.
fn push_part(
    out: &mut String,
    part: &PageRangesPart,
    format: Option<PageRangeFormat>,
) -> Result<(), AllocError>
    ensures { OnOk result (characters out.new
        ≡ characters out.old ++ part_in format (page_part_view part.now)) }
{
    match format {
        None => push_whole(out, part),
        Some(format) => push_formatted(out, part, format),
    }
}

/// Appends a part with its numbers as they are.
fn push_whole(out: &mut String, part: &PageRangesPart) -> Result<(), AllocError>
    ensures { OnOk result (characters out.new
        ≡ characters out.old ++ part_text (page_part_view part.now)) }
{
    write!(out, "{part}")
}

/// Appends a part, the second number of a range in the format.
fn push_formatted(
    out: &mut String,
    part: &PageRangesPart,
    format: PageRangeFormat,
) -> Result<(), AllocError>
    ensures { OnOk result (characters out.new
        ≡ characters out.old ++ part_in (Some format) (page_part_view part.now)) }
{
    match part {
        PageRangesPart::Range(first, second) => push_range(out, first, second, format),
        PageRangesPart::Ampersand | PageRangesPart::Comma | PageRangesPart::SinglePage(_) => {
            push_whole(out, part)
        }
    }
}

/// Appends a range of pages, its second number in the format.
fn push_range(
    out: &mut String,
    first: &Numeric,
    second: &Numeric,
    format: PageRangeFormat,
) -> Result<(), AllocError>
    ensures { OnOk result (characters out.new ≡ characters out.old
        ++ part_in (Some format) (Range (numeral_view first.now) (numeral_view second.now))) }
{
    push_number(out, first)?;
    push_delimiter(out, NumericDelimiter::Hyphen)?;
    push_second(out, first, second, format)
}

/// Appends the second number of a range in the format: shortened, where it and the first one are counts without letters,
/// and as it is else.
///
/// # Errors
/// Out of memory alone.
pub fn push_second(
    out: &mut String,
    first: &Numeric,
    second: &Numeric,
    format: PageRangeFormat,
) -> Result<(), AllocError>
    ensures { OnOk result (characters out.new ≡ characters out.old
        ++ second_text format (numeral_view first.now) (numeral_view second.now)) }
{
    let Some(first) = count_of(first) else {
        return push_number(out, second);
    };
    let Some(last) = count_of(second) else {
        return push_number(out, second);
    };
    push_second_count(out, first, last, format)
}

/// The count that a number is, where it is one.
fn count_of(number: &Numeric) -> Option<u32>
    ensures { result ≡ count_of (numeral_view number.now) }
{
    if let Some(_) = &number.prefix {
        return None;
    }
    if let Some(_) = &number.suffix {
        return None;
    }
    count_in(&number.value)
}

/// The count that a value is: one number, not below nought.
fn count_in(value: &NumericValue) -> Option<u32>
    ensures { result ≡ count_in (numeric_value_view value.now) }
{
    match value {
        NumericValue::Number(number) if *number >= 0 => Some(number.unsigned_abs()),
        NumericValue::Number(_) | NumericValue::Set(_) => None,
    }
}

/// Appends a number as it is.
fn push_number(out: &mut String, number: &Numeric) -> Result<(), AllocError>
    ensures { OnOk result (characters out.new
        ≡ characters out.old ++ numeral_text (numeral_view number.now)) }
{
    write!(out, "{number}")
}

fn push_delimiter(out: &mut String, delimiter: NumericDelimiter) -> Result<(), AllocError>
    ensures { OnOk result (characters out.new ≡ characters out.old ++ delimiter_text delimiter) }
{
    write!(out, "{delimiter}")
}
