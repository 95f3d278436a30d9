//! Whether pages have a text.

ghost use Rattle.std.specs.Prelude.{◌≡◌};
ghost use Rattle.std.specs.Option.{option_map};
ghost use Rattle.laws.specs.Text.{characters, is_filled};
ghost use Rattle.literature_numbers.specs.NumericText.{affix_text, value_text, numeral_text};
ghost use Rattle.literature_numbers.specs.PageViews.{page_part_view, pages_view};
ghost use Rattle.literature_numbers.specs.Pages.{part_text, pages_text};
ghost use Rattle.literature_numbers.specs.Views.{numeric_value_view, numeral_view};

use literature_values::{Numeric, NumericValue, PageRanges, PageRangesPart};
use texts::has_text;

pub(crate) fn have_text(pages: &PageRanges) -> bool
    ensures { result ≡ is_filled (pages_text (pages_view pages.now)) }
{
    for part in &pages.ranges {
        if has_part_text(part) {
            return true;
        }
    }
    false
}

/// Whether a part has a text; separators and ranges do.
fn has_part_text(part: &PageRangesPart) -> bool
    ensures { result ≡ is_filled (part_text (page_part_view part.now)) }
{
    match part {
        PageRangesPart::Ampersand | PageRangesPart::Comma => true,
        PageRangesPart::SinglePage(number) => has_number_text(number),
        PageRangesPart::Range(_, _) => true,
    }
}

/// Whether a number with what stands before and after it has a text.
fn has_number_text(number: &Numeric) -> bool
    ensures { result ≡ is_filled (numeral_text (numeral_view number.now)) }
{
    has_affix_text(&number.prefix)
        || has_value_text(&number.value)
        || has_affix_text(&number.suffix)
}

fn has_affix_text(letters: &Option<String>) -> bool
    ensures { result ≡ is_filled (affix_text (option_map characters letters.now)) }
{
    match letters {
        Some(letters) => has_text(letters.as_str()),
        None => false,
    }
}

/// Whether there is a number.
fn has_value_text(value: &NumericValue) -> bool
    ensures { result ≡ is_filled (value_text (numeric_value_view value.now)) }
{
    match value {
        NumericValue::Number(_) => true,
        NumericValue::Set(numbers) => !numbers.is_empty(),
    }
}
