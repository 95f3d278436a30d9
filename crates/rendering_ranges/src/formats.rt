//! How many digits each format prints of the second number of a range.

ghost use Rattle.std.specs.Prelude.{◌≡◌};
ghost use Rattle.rendering_ranges.specs.Formats.{chicago, printed};

use crate::digits::{changing, three_of_four};
use rendering_taxonomy::PageRangeFormat;

/// How many digits are printed of the second number.
pub(crate) fn printed(
    format: PageRangeFormat,
    first: u32,
    first_digits: &[char],
    second_digits: &[char],
) -> usize
    ensures { result ≡ printed format first first_digits.now second_digits.now }
{
    match format {
        PageRangeFormat::Expanded => second_digits.len(),
        PageRangeFormat::Minimal => changing(first_digits, second_digits).max(1),
        PageRangeFormat::MinimalTwo => changing(first_digits, second_digits).max(2),
        PageRangeFormat::Chicago15 => {
            let all = three_of_four(first_digits, second_digits);
            chicago(all, first, first_digits, second_digits)
        }
        PageRangeFormat::Chicago16 => chicago(false, first, first_digits, second_digits),
    }
}

/// How many digits are printed of the second number by the Chicago Manual.
fn chicago(all: bool, first: u32, first_digits: &[char], second_digits: &[char]) -> usize
    ensures { result ≡ chicago all first first_digits.now second_digits.now }
{
    if first < 100 || first % 100 == 0 {
        second_digits.len()
    } else if first % 100 < 10 {
        changing(first_digits, second_digits).max(1)
    } else if all {
        second_digits.len()
    } else {
        changing(first_digits, second_digits).max(2)
    }
}
