//! The second of two counts.

ghost use Rattle.std.specs.Prelude.{◌≡◌, ◌++◌, ◌+◌, ◌-◌, ◌%◌, ◌^◌, ◌≤◌, OnOk};
ghost use Rattle.std.specs.Fmt.{decimal};
ghost use Rattle.laws.specs.Text.{characters};
ghost use Rattle.rendering_ranges.specs.Counts.{second_count, shortened};

use crate::digits::{digits, push_digits, push_last};
use crate::formats::printed;
use rendering_taxonomy::PageRangeFormat;
use std::alloc::AllocError;

/// Appends what is printed of the second count in a format.
pub(crate) fn push_second_count(
    out: &mut String,
    first: u32,
    second: u32,
    format: PageRangeFormat,
) -> Result<(), AllocError>
    ensures { OnOk result (characters out.new
        ≡ characters out.old ++ second_count format first second) }
{
    let second_digits = digits(*out.allocator(), u64::from(second))?;
    let whole = lent(first, second, second_digits.len());
    if whole < u64::from(first) {
        return push_digits(out, &second_digits);
    }
    push_shortened(out, first, whole, format)
}

/// The second number, which has so many digits, in place of as many last ones of the first.
fn lent(first: u32, second: u32, count: usize) -> u64
    requires { count ≤ 10 }
    ensures { result ≡ first - first % 10 ^ count + second }
{
    let power = 10u64.pow(count as u32);
    let first = u64::from(first);
    first - first % power + u64::from(second)
}

/// Appends the digits of the second number that are printed.
fn push_shortened(
    out: &mut String,
    first: u32,
    second: u64,
    format: PageRangeFormat,
) -> Result<(), AllocError>
    ensures { OnOk result (characters out.new
        ≡ characters out.old ++ shortened format first (decimal first) (decimal second)) }
{
    let alloc = *out.allocator();
    let first_digits = digits(alloc, u64::from(first))?;
    let second_digits = digits(alloc, second)?;
    let count = printed(format, first, &first_digits, &second_digits);
    push_last(out, &second_digits, count)
}
