//! Numbers in digits.

ghost use Rattle.std.specs.Prelude.{◌≡◌, ◌++◌, OnOk};
ghost use Rattle.std.specs.Fmt.{decimal, signed_decimal};
ghost use Rattle.date_parts.specs.Written.{padded};
ghost use Rattle.laws.specs.Text.{characters};

use std::alloc::AllocError;
use std::fmt::Write;

/// Appends a number in digits.
///
/// # Errors
/// Out of memory alone.
pub fn push_digits(out: &mut String, number: u32) -> Result<(), AllocError>
    ensures { OnOk result (characters out.new ≡ characters out.old ++ decimal number) }
{
    write!(out, "{number}")
}

/// Appends a number in digits, after a hyphen where it is negative.
pub(crate) fn push_signed(out: &mut String, number: i32) -> Result<(), AllocError>
    ensures { OnOk result (characters out.new ≡ characters out.old ++ signed_decimal number) }
{
    write!(out, "{number}")
}

/// Appends a number in two digits or more.
///
/// # Errors
/// Out of memory alone.
pub fn push_two_digits(out: &mut String, number: u32) -> Result<(), AllocError>
    ensures { OnOk result (characters out.new ≡ characters out.old ++ padded 2 number) }
{
    write!(out, "{number:02}")
}
