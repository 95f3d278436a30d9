//! Years as texts.

ghost use Rattle.std.specs.Prelude.{◌≡◌, ◌++◌, OnOk};
ghost use Rattle.std.specs.Fmt.{WritesInCalls};
ghost use Rattle.std.specs.Str.{chars};
ghost use Rattle.laws.specs.Text.{characters, text as text_of};
ghost use Rattle.rendering_numbers.specs.Years.{year_since, year_text};

use crate::digits::{push_digits, push_two_digits};
use std::alloc::AllocError;
use std::fmt;
use texts::push_text;

/// Appends a year: of one from 1000 on only the last two digits where it is short, an earlier one with its era after it.
/// The years before 1 are counted back from there, so that the year 0 is the first of them.
///
/// # Errors
/// Out of memory alone.
pub fn push_year(
    out: &mut String,
    year: i32,
    short: bool,
    ad: &str,
    bc: &str,
) -> Result<(), AllocError>
    ensures { OnOk result (characters out.new
        ≡ characters out.old ++ year_text year short (chars ad.now) (chars bc.now)) }
{
    if year < 1 {
        push_digits(out, year.unsigned_abs() + 1)?;
        return push_text(out, bc);
    }
    push_year_since(out, year.unsigned_abs(), short, ad)
}

/// Appends a year from 1 on.
fn push_year_since(out: &mut String, year: u32, short: bool, ad: &str) -> Result<(), AllocError>
    ensures { OnOk result (characters out.new
        ≡ characters out.old ++ year_since year short (chars ad.now)) }
{
    if year < 1000 {
        push_digits(out, year)?;
        return push_text(out, ad);
    }
    if short {
        return push_two_digits(out, year % 100);
    }
    push_digits(out, year)
}

/// Writes a year as `push_year` appends it.
///
/// # Errors
/// What the writer returns when it refuses a text.
pub fn write_year<W: fmt::Write>(
    year: i32,
    short: bool,
    w: &mut W,
    ad: &str,
    bc: &str,
) -> fmt::Result
    ensures { OnOk result (WritesInCalls W.write_str_gives w.old
        (text_of (year_text year short (chars ad.now) (chars bc.now))) w.new) }
{
    if year < 1 {
        return write!(w, "{}{bc}", year.unsigned_abs() + 1);
    }
    write_year_since(year.unsigned_abs(), short, w, ad)
}

/// Writes a year from 1 on.
fn write_year_since<W: fmt::Write>(year: u32, short: bool, w: &mut W, ad: &str) -> fmt::Result
    ensures { OnOk result (WritesInCalls W.write_str_gives w.old
        (text_of (year_since year short (chars ad.now))) w.new) }
{
    if year < 1000 {
        return write!(w, "{year}{ad}");
    }
    if short {
        return write!(w, "{:02}", year % 100);
    }
    write!(w, "{year}")
}
