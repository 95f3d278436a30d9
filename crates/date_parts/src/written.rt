//! Writes numbers with zeros before them, as dates have them.

ghost use Rattle.std.specs.Prelude.{Some};
ghost use Rattle.std.specs.Fmt.{DisplaysOnOk, sign_text};
ghost use Rattle.std.specs.Int.{is_negative};
ghost use Rattle.laws.specs.Text.{text as text_of};
ghost use Rattle.date_parts.specs.Written.{padded, year_text, counted_text};

use std::fmt;

/// Writes a year in four digits or more, after a hyphen where it is negative.
pub fn write_year<W: fmt::Write>(year: i32, f: &mut fmt::Formatter<W>) -> fmt::Result
    ensures { DisplaysOnOk W.write_str_gives f.old result (Some (text_of (year_text year))) f.new }
{
    write_sign(year, f)?;
    write_padded(year.unsigned_abs(), 4, f)
}

/// Writes a hyphen before a negative year.
fn write_sign<W: fmt::Write>(year: i32, f: &mut fmt::Formatter<W>) -> fmt::Result
    ensures { DisplaysOnOk W.write_str_gives f.old result
        (Some (text_of (sign_text (is_negative year)))) f.new }
{
    if year < 0 {
        return f.write_str("-");
    }
    Ok(())
}

/// Writes a hyphen and a month or a day, which is given counted from zero, as two digits or more counted from one.
pub fn write_counted<W: fmt::Write>(number: u8, f: &mut fmt::Formatter<W>) -> fmt::Result
    ensures { DisplaysOnOk W.write_str_gives f.old result
        (Some (text_of (counted_text number))) f.new }
{
    f.write_str("-")?;
    write_padded(u32::from(number) + 1, 2, f)
}

/// Writes a number in at least `width` digits, with zeros before it.
pub fn write_padded<W: fmt::Write>(
    number: u32,
    width: usize,
    f: &mut fmt::Formatter<W>,
) -> fmt::Result
    ensures { DisplaysOnOk W.write_str_gives f.old result
        (Some (text_of (padded width number))) f.new }
{
    write!(f, "{number:0width$}")
}
