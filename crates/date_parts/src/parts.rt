//! Reads years, months and days.

ghost use Rattle.std.specs.Prelude.{◌≡◌, unsigned_abs};
ghost use Rattle.laws.specs.Results.{Reads};
ghost use Rattle.date_parts.specs.Parts.{part_at, signed};
ghost use Rattle.texts.specs.Views.{left};

use texts::{Reader, Unreadable};

/// The month or the day that stands here: a hyphen and one or two digits, or nothing.
///
/// # Errors
/// `NotThere` where no digit or more than two stand after the hyphen.
#[tactic(auto, unfolding(crate::specs::Parts::part_at))]
pub fn read_part(reader: &mut Reader) -> Result<Option<u16>, Unreadable>
    ensures { Reads (λ p. p) result (left reader.new) (part_at (left reader.old)) }
{
    if reader.take('-') {
        return Ok(Some(reader.digits(1, 2)?));
    }
    Ok(None)
}

/// The year that the number is: one before the year 0 where it is negative.
pub fn signed_year(is_negative: bool, year: u16) -> i32
    ensures is { result ≡ signed is_negative year }
    ensures years { unsigned_abs result ≡ year }
{
    if is_negative {
        return -i32::from(year);
    }
    i32::from(year)
}
