//! Which days there are.

ghost use Rattle.std.specs.Prelude.{◌≡◌, ◌≤◌, unsigned_abs, IsTrue};
ghost use Rattle.date_parts.specs.Calendar.{has_day};

use jiff::civil;

/// Whether the month of the year has the day. Months and days count from one; years are those from -9999 to 9999.
pub fn has_day(year: i32, month: u16, day: u16) -> bool
    requires years { unsigned_abs year ≤ 9999 }
    requires first { 1 ≤ month }
    requires last { month ≤ 12 }
    ensures has { result ≡ has_day year month day }
    ensures within { IsTrue result → (1 ≤ day) × (day ≤ 31) }
{
    if !(1..=31).contains(&day) {
        return false;
    }
    civil::Date::new(year as i16, month as i8, day as i8).is_ok()
}
