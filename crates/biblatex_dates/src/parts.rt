//! Dates from a year, a month and a day, each a text of its own.

ghost use Rattle.std.specs.Prelude.{◌≡◌, ◌<◌, ◌≤◌, ◌||◌, unsigned_abs, IfOk, IfSome};
ghost use Rattle.std.specs.Option.{option_map};
ghost use Rattle.std.specs.Str.{chars, IsAscii};
ghost use Rattle.laws.specs.Results.{Reads};
ghost use Rattle.texts.specs.Reading.{digits_at};
ghost use Rattle.texts.specs.Views.{left};
ghost use Rattle.biblatex_dates.specs.Parts.{year_part, number_part, is_same, is_month, month_named, month_part, day_read, parts_read, of_parts};

use crate::date::{Date, DateValue};
use crate::datetime::at_time;
use caseless::default_caseless_match_str;
use date_parts::{CalendarDate, has_day, in_month, on_day, signed_year, year_alone};
use texts::{Reader, Unreadable};

/// The date, as far as its parts can be read.
pub(crate) fn dated_by_parts(year: &str, month: Option<&str>, day: Option<&str>) -> Option<Date>
    ensures { result ≡ of_parts (chars year.now) (option_map (λ m. chars m.now) month.entry)
        (option_map (λ d. chars d.now) day.entry) }
{
    match read_year(year) {
        Err(_) => None,
        Ok(year) => Some(Date {
            value: DateValue::At(at_time(parts_read(year, month, day), None)),
            uncertain: false,
            approximate: false,
        }),
    }
}

/// The year, and the month and the day of it that can be read.
fn parts_read(year: i32, month: Option<&str>, day: Option<&str>) -> CalendarDate
    requires years { unsigned_abs year ≤ 9999 }
    ensures { result ≡ parts_read year (option_map (λ m. chars m.now) month.entry)
        (option_map (λ d. chars d.now) day.entry) }
{
    let Some(month) = month else {
        return year_alone(year);
    };
    match read_month(month) {
        None => year_alone(year),
        Some(month) => day_read(year, month, day),
    }
}

/// The month, and the day of it that can be read.
fn day_read(year: i32, month: u16, day: Option<&str>) -> CalendarDate
    requires years { unsigned_abs year ≤ 9999 }
    requires first { 1 ≤ month }
    requires last { month ≤ 12 }
    ensures { result ≡ day_read year month (option_map (λ d. chars d.now) day.entry) }
{
    let Some(day) = day else {
        return in_month(year, month);
    };
    match read_number(day) {
        Ok(day) if has_day(year, month, day) => on_day(year, month, day),
        _ => in_month(year, month),
    }
}

/// The year of one to four digits, negative after a hyphen.
#[tactic(auto, unfolding(crate::specs::Parts::year_part))]
fn read_year(text: &str) -> Result<i32, Unreadable>
    ensures reads { result ≡ year_part (chars text.now) }
    ensures years { IfOk result (λ y. unsigned_abs y ≤ 9999) }
{
    let mut reader = Reader::new(text);
    let is_negative = reader.take('-');
    let year = reader.digits(1, 4)?;
    reader.end()?;
    Ok(signed_year(is_negative, year))
}

/// The number of one or two digits.
#[tactic(auto, unfolding(crate::specs::Parts::number_part))]
fn read_number(text: &str) -> Result<u16, Unreadable>
    ensures { result ≡ number_part (chars text.now) }
{
    let mut reader = Reader::new(text);
    let number = reader.digits(1, 2)?;
    reader.end()?;
    Ok(number)
}

/// The month of a number or an English name, counted from one.
fn read_month(text: &str) -> Option<u16>
    ensures is { result ≡ month_part (chars text.now) }
    ensures within { IfSome result (λ m. (1 ≤ m) × (m ≤ 12)) }
{
    match read_number(text) {
        Ok(month) if (1..=12).contains(&month) => Some(month),
        Ok(_) => None,
        Err(_) => month_named(text),
    }
}

/// The month of an English name or its first three letters, counted from one.
#[tactic(auto, unfolding(crate::specs::Parts::month_named))]
fn month_named(text: &str) -> Option<u16>
    ensures is { result ≡ month_named (chars text.now) }
    ensures within { IfSome result (λ m. (1 ≤ m) × (m ≤ 12)) }
{
    let mut month = 1;
    while month <= 12 {
        if is_month(text, month) {
            return Some(month);
        }
        month += 1;
    }
    None
}

/// Whether the text is the English name of the month or its first three letters, in any case. The
/// months count from one to twelve.
fn is_month(text: &str, month: u16) -> bool
    ensures { result ≡ is_month (chars text.now) month }
{
    match month {
        1 => is_either(text, "January", "Jan"),
        2 => is_either(text, "February", "Feb"),
        3 => is_either(text, "March", "Mar"),
        4 => is_either(text, "April", "Apr"),
        5 => is_either(text, "May", "May"),
        6 => is_either(text, "June", "Jun"),
        7 => is_either(text, "July", "Jul"),
        8 => is_either(text, "August", "Aug"),
        9 => is_either(text, "September", "Sep"),
        10 => is_either(text, "October", "Oct"),
        11 => is_either(text, "November", "Nov"),
        _ => is_either(text, "December", "Dec"),
    }
}

/// Whether the text is the one ASCII name or the other, in any case.
fn is_either(text: &str, name: &str, short: &str) -> bool
    requires name { IsAscii name.now }
    requires short { IsAscii short.now }
    ensures { result ≡ is_same (chars text.now) name.now || is_same (chars text.now) short.now }
{
    is_same(text, name) || is_same(text, short)
}

/// Whether the text is the ASCII name once case is folded.
fn is_same(text: &str, name: &str) -> bool
    requires { IsAscii name.now }
    ensures { result ≡ is_same (chars text.now) name.now }
{
    default_caseless_match_str(text, name)
}
