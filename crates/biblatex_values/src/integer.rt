//! Integers.

ghost use Rattle.std.specs.Prelude.{◌≡◌, IfOk};
ghost use Rattle.std.specs.Fmt.{signed_decimal};
ghost use Rattle.laws.specs.Text.{characters};
ghost use Rattle.biblatex_values.specs.Integer.{integer_of};

use biblatex_dates::TypeErrorKind;
use std::alloc::{AllocError, Global};

/// Reads an integer: ASCII digits, negative after a hyphen, from `i64::MIN` to `i64::MAX`. Takes no memory.
///
/// # Errors
/// `Unreadable` for every other text.
pub fn read_integer(text: &str) -> Result<i64, TypeErrorKind>
    ensures { result ≡ integer_of text.now }
{
    if text.starts_with('+') {
        return Err(TypeErrorKind::Unreadable);
    }
    match text.parse::<i64>() {
        Ok(number) => Ok(number),
        Err(_) => Err(TypeErrorKind::Unreadable),
    }
}

/// The integer in digits, after a hyphen where it is negative.
pub fn integer_text(alloc: Global, number: i64) -> Result<String, AllocError>
    ensures { IfOk result (λ s. characters s ≡ signed_decimal number) }
{
    number.to_string(alloc)
}
