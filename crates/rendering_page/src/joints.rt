//! Which characters remain where two meet.

ghost use Rattle.std.specs.Prelude.{◌≡◌};
ghost use Rattle.rendering_page.specs.Joints as specs;

use crate::tail::is_punctuation;

/// Whether a character is left out that meets another one.
pub fn is_left_out(before: char, c: char) -> bool
    ensures { result ≡ specs.is_left_out before c }
{
    match before {
        ' ' => c == ' ',
        '.' => c == '.',
        ',' => c == ',',
        ':' => matches!(c, ':' | '.'),
        ';' => matches!(c, ';' | ':' | '.'),
        '!' => matches!(c, '!' | ':' | '.'),
        '?' => matches!(c, '?' | ':' | '.'),
        _ => false,
    }
}

/// Whether it takes the place of the one that it meets.
pub fn is_replaced(before: char, c: char) -> bool
    ensures { result ≡ specs.is_replaced before c }
{
    match before {
        ' ' => matches!(c, ',' | '.'),
        ':' => matches!(c, '!' | '?'),
        ';' => matches!(c, '!' | '?'),
        _ => false,
    }
}

/// Whether it is a full stop that takes the place of the one that it meets, unless a close quote stands between them.
pub(crate) fn takes_place(is_quoted: bool, before: char, c: char) -> bool
    ensures { result ≡ specs.takes_place is_quoted before c }
{
    !is_quoted && before == '.' && c == '.'
}

/// The punctuation that goes inside quotes.
pub fn goes_inside(c: char) -> bool
    ensures { result ≡ specs.goes_inside c }
{
    matches!(c, ',' | '.')
}

/// The punctuation after which none goes inside.
pub fn is_stop(c: char) -> bool
    ensures { result ≡ specs.is_stop c }
{
    is_punctuation(c) || c == ':'
}
