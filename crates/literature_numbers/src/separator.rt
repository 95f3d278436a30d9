//! What stands between two numbers.

ghost use Rattle.std.specs.Prelude.{◌≡◌, MatchOption, Some, None};
ghost use Rattle.std.specs.Str.{chars};
ghost use Rattle.laws.specs.Results.{Reads};
ghost use Rattle.laws.specs.Text.{text as text_of};
ghost use Rattle.texts.specs.Views.{left};
ghost use Rattle.literature_numbers.specs.Numbers.{delimiter_at, separator_at};
ghost use Rattle.literature_numbers.specs.Numerics.{next_number_at};
ghost use Rattle.literature_numbers.specs.NumericText.{delimiter_text};

use std::fmt;
use texts::{CharacterClass, Class, Reader, Unreadable, split_first, split_run};

/// What stands between two numbers.
#[derive(Clone, Copy, Debug, PartialEq, Eq)]
pub enum NumericDelimiter {
    Comma,
    Ampersand,
    Hyphen,
}

/// `, `, ` & ` or an en dash.
impl fmt::Display for NumericDelimiter {
    ghost output = { λ d. Some (text_of (delimiter_text d)) };

    fn fmt<W: fmt::Write>(&self, f: &mut fmt::Formatter<W>) -> fmt::Result {
        match self {
            NumericDelimiter::Comma => f.write_str(", "),
            NumericDelimiter::Ampersand => f.write_str(" & "),
            NumericDelimiter::Hyphen => f.write_char('\u{2013}'),
        }
    }
}

/// The separator and the number that stand here, or nothing.
#[tactic(auto, unfolding(crate::specs::Numerics::next_number_at))]
pub(crate) fn next_number(
    reader: &mut Reader,
) -> Result<Option<(NumericDelimiter, i32)>, Unreadable>
    ensures { Reads (λ n. n) result (left reader.new) (next_number_at (left reader.old)) }
{
    match separator(reader) {
        Some(delimiter) => Ok(Some((delimiter, reader.number()?))),
        None => Ok(None),
    }
}

/// The separator that stands here, with the spaces round it. Where there is none, nothing is taken.
#[tactic(auto, unfolding(crate::specs::Numbers::separator_at))]
fn separator(reader: &mut Reader) -> Option<NumericDelimiter>
    ensures { separator_at (left reader.old) ≡ (result, left reader.new) }
{
    let (_, rest) = split_run(reader.rest, Class::Space);
    let (delimiter, rest) = split_delimiter(rest)?;
    let (_, rest) = split_run(rest, Class::Space);
    reader.rest = rest;
    Some(delimiter)
}

/// The comma, the ampersand or the dashes that stand first, and what follows.
fn split_delimiter(text: &str) -> Option<(NumericDelimiter, &str)>
    ensures { MatchOption result (delimiter_at (chars text.now) ≡ None) (λ x.
        delimiter_at (chars text.now) ≡ Some (x.0, chars x.1.now)) }
{
    match split_first(text)? {
        (',', rest) => Some((NumericDelimiter::Comma, rest)),
        ('&', rest) => Some((NumericDelimiter::Ampersand, rest)),
        (c, rest) if Class::Dash.contains(c) => Some((
            NumericDelimiter::Hyphen,
            split_run(rest, Class::Dash).1,
        )),
        _ => None,
    }
}
