//! Numbers as texts.

ghost use Rattle.std.specs.Prelude.{◌≡◌, ◌++◌, replicate, slice_index_or, [], OnOk};
ghost use Rattle.std.specs.Fmt.{decimal};
ghost use Rattle.std.specs.List.{flat_map};
ghost use Rattle.std.specs.Option.{option_map};
ghost use Rattle.std.specs.Str.{chars};
ghost use Rattle.laws.specs.Text.{characters};
ghost use Rattle.literature_numbers.specs.NumericText.{separator_text, affix_text};
ghost use Rattle.literature_numbers.specs.Views.{numeric_value_view, numeral_view};
ghost use Rattle.literature_values.specs.TypedViews.{typed_view};
ghost use Rattle.rendering_locale.specs.Views.{ordinals_view};
ghost use Rattle.rendering_numbers.specs.Numbers.{ending_of, ending_of_two, ordinal_ending, ordinal_text, roman_digits, roman_text, roman_or_digits, number_text, value_text, linked_by, numeral_by, numeral_or_text};

use crate::digits::push_signed;
use literature_values::{MaybeTyped, Numeric, NumericDelimiter, NumericValue};
use rendering_locale::Ordinals;
use rendering_taxonomy::NumberForm;
use std::alloc::AllocError;
use std::fmt::Write;
use texts::{push_character, push_text};

/// Appends a number, or the text that stands instead of it.
///
/// # Errors
/// Out of memory alone.
pub fn push_numeral_or_text(
    out: &mut String,
    ordinals: &Ordinals,
    form: NumberForm,
    number: &MaybeTyped<Numeric>,
) -> Result<(), AllocError>
    ensures { OnOk result (characters out.new ≡ characters out.old
        ++ numeral_or_text (ordinals_view ordinals.now) form (typed_view numeral_view number.now)) }
{
    match number {
        MaybeTyped::Typed(numeral) => push_numeral(out, ordinals, form, numeral),
        MaybeTyped::String(text) => push_text(out, text.as_str()),
    }
}

/// Appends a numeral: the letters before, the value, the letters after.
///
/// # Errors
/// Out of memory alone.
pub fn push_numeral(
    out: &mut String,
    ordinals: &Ordinals,
    form: NumberForm,
    numeral: &Numeric,
) -> Result<(), AllocError>
    ensures { OnOk result (characters out.new ≡ characters out.old
        ++ numeral_by (ordinals_view ordinals.now) form (numeral_view numeral.now)) }
{
    push_affix(out, &numeral.prefix)?;
    push_value(out, ordinals, form, &numeral.value)?;
    push_affix(out, &numeral.suffix)
}

fn push_affix(out: &mut String, letters: &Option<String>) -> Result<(), AllocError>
    ensures { OnOk result (characters out.new
        ≡ characters out.old ++ affix_text (option_map characters letters.now)) }
{
    match letters {
        Some(letters) => push_text(out, letters.as_str()),
        None => Ok(()),
    }
}

/// Appends one number, or each of a set in the form, with the separator after it.
///
/// # Errors
/// Out of memory alone.
pub fn push_value(
    out: &mut String,
    ordinals: &Ordinals,
    form: NumberForm,
    value: &NumericValue,
) -> Result<(), AllocError>
    ensures { OnOk result (characters out.new ≡ characters out.old
        ++ value_text (ordinals_view ordinals.now) form (numeric_value_view value.now)) }
{
    match value {
        NumericValue::Number(number) => push_number(out, ordinals, form, *number),
        NumericValue::Set(numbers) => push_set(out, ordinals, form, numbers.as_slice()),
    }
}

/// Appends numbers, each with the separator after it.
fn push_set(
    out: &mut String,
    ordinals: &Ordinals,
    form: NumberForm,
    numbers: &[(i32, Option<NumericDelimiter>)],
) -> Result<(), AllocError>
    ensures { OnOk result (characters out.new ≡ characters out.old
        ++ flat_map (linked_by (ordinals_view ordinals.now) form) numbers.now) }
{
    for linked in numbers {
        push_linked(out, ordinals, form, *linked)?;
    }
    Ok(())
}

/// Appends a number and the separator after it.
fn push_linked(
    out: &mut String,
    ordinals: &Ordinals,
    form: NumberForm,
    linked: (i32, Option<NumericDelimiter>),
) -> Result<(), AllocError>
    ensures { OnOk result (characters out.new
        ≡ characters out.old ++ linked_by (ordinals_view ordinals.now) form linked) }
{
    push_number(out, ordinals, form, linked.0)?;
    push_separator(out, linked.1)
}

fn push_separator(out: &mut String, delimiter: Option<NumericDelimiter>) -> Result<(), AllocError>
    ensures { OnOk result (characters out.new ≡ characters out.old ++ separator_text delimiter) }
{
    match delimiter {
        Some(delimiter) => write!(out, "{delimiter}"),
        None => Ok(()),
    }
}

/// Appends a number in a form.
///
/// # Errors
/// Out of memory alone.
pub fn push_number(
    out: &mut String,
    ordinals: &Ordinals,
    form: NumberForm,
    number: i32,
) -> Result<(), AllocError>
    ensures { OnOk result (characters out.new
        ≡ characters out.old ++ number_text (ordinals_view ordinals.now) form number) }
{
    match form {
        NumberForm::Numeric => push_signed(out, number),
        NumberForm::Ordinal => push_ordinal(out, ordinals, number),
        NumberForm::Roman => push_roman(out, number),
    }
}

/// Appends a number in digits, with its ending.
///
/// # Errors
/// Out of memory alone.
pub fn push_ordinal(out: &mut String, ordinals: &Ordinals, number: i32) -> Result<(), AllocError>
    ensures { OnOk result (characters out.new
        ≡ characters out.old ++ ordinal_text (ordinals_view ordinals.now) number) }
{
    push_signed(out, number)?;
    push_text(out, ordinal_ending(ordinals, number.unsigned_abs()))
}

/// The ending of a number: that of its last two digits, else of its last one, else of all others.
fn ordinal_ending(ordinals: &Ordinals, number: u32) -> &str
    ensures { chars result.now ≡ ordinal_ending (ordinals_view ordinals.now) number }
{
    if let Some(ending) = ending_of_two(ordinals, number % 100) {
        return ending;
    }
    match ending_of(ordinals, number % 10) {
        Some(ending) => ending,
        None => ordinals.default.as_str(),
    }
}

/// The ending of the last two digits, where they are ten or more.
fn ending_of_two(ordinals: &Ordinals, number: u32) -> Option<&str>
    ensures { option_map (λ s. chars s.now) result
        ≡ ending_of_two number (ordinals_view ordinals.now) }
{
    if number < 10 {
        return None;
    }
    ending_of(ordinals, number)
}

/// The ending under a number.
fn ending_of(ordinals: &Ordinals, number: u32) -> Option<&str>
    ensures { option_map (λ s. chars s.now) result ≡ ending_of number (ordinals_view ordinals.now) }
{
    for ending in &ordinals.endings {
        if u32::from(ending.number) == number {
            return Some(ending.ending.as_str());
        }
    }
    None
}

/// Appends a number from 1 to 3999 in Roman letters, another one in digits.
///
/// # Errors
/// Out of memory alone.
pub fn push_roman(out: &mut String, number: i32) -> Result<(), AllocError>
    ensures { OnOk result (characters out.new ≡ characters out.old ++ roman_or_digits number) }
{
    if number < 1 || number > 3999 {
        return push_signed(out, number);
    }
    push_roman_letters(out, number.unsigned_abs())
}

/// Appends the thousands, hundreds, tens and ones in Roman letters.
fn push_roman_letters(out: &mut String, number: u32) -> Result<(), AllocError>
    ensures { OnOk result (characters out.new ≡ characters out.old ++ roman_text number) }
{
    push_repeated(out, number / 1000, 'm')?;
    push_roman_digit(out, number / 100 % 10, 'c', 'd', 'm')?;
    push_roman_digit(out, number / 10 % 10, 'x', 'l', 'c')?;
    push_roman_digit(out, number % 10, 'i', 'v', 'x')
}

/// Appends a digit by the letters for one, five and ten.
fn push_roman_digit(
    out: &mut String,
    digit: u32,
    one: char,
    five: char,
    ten: char,
) -> Result<(), AllocError>
    ensures { OnOk result (characters out.new
        ≡ characters out.old ++ slice_index_or (roman_digits one five ten) digit []) }
{
    match digit {
        1 => push_letters(out, &[one]),
        2 => push_letters(out, &[one, one]),
        3 => push_letters(out, &[one, one, one]),
        4 => push_letters(out, &[one, five]),
        5 => push_letters(out, &[five]),
        6 => push_letters(out, &[five, one]),
        7 => push_letters(out, &[five, one, one]),
        8 => push_letters(out, &[five, one, one, one]),
        9 => push_letters(out, &[one, ten]),
        _ => Ok(()),
    }
}

fn push_letters(out: &mut String, letters: &[char]) -> Result<(), AllocError>
    ensures { OnOk result (characters out.new ≡ characters out.old ++ letters.now) }
{
    for letter in letters {
        push_character(out, *letter)?;
    }
    Ok(())
}

/// Appends a character so many times.
fn push_repeated(out: &mut String, count: u32, c: char) -> Result<(), AllocError>
    ensures { OnOk result (characters out.new ≡ characters out.old ++ replicate count c) }
{
    for _n in 0..count {
        push_character(out, c)?;
    }
    Ok(())
}
