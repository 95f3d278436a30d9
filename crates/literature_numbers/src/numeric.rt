//! Numbers with letters before and after.

ghost use Rattle.std.specs.Prelude.{◌≡◌, IfOk, Some, slice_get};
ghost use Rattle.std.specs.Fmt.{DisplaysOnOk, signed_decimal};
ghost use Rattle.std.specs.List.{flat_map};
ghost use Rattle.std.specs.Option.{option_map};
ghost use Rattle.std.specs.Str.{chars};
ghost use Rattle.literature_numbers.specs.Numerics.{Numeral, plain, numeral_of, numbers_at, numbers_in, only_one, value_of};
ghost use Rattle.laws.specs.Text.{text as text_of, characters, if_filled};
ghost use Rattle.laws.specs.Results.{GivesBack, GivesOrRefuses, GivesRestOrRefuses};
ghost use Rattle.literature_numbers.specs.NumericText.{delimiter_text, linked_text, value_text, affix_text, numeral_text, is_plural, IsReadable};
ghost use Rattle.texts.specs.Views.{left};
ghost use Rattle.literature_numbers.specs.Views.{numeric_value_view, numeral_view, refusal_of};
ghost use Rattle.literature_numbers.specs.declared.numeric.NumericError.TheVariants.{Memory, Malformed};

use crate::separator::{NumericDelimiter, next_number};
use std::alloc::{AllocError, AllocFailed, Global};
use std::fmt;
use texts::{Class, Reader, Unreadable, split_first};
use thiserror::Error;

/// One number, or several, each with the delimiter that follows it. A set that was read has two numbers or more.
#[derive(Debug, PartialEq, Eq, Drop)]
pub enum NumericValue {
    Number(i32),
    Set(Vec<(i32, Option<NumericDelimiter>)>),
}

/// A number or several, with letters before and after.
#[derive(Debug, PartialEq, Eq, Drop)]
pub struct Numeric {
    pub value: NumericValue,
    pub prefix: Option<String>,
    pub suffix: Option<String>,
}

/// Why a text was not read as numbers.
#[derive(Debug, Drop, Error)]
pub enum NumericError {
    /// A request for memory was refused.
    #[error("out of memory")]
    Memory,
    /// The text is no number and no list of numbers.
    #[error("not a number")]
    Malformed,
}

impl Numeric {
    /// One number, with no letters.
    pub fn new(number: i32) -> Numeric
        ensures { numeral_view result ≡ plain number }
    {
        Numeric {
            value: NumericValue::Number(number),
            prefix: None,
            suffix: None,
        }
    }

    /// Whether there is more than one number.
    pub fn is_plural(&self) -> bool
        ensures { result ≡ is_plural (numeral_view self.now).value }
    {
        self.value.is_plural()
    }

    /// The number, where there is just one; letters before and after it do not count.
    pub fn single_number(&self) -> Option<i32>
        ensures { result ≡ only_one (numbers_in (numeral_view self.now).value) }
    {
        match &self.value {
            NumericValue::Number(number) => Some(*number),
            NumericValue::Set(numbers) if numbers.len() == 1 => Some(numbers[0].0),
            NumericValue::Set(_) => None,
        }
    }

    /// The number at the index, if there is one. Indices count from zero; letters before and after do not count.
    pub fn nth(&self, index: usize) -> Option<i32>
        ensures { result ≡ slice_get (numbers_in (numeral_view self.now).value) index }
    {
        match &self.value {
            NumericValue::Number(number) if index == 0 => Some(*number),
            NumericValue::Number(_) => None,
            NumericValue::Set(numbers) => Some(numbers.get(index)?.0),
        }
    }

    /// Reads numbers: ASCII letters or none, a number, further numbers after commas, ampersands or dashes with spaces round
    /// them or none, ASCII letters or none. A number is of ASCII digits and at most 2147483647.
    ///
    /// # Errors
    /// `Malformed` for every other text; `Memory` where a request for memory was refused.
    pub fn read(alloc: Global, text: &str) -> Result<Numeric, NumericError>
        // The numbers that the text spells, or the refusal of a text that spells none.
        ensures reading { GivesOrRefuses refusal_of numeral_view result
            (numeral_of (chars text.now)) }
        // What was printed of counts, with letters or none, is read back.
        ensures back { (n : Numeral) → IsReadable n → chars text.now ≡ numeral_text n
            → GivesBack refusal_of numeral_view result n }
    {
        read_numeric(alloc, text)
    }
}

impl NumericValue {
    /// Whether there is more than one number.
    pub fn is_plural(&self) -> bool
        ensures { result ≡ is_plural (numeric_value_view self.now) }
    {
        match self {
            NumericValue::Number(_) => false,
            NumericValue::Set(numbers) => numbers.len() > 1,
        }
    }
}

/// The numbers that the text spells, with the letters before and after them.
#[tactic(auto, unfolding(crate::specs::Numerics::numeral_of))]
fn read_numeric(alloc: Global, text: &str) -> Result<Numeric, NumericError>
    ensures { GivesOrRefuses refusal_of numeral_view result (numeral_of (chars text.now)) }
{
    let mut reader = Reader::new(text);
    let prefix = reader.run(Class::Letter);
    let numbers = read_numbers(alloc, &mut reader)?;
    let suffix = reader.run(Class::Letter);
    reader.end()?;
    Ok(Numeric {
        value: value_of(numbers),
        prefix: owned_affix(alloc, prefix)?,
        suffix: owned_affix(alloc, suffix)?,
    })
}

/// The numbers that stand here, each with the delimiter after it.
pub(crate) fn read_numbers(
    alloc: Global,
    reader: &mut Reader,
) -> Result<Vec<(i32, Option<NumericDelimiter>)>, NumericError>
    ensures { GivesRestOrRefuses refusal_of (λ v. v.items) result
        (left reader.new) (numbers_at (left reader.old)) }
{
    let mut number = reader.number()?;
    let mut numbers = Vec::new(alloc);
    while let Some((delimiter, next)) = next_number(reader)? {
        numbers.push((number, Some(delimiter)))?;
        number = next;
    }
    numbers.push((number, None))?;
    Ok(numbers)
}

/// One number alone, or a set.
fn value_of(numbers: Vec<(i32, Option<NumericDelimiter>)>) -> NumericValue
    ensures { numeric_value_view result ≡ value_of numbers.items }
{
    if numbers.len() == 1 {
        return NumericValue::Number(numbers[0].0);
    }
    NumericValue::Set(numbers)
}

/// The letters as a text of their own, where there are any.
fn owned_affix(alloc: Global, letters: &str) -> Result<Option<String>, AllocError>
    ensures { IfOk result (λ a. option_map characters a ≡ if_filled (chars letters.now)) }
{
    match split_first(letters) {
        Some(_) => Ok(Some(String::from_str(alloc, letters)?)),
        None => Ok(None),
    }
}

impl Clone for NumericValue {
    ghost is_clone = { λ v w. numeric_value_view w ≡ numeric_value_view v };

    fn clone(&self) -> Result<NumericValue, AllocError> {
        match self {
            NumericValue::Number(number) => Ok(NumericValue::Number(*number)),
            NumericValue::Set(numbers) => Ok(NumericValue::Set(Vec::from_slice(
                *numbers.allocator(),
                numbers.as_slice(),
            )?)),
        }
    }
}

impl Clone for Numeric {
    ghost is_clone = { λ n m. numeral_view m ≡ numeral_view n };

    fn clone(&self) -> Result<Numeric, AllocError> {
        Ok(Numeric {
            value: self.value.clone()?,
            prefix: self.prefix.clone()?,
            suffix: self.suffix.clone()?,
        })
    }
}

impl From<Unreadable> for NumericError {
    ghost from_gives = { λ _ e. e ≡ Malformed };

    fn from(_unreadable: Unreadable) -> NumericError {
        NumericError::Malformed
    }
}

impl From<AllocError> for NumericError {
    ghost from_gives = { λ _ e. e ≡ Memory };

    fn from(_error: AllocError) -> NumericError {
        NumericError::Memory
    }
}

impl<T: Drop> From<AllocFailed<T>> for NumericError {
    ghost from_gives = { λ _ e. e ≡ Memory };

    fn from(_error: AllocFailed<T>) -> NumericError {
        NumericError::Memory
    }
}

/// Each number, followed by its delimiter.
impl fmt::Display for NumericValue {
    ghost output = { λ v. Some (text_of (value_text (numeric_value_view v))) };

    fn fmt<W: fmt::Write>(&self, f: &mut fmt::Formatter<W>) -> fmt::Result {
        match self {
            NumericValue::Number(number) => write_number(*number, f),
            NumericValue::Set(numbers) => write_numbers(numbers.as_slice(), f),
        }
    }
}

/// The letters before, the numbers, the letters after.
impl fmt::Display for Numeric {
    ghost output = { λ n. Some (text_of (numeral_text (numeral_view n))) };

    fn fmt<W: fmt::Write>(&self, f: &mut fmt::Formatter<W>) -> fmt::Result {
        write_affix(&self.prefix, f)?;
        fmt::Display::fmt(&self.value, f)?;
        write_affix(&self.suffix, f)
    }
}

/// Writes a number in digits.
fn write_number<W: fmt::Write>(number: i32, f: &mut fmt::Formatter<W>) -> fmt::Result
    ensures { DisplaysOnOk W.write_str_gives f.old result
        (Some (text_of (signed_decimal number))) f.new }
{
    write!(f, "{number}")
}

/// Writes a number and the delimiter after it.
fn write_linked<W: fmt::Write>(
    linked: (i32, Option<NumericDelimiter>),
    f: &mut fmt::Formatter<W>,
) -> fmt::Result
    ensures { DisplaysOnOk W.write_str_gives f.old result
        (Some (text_of (linked_text linked))) f.new }
{
    write_number(linked.0, f)?;
    match linked.1 {
        Some(delimiter) => fmt::Display::fmt(&delimiter, f),
        None => Ok(()),
    }
}

/// Writes numbers, each with the delimiter after it.
fn write_numbers<W: fmt::Write>(
    numbers: &[(i32, Option<NumericDelimiter>)],
    f: &mut fmt::Formatter<W>,
) -> fmt::Result
    ensures { DisplaysOnOk W.write_str_gives f.old result
        (Some (text_of (flat_map linked_text numbers.now))) f.new }
{
    for linked in numbers {
        write_linked(*linked, f)?;
    }
    Ok(())
}

/// Writes the letters, where there are any.
fn write_affix<W: fmt::Write>(letters: &Option<String>, f: &mut fmt::Formatter<W>) -> fmt::Result
    ensures { DisplaysOnOk W.write_str_gives f.old result
        (Some (text_of (affix_text (option_map characters letters.now)))) f.new }
{
    match letters {
        Some(letters) => f.write_str(letters.as_str()),
        None => Ok(()),
    }
}
