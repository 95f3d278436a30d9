//! Values that may have been written in a form that is not read.

ghost use Rattle.std.specs.Prelude.{◌≡◌, IfOk};
ghost use Rattle.std.specs.Option.{option_copied};
ghost use Rattle.std.specs.Str.{chars};
ghost use Rattle.literature_numbers.specs.Numerics.{numeral_of};
ghost use Rattle.literature_numbers.specs.Pages.{pages_of};
ghost use Rattle.literature_values.specs.TypedViews.{KeepsNumeric, KeepsPages, printed, typed_value};

use literature_numbers::{Numeric, NumericError, PageRanges, PageRangesError};
use std::alloc::{AllocError, Global};
use std::fmt;

/// A value of a type, or the text that could not be read as one.
#[derive(Clone, Debug, PartialEq, Eq, Drop)]
pub enum MaybeTyped<T> {
    Typed(T),
    String(String),
}

impl<T> MaybeTyped<T> {
    /// The value, where there is one.
    pub fn as_typed(&self) -> Option<&T>
        ensures { option_copied result ≡ typed_value self.now }
    {
        match self {
            MaybeTyped::Typed(value) => Some(value),
            MaybeTyped::String(_) => None,
        }
    }
}

impl MaybeTyped<Numeric> {
    /// Reads numbers as `Numeric::read` does, and keeps a text that spells none.
    ///
    /// # Errors
    /// Out of memory alone.
    pub fn read(alloc: Global, text: &str) -> Result<MaybeTyped<Numeric>, AllocError>
        ensures { IfOk result (λ m. KeepsNumeric m text.now (numeral_of (chars text.now))) }
    {
        match Numeric::read(alloc, text) {
            Ok(numeric) => Ok(MaybeTyped::Typed(numeric)),
            Err(NumericError::Malformed) => Ok(MaybeTyped::String(String::from_str(alloc, text)?)),
            Err(NumericError::Memory) => Err(AllocError),
        }
    }
}

impl MaybeTyped<PageRanges> {
    /// Reads page ranges as `PageRanges::read` does, and keeps a text that spells none.
    ///
    /// # Errors
    /// Out of memory alone.
    pub fn read(alloc: Global, text: &str) -> Result<MaybeTyped<PageRanges>, AllocError>
        ensures { IfOk result (λ m. KeepsPages m text.now (pages_of (chars text.now))) }
    {
        match PageRanges::read(alloc, text) {
            Ok(pages) => Ok(MaybeTyped::Typed(pages)),
            Err(PageRangesError::Malformed) => Ok(MaybeTyped::String(String::from_str(
                alloc, text,
            )?)),
            Err(PageRangesError::Memory) => Err(AllocError),
        }
    }
}

/// The value as it prints, or the text.
impl<T: fmt::Display> fmt::Display for MaybeTyped<T> {
    ghost output = { printed T.output };

    fn fmt<W: fmt::Write>(&self, f: &mut fmt::Formatter<W>) -> fmt::Result {
        match self {
            MaybeTyped::Typed(value) => fmt::Display::fmt(value, f),
            MaybeTyped::String(text) => fmt::Display::fmt(text, f),
        }
    }
}
