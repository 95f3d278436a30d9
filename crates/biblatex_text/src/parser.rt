//! Parsing a source.

ghost use Rattle.std.specs.Prelude.{◌≡◌, ℕ, List, IfOk};
ghost use Rattle.std.specs.Str.{chars};
ghost use Rattle.biblatex_text.specs.Items.{raw_of};
ghost use Rattle.laws.specs.Results.{Gives};
ghost use Rattle.biblatex_text.specs.Views.{raw_view, refusal_of};
ghost use Rattle.biblatex_text.specs.Span.{IsRawOf};

use crate::cursor::Reader;
use crate::error::{RawError, Stop};
use crate::raw::RawBibliography;
use std::alloc::Global;
use std::marker::Model;

/// A parser of one source.
#[derive(Drop)]
pub struct BiblatexParser<'s> {
    source: &'s str,
}

impl<'s> Model for BiblatexParser<'s> {
    ghost Value = { List ℕ };

    ghost view = { λ p. p.source.now };
}

impl<'s> BiblatexParser<'s> {
    /// A parser of the source.
    pub fn new(source: &'s str) -> BiblatexParser<'s>
        ensures { result ≡ source.now }
    {
        BiblatexParser { source }
    }

    /// What the source holds, as `RawBibliography::parse` gives it.
    ///
    /// # Errors
    /// Those of `RawBibliography::parse`.
    pub fn parse(self, alloc: Global) -> Result<RawBibliography<'s>, RawError>
        ensures reads { Gives refusal_of raw_view result (raw_of (chars self.entry)) }
        ensures slices { IfOk result (IsRawOf self.entry) }
    {
        read(alloc, self.source)
    }
}

impl<'s> RawBibliography<'s> {
    /// Reads the entries and the abbreviations of a text, in its order. What is found borrows the text.
    ///
    /// # Errors
    /// `Refused` with the first fault from the left and its offset; `Memory` where a request for memory was refused.
    pub fn parse(alloc: Global, source: &'s str) -> Result<RawBibliography<'s>, RawError>
        // What reading from the left gives, or its fault and the byte where it stands.
        ensures reads { Gives refusal_of raw_view result (raw_of (chars source.now)) }
        // Each kind, key, name and piece is the source's slice at its span.
        ensures slices { IfOk result (IsRawOf source.now) }
    {
        read(alloc, source)
    }
}

/// What the source holds.
fn read<'s>(alloc: Global, source: &'s str) -> Result<RawBibliography<'s>, RawError>
    ensures reads { Gives refusal_of raw_view result (raw_of (chars source.now)) }
    ensures slices { IfOk result (IsRawOf source.now) }
{
    let mut reader = Reader::new(source);
    match reader.all(alloc) {
        Ok(found) => Ok(found),
        Err(Stop::Memory) => Err(RawError::Memory),
        Err(Stop::Fault(fault)) => Err(RawError::Refused {
            fault,
            at: reader.offset(),
        }),
    }
}
