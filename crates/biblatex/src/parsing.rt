//! Reading texts.

ghost use Rattle.std.specs.Prelude.{◌≡◌, ◌<◌, map, IfOk, IfSome, Some, length};
ghost use Rattle.std.specs.Str.{chars};
ghost use Rattle.laws.specs.Text.{text as text_of};
ghost use Rattle.biblatex_text.specs.Views.{spanned_text_view, raw_view as written};
ghost use Rattle.biblatex_entries.specs.Entries.{HaveJoinedFields};
ghost use Rattle.biblatex_meaning.specs.Reading.{raw, refused_at, reference_cycle, unreadable_date};
ghost use Rattle.biblatex_meaning.specs.Resolved.{IsMeaningOf, TextMeans, unresolved_at, number_of};
ghost use Rattle.laws.specs.Results.{Answers};
ghost use Rattle.biblatex.specs.Bibliographies.{listed_view};
ghost use Rattle.biblatex.specs.Errors.{reason_view, refusal_of};

use crate::Bibliography;
use crate::reading::load;
use biblatex_dates::TypeErrorKind;
use biblatex_fields::{Abbreviations, ParseError, ParseErrorKind, Spanned};
use biblatex_inheritance::{DateFault, ResolveError};
use biblatex_text::{Fault, RawBibliography, RawError};
use std::alloc::{AllocError, Global};
use texts::owned;

/// What a text holds once its references are resolved, and how many times an entry was made from its fields and its references.
#[derive(Drop)]
pub struct Counted {
    /// The entries, found by their names.
    pub bibliography: Bibliography,
    /// How many entries were made: one for each entry of the text.
    pub count: usize,
}

/// The kind of a fault of the raw grammar.
pub(crate) fn kind_of(fault: Fault) -> ParseErrorKind
    ensures { reason_view result ≡ raw fault }
{
    match fault {
        Fault::UnexpectedEof => ParseErrorKind::UnexpectedEof,
        Fault::Unexpected(token) => ParseErrorKind::Unexpected(token),
        Fault::Expected(token) => ParseErrorKind::Expected(token),
    }
}

/// Why entries are not resolved, at the key of the entry that reaches itself or whose date cannot be read.
pub(crate) fn unresolved(
    alloc: Global,
    keys: &[Spanned<&str>],
    error: ResolveError,
) -> Result<ParseError, AllocError>
    requires { IfSome (number_of error) (λ n. n < length keys.now) }
    ensures { IfOk result (λ e. refusal_of e
        ≡ unresolved_at (map spanned_text_view keys.now) error) }
{
    match error {
        ResolveError::Memory => Ok(ParseError::Memory),
        ResolveError::ReferenceCycle(number) => circular(alloc, &keys[number]),
        ResolveError::UnreadableDate(DateFault { reference, kind }) => {
            Ok(unreadable(&keys[reference], kind))
        }
    }
}

/// The error that the entry of this key reaches itself.
fn circular(alloc: Global, key: &Spanned<&str>) -> Result<ParseError, AllocError>
    ensures { IfOk result (λ e. refusal_of e ≡ Some (refused_at
        (spanned_text_view key.now) (reference_cycle (text_of (chars key.now.v.now))))) }
{
    Ok(ParseError::Refused {
        kind: ParseErrorKind::ReferenceCycle(owned(alloc, key.v)?),
        span: key.span.start..key.span.end,
    })
}

/// The error that the entry of this key has a date that cannot be read and that another one would inherit.
fn unreadable(key: &Spanned<&str>, kind: TypeErrorKind) -> ParseError
    ensures { refusal_of result
        ≡ Some (refused_at (spanned_text_view key.now) (unreadable_date kind)) }
{
    ParseError::Refused {
        kind: ParseErrorKind::ResolutionError(kind),
        span: key.span.start..key.span.end,
    }
}

impl Bibliography {
    /// Reads the entries of a text, in its order, and resolves their references. Neighbouring chunks of one kind are joined. A chunk stands
    /// in the source where `Abbreviations::parse_field` says, also where its field is inherited; a date that is inherited is of no source.
    ///
    /// # Errors
    /// `Refused` with the first fault: the first one of the raw grammar from the left; else, entry by entry, that of its fields
    /// and their pieces in order, then a key that has a meaning already; else the first entry that reaches itself; else the
    /// first reference whose date cannot be read of the first entry that needs a date and has one. `Memory` where a request for
    /// memory was refused.
    pub fn parse(alloc: Global, source: &str) -> Result<Bibliography, ParseError>
        // What the text means: of each field the text, and where its chunks stand.
        ensures meaning { Answers refusal_of listed_view result (TextMeans (chars source.now)) }
        // In each field of each entry no text is empty, and no two neighbours are text of one kind.
        ensures joined { IfOk result (λ b. HaveJoinedFields b.entries) }
    {
        match RawBibliography::parse(alloc, source) {
            Ok(raw) => Bibliography::from_raw(alloc, raw),
            Err(RawError::Memory) => Err(ParseError::Memory),
            Err(RawError::Refused { fault, at }) => Err(ParseError::Refused {
                kind: kind_of(fault),
                span: at..at,
            }),
        }
    }

    /// Reads the entries of a raw text, and resolves their references. Chunks are joined and given spans as by `parse`.
    ///
    /// # Errors
    /// Those of `parse`, but for faults of the raw grammar.
    pub fn from_raw(alloc: Global, raw: RawBibliography) -> Result<Bibliography, ParseError>
        ensures meaning { Answers refusal_of listed_view result (IsMeaningOf (written raw.entry)) }
        ensures joined { IfOk result (λ b. HaveJoinedFields b.entries) }
    {
        Ok(Bibliography::from_raw_counted(alloc, raw)?.bibliography)
    }

    /// Reads a raw text as `from_raw` does, and returns with it the number of entries that were made by resolving: one
    /// for each entry of the text.
    ///
    /// # Errors
    /// Those of `from_raw`.
    pub fn from_raw_counted(alloc: Global, raw: RawBibliography) -> Result<Counted, ParseError>
        ensures meaning { Answers refusal_of (λ c. listed_view c.bibliography) result
            (IsMeaningOf (written raw.entry)) }
        ensures joined { IfOk result (λ c. HaveJoinedFields c.bibliography.entries) }
        ensures count { IfOk result (λ c. c.count ≡ length raw.entry.entries.items) }
    {
        let RawBibliography {
            entries,
            abbreviations,
        } = raw;
        let abbreviations = Abbreviations::new(alloc, abbreviations.as_slice())?;
        let loaded = load(alloc, &abbreviations, entries)?;
        match loaded.bibliography.resolved(alloc) {
            Ok((bibliography, count)) => Ok(Counted {
                bibliography,
                count,
            }),
            Err(error) => Err(unresolved(alloc, loaded.keys.as_slice(), error)?),
        }
    }
}
