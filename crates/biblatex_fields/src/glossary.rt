//! What the names of abbreviations mean.

ghost use Rattle.std.specs.Prelude.{◌≡◌, ◌<◌, length, map, IfOk, Some, string_bytes};
ghost use Rattle.std.specs.Str.{chars};
ghost use Rattle.laws.specs.Text.{lowered};
ghost use Rattle.biblatex_text.specs.Views.{field_view, spanned_text_view, piece_view};
ghost use Rattle.biblatex_fields.specs.Month.{month};
ghost use Rattle.biblatex_fields.specs.Abbreviations as specs;
ghost use Rattle.biblatex_fields.specs.Abbreviations.{Glossary, AreFlags, index_of, month_or_unknown, sense, sense_of, spelled};
ghost use Rattle.biblatex_fields.specs.Errors.{refusal_of};
ghost use Rattle.biblatex_fields.specs.Views.{IsIndex, definitions_view, sense_view};
ghost use Rattle.laws.specs.Results.{Gives};

use crate::error::{ParseError, ParseErrorKind};
use crate::month::month;
use biblatex_text::{Pair, RawChunk, Spanned};
use std::alloc::{AllocError, Global};
use std::collections::BTreeMap;
use std::marker::Model;
use texts::owned;

/// The definitions of a text, what their names mean, and which of them reach themselves. Names are compared without ASCII
/// case, and the last definition of a name counts; the names `jan` to `dec` stand for the months' English names where they
/// have no definition.
#[derive(Drop)]
pub(crate) struct Glossary<'r, 's> {
    pub definitions: &'r [Pair<'s>],
    pub indices: BTreeMap<String, usize>,
    pub circular: Vec<bool>,
}

impl<'r, 's> Model for Glossary<'r, 's> {
    ghost Value = { Glossary };

    ghost view = { λ g.
        record { definitions = definitions_view g.definitions; flags = g.circular.items } };

    ghost invariant = { λ g. IsIndex g.indices (definitions_view g.definitions)
        × AreFlags g.circular.items (definitions_view g.definitions) };
}

/// What a piece of a value stands for.
#[derive(Drop)]
pub(crate) enum Sense<'s> {
    /// A text.
    Spelled(&'s str),
    /// The pieces of the definition at the index.
    Defined(usize),
}

/// The text in lower ASCII case.
pub(crate) fn lowered(alloc: Global, text: &str) -> Result<String, AllocError>
    ensures { IfOk result (λ s. string_bytes s ≡ lowered (chars text.now)) }
{
    text.to_ascii_lowercase(alloc)
}

/// The index of the last definition of each name.
pub(crate) fn indices_of(
    alloc: Global,
    definitions: &[Pair],
) -> Result<BTreeMap<String, usize>, AllocError>
    ensures { IfOk result (λ table. IsIndex table (map field_view definitions.now)) }
{
    let mut indices = BTreeMap::new(alloc);
    for index in 0..definitions.len() {
        let name = lowered(alloc, definitions[index].key.v)?;
        indices.insert(name, index)?;
    }
    Ok(indices)
}

/// The name, as it is written there, means nothing.
fn unknown_name(alloc: Global, name: Spanned<&str>) -> Result<ParseError, AllocError>
    ensures { IfOk result (λ e. refusal_of e
        ≡ Some (specs.unknown (spanned_text_view name.entry))) }
{
    Ok(ParseError::Refused {
        kind: ParseErrorKind::UnknownAbbreviation(owned(alloc, name.v)?),
        span: name.span,
    })
}

/// The name, as it is written there, reaches itself.
fn circular_name(alloc: Global, name: Spanned<&str>) -> Result<ParseError, AllocError>
    ensures { IfOk result (λ e. refusal_of e
        ≡ Some (specs.circular (spanned_text_view name.entry))) }
{
    Ok(ParseError::Refused {
        kind: ParseErrorKind::AbbreviationCycle(owned(alloc, name.v)?),
        span: name.span,
    })
}

/// The month of that name in lower case, or the fault that the name means nothing.
fn month_or_unknown(
    alloc: Global,
    lowered: &str,
    name: Spanned<&str>,
) -> Result<&'static str, ParseError>
    ensures { Gives refusal_of (λ text. spelled (chars text.now)) result
        (month_or_unknown (spanned_text_view name.entry) (month lowered.now)) }
{
    match month(lowered) {
        Some(text) => Ok(text),
        None => Err(unknown_name(alloc, name)?),
    }
}

impl<'r, 's> Glossary<'r, 's> {
    /// What the definition at the index stands for, where the name is opened.
    fn defined(
        &self,
        alloc: Global,
        index: usize,
        name: Spanned<&'s str>,
    ) -> Result<Sense<'s>, ParseError>
        requires { index < length self.now.definitions }
        ensures { Gives refusal_of (sense_view self.now.definitions) result
            (sense_of self.now (spanned_text_view name.entry) (Some index)) }
    {
        if self.circular[index] {
            return Err(circular_name(alloc, name)?);
        }
        Ok(Sense::Defined(index))
    }

    /// What the name stands for, where it is opened.
    fn sense_of(&self, alloc: Global, name: Spanned<&'s str>) -> Result<Sense<'s>, ParseError>
        ensures { Gives refusal_of (sense_view self.now.definitions) result
            (sense_of self.now (spanned_text_view name.entry)
            (index_of (lowered (chars name.entry.v.now)) self.now.definitions)) }
    {
        let lowered = lowered(alloc, name.v)?;
        match self.indices.get(lowered.as_str()) {
            Some(&index) => self.defined(alloc, index, name),
            None => Ok(Sense::Spelled(month_or_unknown(alloc, lowered.as_str(), name)?)),
        }
    }

    /// What the piece stands for.
    pub fn sense(&self, alloc: Global, raw: &Spanned<RawChunk<'s>>) -> Result<Sense<'s>, ParseError>
        ensures sense { Gives refusal_of (sense_view self.now.definitions) result
            (sense self.now (piece_view raw.now)) }
        ensures flags { AreFlags self.now.flags self.now.definitions }
    {
        let _flags_are_exact = &self.circular;
        match raw.v {
            RawChunk::Normal(text) => Ok(Sense::Spelled(text)),
            RawChunk::Abbreviation(name) => {
                self.sense_of(alloc, Spanned::new(name, raw.span.start..raw.span.end))
            }
        }
    }
}
