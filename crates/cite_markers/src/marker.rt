//! Reading markers.

ghost use Rattle.std.specs.Prelude.{◌≡◌, Some};
ghost use Rattle.std.specs.Option.{option_map};
ghost use Rattle.std.specs.Str.{chars};
ghost use Rattle.laws.specs.Characters.{space, at_sign};
ghost use Rattle.laws.specs.Results.{Reads, GivesRest};
ghost use Rattle.laws.specs.Text.{text as text_of};
ghost use Rattle.texts.specs.Reading.{taken};
ghost use Rattle.texts.specs.Views.{left};
ghost use Rattle.cite_markers.specs.Marker.{word_at, purpose_at, purpose_if_no_sign, beginning_at, is_value, locator_at, locator_if_space, cite_at, further_cite_at, next_cite_at, cites_at, marker_at, opening_at};
ghost use Rattle.cite_markers.specs.Document.{is_opening};
ghost use Rattle.cite_markers.specs.Views.{beginning_view, locator_view, cite_view, cites_view, not_there};

use crate::class::{Class, run};
use crate::error::Stop;
use crate::words::{label_of, purpose_of};
use rendering_taxonomy::{CitePurpose, Locator};
use std::alloc::Global;
use texts::{Reader, Unreadable, has_text};

/// The part of a work that a cite points to.
#[derive(Clone, Copy, Debug, PartialEq, Eq)]
pub struct CiteLocator<'s> {
    /// What the value counts.
    pub label: Locator,
    /// Which part it is. Not empty, without white space at its ends.
    pub value: &'s str,
}

/// A cite of one work.
#[derive(Clone, Copy, Debug, PartialEq, Eq)]
pub struct Cite<'s> {
    /// The key of the work, or another name of it. Not empty.
    pub name: &'s str,
    /// Whether the work counts as cited though nothing is printed here.
    pub hidden: bool,
    /// What the cite is for, where it is no ordinary one.
    pub purpose: Option<CitePurpose>,
    /// The part of the work, where one is named.
    pub locator: Option<CiteLocator<'s>>,
}

/// What stands before a name.
#[derive(Clone, Copy)]
pub(crate) struct Beginning {
    hidden: bool,
    purpose: Option<CitePurpose>,
}

/// A word, and the space after it.
#[tactic(auto, unfolding(crate::specs::Marker::word_at), using(laws::proofs::Text::text_of_chars))]
fn read_word<'s>(reader: &mut Reader<'s>) -> Result<&'s str, Unreadable>
    ensures { Reads (λ w. w.now) result (left reader.new) (word_at (left reader.old)) }
{
    let word = run(reader, Class::Word);
    reader.expect(' ')?;
    Ok(word)
}

/// An at sign, or the word of a purpose, a space and an at sign.
#[tactic(auto, unfolding(crate::specs::Marker::purpose_at))]
fn read_purpose(reader: &mut Reader<'_>) -> Result<Option<CitePurpose>, Unreadable>
    ensures { Reads (λ p. p) result (left reader.new)
        (purpose_if_no_sign (taken at_sign (left reader.old))) }
{
    if reader.take('@') {
        return Ok(None);
    }
    let purpose = purpose_of(read_word(reader)?).ok_or(Unreadable::NotThere)?;
    reader.expect('@')?;
    Ok(Some(purpose))
}

/// The beginning of a cite, through its at sign.
#[tactic(auto, unfolding(crate::specs::Marker::beginning_at))]
fn read_beginning(reader: &mut Reader<'_>) -> Result<Beginning, Unreadable>
    ensures { Reads beginning_view result (left reader.new) (beginning_at (left reader.old)) }
{
    let hidden = reader.take('-');
    let purpose = read_purpose(reader)?;
    Ok(Beginning { hidden, purpose })
}

/// Whether a text is that of a value.
#[tactic(auto, using(laws::proofs::Text::text_of_chars))]
fn is_value(value: &str) -> bool
    ensures { result ≡ is_value (text_of (chars value.now)) }
{
    !value.is_empty() && value.trim() == value
}

/// A label, a space and a value.
#[tactic(auto, unfolding(crate::specs::Marker::locator_at))]
fn read_locator<'s>(reader: &mut Reader<'s>) -> Result<CiteLocator<'s>, Unreadable>
    ensures { Reads (λ l. Some (locator_view l)) result
        (left reader.new) (locator_at (left reader.old)) }
{
    let label = label_of(read_word(reader)?).ok_or(Unreadable::NotThere)?;
    let value = run(reader, Class::Value);
    if !is_value(value) {
        return Err(Unreadable::NotThere);
    }
    Ok(CiteLocator { label, value })
}

/// A locator after a space, or none.
fn read_optional_locator<'s>(reader: &mut Reader<'s>) -> Result<Option<CiteLocator<'s>>, Unreadable>
    ensures { Reads (option_map locator_view) result (left reader.new)
        (locator_if_space (taken space (left reader.old))) }
{
    if !reader.take(' ') {
        return Ok(None);
    }
    Ok(Some(read_locator(reader)?))
}

#[tactic(auto, unfolding(crate::specs::Marker::cite_at))]
fn read_cite<'s>(reader: &mut Reader<'s>) -> Result<Cite<'s>, Unreadable>
    ensures { Reads cite_view result (left reader.new) (cite_at (left reader.old)) }
{
    let Beginning { hidden, purpose } = read_beginning(reader)?;
    let name = run(reader, Class::Name);
    if !has_text(name) {
        return Err(Unreadable::NotThere);
    }
    let locator = read_optional_locator(reader)?;
    Ok(Cite {
        name,
        hidden,
        purpose,
        locator,
    })
}

/// A further cite after a semicolon and a space, or none where no semicolon stands.
#[tactic(auto, unfolding(crate::specs::Marker::next_cite_at, crate::specs::Marker::further_cite_at))]
fn read_next_cite<'s>(reader: &mut Reader<'s>) -> Result<Option<Cite<'s>>, Unreadable>
    ensures { Reads (option_map cite_view) result
        (left reader.new) (next_cite_at (left reader.old)) }
{
    if !reader.take(';') {
        return Ok(None);
    }
    reader.expect(' ')?;
    Ok(Some(read_cite(reader)?))
}

/// One cite or more.
#[tactic(auto, unfolding(crate::specs::Marker::cites_at))]
fn read_cites<'s>(alloc: Global, reader: &mut Reader<'s>) -> Result<Vec<Cite<'s>>, Stop>
    ensures { GivesRest not_there cites_view result (left reader.new) (cites_at (left reader.old)) }
{
    let mut cites = Vec::new(alloc);
    cites.push(read_cite(reader)?)?;
    while let Some(cite) = read_next_cite(reader)? {
        cites.push(cite)?;
    }
    Ok(cites)
}

/// The cites of a marker, between its brackets.
#[tactic(auto, unfolding(crate::specs::Marker::marker_at))]
pub(crate) fn read_marker<'s>(alloc: Global, reader: &mut Reader<'s>) -> Result<Vec<Cite<'s>>, Stop>
    ensures { GivesRest not_there cites_view result
        (left reader.new) (marker_at (left reader.old)) }
{
    reader.expect('[')?;
    let cites = read_cites(alloc, reader)?;
    reader.expect(']')?;
    Ok(cites)
}

/// A bracket and the beginning of a cite.
#[tactic(auto, unfolding(crate::specs::Marker::opening_at))]
fn read_opening(reader: &mut Reader<'_>) -> Result<Beginning, Unreadable>
    ensures { Reads beginning_view result (left reader.new) (opening_at (left reader.old)) }
{
    reader.expect('[')?;
    read_beginning(reader)
}

/// Whether an opening stands at the start of the text.
#[tactic(auto, unfolding(crate::specs::Document::is_opening))]
pub(crate) fn is_opening(text: &str) -> bool
    ensures { result ≡ is_opening (chars text.now) }
{
    read_opening(&mut Reader::new(text)).is_ok()
}
