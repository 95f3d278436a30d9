//! The contents of fields as values of a library.

ghost use Rattle.std.specs.Prelude.{◌≡◌, ◌++◌, [], codes, IfOk, OnOk, None, string_bytes};
ghost use Rattle.std.specs.Option.{option_map, option_or};
ghost use Rattle.url.specs.Parser.{parse_url};
ghost use Rattle.url.specs.Parts.{serialize};
ghost use Rattle.biblatex_content.specs.Styled.{letters};
ghost use Rattle.biblatex_content.specs.Views.{styled};
ghost use Rattle.literature_numbers.specs.PageViews.{pages_view};
ghost use Rattle.literature_numbers.specs.Views.{numeral_view};
ghost use Rattle.laws.specs.Text.{characters};
ghost use Rattle.literature_values.specs.TextViews.{chunks_view, format_view, publishing_view};
ghost use Rattle.literature_entries.specs.Views.{people_view};
ghost use Rattle.literature_values.specs.OtherViews.{address_view};
ghost use Rattle.literature_values.specs.TypedViews.{typed_view};
ghost use Rattle.interop_values.specs.Values.{values};
ghost use Rattle.interop_values.specs.Pieces.{pieces_of};
ghost use Rattle.interop_values.specs.Views.{Grows};
ghost use Rattle.interop_values.specs.Readings.{format_of, with_subtitle, title_of, format_under, people_under, number_of, number_under, pages_under, bytes_of, bytes_under, publishing_of, publisher_of, url_or, address_of};

use crate::pieces::Pieces;
use crate::values::{text, value};
use biblatex_content::{Chunk, Spanned};
use biblatex_fields::Fields;
use biblatex_values::plain_text;
use interop_people::people_in;
use literature_values::{
    ChunkedString, Date, FormatString, MaybeTyped, Numeric, PageRanges, Person, Publisher,
    QualifiedUrl,
};
use std::alloc::{AllocError, Global};
use url::{ParseError, Url};

/// The content in pieces.
fn pieces(alloc: Global, value: &[Spanned<Chunk>]) -> Result<ChunkedString, AllocError>
    ensures { IfOk result (λ s. chunks_view s ≡ pieces_of (styled value.now)) }
{
    let mut pieces = Pieces::with_room(alloc, value.len())?;
    pieces.push_chunks(value)?;
    pieces.finish()
}

/// The content in pieces, where there is one.
fn pieces_if(
    alloc: Global,
    value: Option<&[Spanned<Chunk>]>,
) -> Result<Option<ChunkedString>, AllocError>
    ensures { IfOk result (λ s. option_map chunks_view s
        ≡ option_map (λ v. pieces_of (styled v.now)) value.entry) }
{
    match value {
        Some(value) => Ok(Some(pieces(alloc, value)?)),
        None => Ok(None),
    }
}

/// A text without a short form.
pub fn format(alloc: Global, value: &[Spanned<Chunk>]) -> Result<FormatString, AllocError>
    ensures { IfOk result (λ f. format_view f ≡ format_of (styled value.now)) }
{
    Ok(FormatString {
        value: pieces(alloc, value)?,
        short: None,
    })
}

/// A text without a short form, where there is one.
pub fn format_if(
    alloc: Global,
    value: Option<&[Spanned<Chunk>]>,
) -> Result<Option<FormatString>, AllocError>
    ensures { IfOk result (λ f. option_map format_view f
        ≡ option_map (λ v. format_of (styled v.now)) value.entry) }
{
    match value {
        Some(value) => Ok(Some(format(alloc, value)?)),
        None => Ok(None),
    }
}

/// The text under a name.
#[inline(always)]
pub fn format_under(
    alloc: Global,
    fields: &Fields,
    name: &str,
) -> Result<Option<FormatString>, AllocError>
    ensures { IfOk result (λ f. option_map format_view f
        ≡ format_under name.now (values fields.now)) }
{
    format_if(alloc, value(fields, name))
}

/// The title of an entry, with its subtitle and its short form.
pub fn title(alloc: Global, fields: &Fields) -> Result<Option<FormatString>, AllocError>
    ensures { IfOk result (λ f. option_map format_view f ≡ title_of (values fields.now)) }
{
    match value(fields, "title") {
        Some(title) => Ok(Some(FormatString {
            value: with_subtitle(alloc, title, value(fields, "subtitle"))?,
            short: pieces_if(alloc, value(fields, "shorttitle"))?,
        })),
        None => Ok(None),
    }
}

/// Room for the pieces of a title and its subtitle.
fn room_for(title: &[Spanned<Chunk>], subtitle: Option<&[Spanned<Chunk>]>) -> usize {
    match subtitle {
        Some(subtitle) => title.len().saturating_add(subtitle.len()),
        None => title.len(),
    }
}

/// A title, and a colon, a space and the subtitle after it.
fn with_subtitle(
    alloc: Global,
    title: &[Spanned<Chunk>],
    subtitle: Option<&[Spanned<Chunk>]>,
) -> Result<ChunkedString, AllocError>
    ensures { IfOk result (λ s. chunks_view s ≡ pieces_of
        (with_subtitle (styled title.now) (option_map (λ v. styled v.now) subtitle.entry))) }
{
    let mut pieces = Pieces::with_room(alloc, room_for(title, subtitle))?;
    pieces.push_chunks(title)?;
    push_subtitle(&mut pieces, subtitle)?;
    pieces.finish()
}

/// Appends a colon, a space and the subtitle.
fn push_subtitle(pieces: &mut Pieces, subtitle: Option<&[Spanned<Chunk>]>) -> Result<(), AllocError>
    ensures { OnOk result (Grows pieces.old pieces.new
        (with_subtitle [] (option_map (λ v. styled v.now) subtitle.entry))) }
{
    let Some(subtitle) = subtitle else {
        return Ok(());
    };
    pieces.push_text(false, ": ")?;
    pieces.push_chunks(subtitle)
}

/// The people under a name, if there are any.
#[inline(always)]
pub fn people_under(
    alloc: Global,
    fields: &Fields,
    name: &str,
) -> Result<Option<Vec<Person>>, AllocError>
    ensures { IfOk result (λ p. option_map (λ v. people_view v.items) p
        ≡ people_under name.now (values fields.now)) }
{
    match value(fields, name) {
        Some(value) => people_in(alloc, value),
        None => Ok(None),
    }
}

/// The numbers under a name, or the text where it spells none, with the text as it is written.
#[inline(always)]
pub fn number_and_text_under(
    alloc: Global,
    fields: &Fields,
    name: &str,
) -> Result<Option<(MaybeTyped<Numeric>, String)>, AllocError>
    ensures number { IfOk result (λ r. option_map (λ p. typed_view numeral_view p.0) r
        ≡ number_under name.now (values fields.now)) }
    ensures text { IfOk result (λ r. option_map (λ p. string_bytes p.1) r
        ≡ bytes_under name.now (values fields.now)) }
{
    match value(fields, name) {
        Some(value) => Ok(Some(number_and_text_of(alloc, value)?)),
        None => Ok(None),
    }
}

/// The numbers that a content spells, or its text, with its text.
#[inline(never)]
fn number_and_text_of(
    alloc: Global,
    value: &[Spanned<Chunk>],
) -> Result<(MaybeTyped<Numeric>, String), AllocError>
    ensures number { IfOk result (λ p. typed_view numeral_view p.0
        ≡ number_of (styled value.now)) }
    ensures text { IfOk result (λ p. string_bytes p.1 ≡ bytes_of (styled value.now)) }
{
    let text = plain_text(alloc, value)?;
    let number = MaybeTyped::<Numeric>::read(alloc, text.as_str())?;
    Ok((number, text))
}

/// The page ranges under a name, or the text where it spells none, with the text as it is written.
pub fn pages_and_text_under(
    alloc: Global,
    fields: &Fields,
    name: &str,
) -> Result<Option<(MaybeTyped<PageRanges>, String)>, AllocError>
    ensures pages { IfOk result (λ r. option_map (λ p. typed_view pages_view p.0) r
        ≡ pages_under name.now (values fields.now)) }
    ensures text { IfOk result (λ r. option_map (λ p. string_bytes p.1) r
        ≡ bytes_under name.now (values fields.now)) }
{
    match value(fields, name) {
        Some(value) => {
            let text = plain_text(alloc, value)?;
            let pages = MaybeTyped::<PageRanges>::read(alloc, text.as_str())?;
            Ok(Some((pages, text)))
        }
        None => Ok(None),
    }
}

/// The characters under a name.
#[inline(always)]
pub fn text_under(alloc: Global, fields: &Fields, name: &str) -> Result<Option<String>, AllocError>
    ensures { IfOk result (λ s. option_map string_bytes s
        ≡ bytes_under name.now (values fields.now)) }
{
    match value(fields, name) {
        Some(value) => Ok(Some(plain_text(alloc, value)?)),
        None => Ok(None),
    }
}

/// The publisher by name and location, where one of them is there.
pub fn publisher(alloc: Global, fields: &Fields) -> Result<Option<Publisher>, AllocError>
    ensures { IfOk result (λ p. option_map publishing_view p ≡ publisher_of (values fields.now)) }
{
    let name = publisher_name(fields);
    let location = value(fields, "location");
    if name.is_none() && location.is_none() {
        return Ok(None);
    }
    Ok(Some(Publisher {
        name: format_if(alloc, name)?,
        location: format_if(alloc, location)?,
    }))
}

/// The name of the publisher, else of the institution, else of the organization.
fn publisher_name(fields: &Fields) -> Option<&[Spanned<Chunk>]>
    ensures { option_map (λ v. styled v.now) result
        ≡ option_or (values fields.now (codes "publisher")) (option_or
        (values fields.now (codes "institution")) (values fields.now (codes "organization"))) }
{
    if let Some(publisher) = value(fields, "publisher") {
        return Some(publisher);
    }
    if let Some(institution) = value(fields, "institution") {
        return Some(institution);
    }
    value(fields, "organization")
}

/// The address under `url`, and the day of the last visit.
pub fn address(
    alloc: Global,
    fields: &Fields,
    visit_date: Option<Date>,
) -> Result<Option<QualifiedUrl>, AllocError>
    ensures { IfOk result (λ u. option_map address_view u
        ≡ address_of visit_date (values fields.now)) }
{
    match value(fields, "url") {
        Some(value) => Ok(Some(QualifiedUrl {
            value: url_or_text(alloc, plain_text(alloc, value)?)?,
            visit_date,
        })),
        None => Ok(None),
    }
}

/// The address that a text is, or the text.
fn url_or_text(alloc: Global, text: String) -> Result<MaybeTyped<Url>, AllocError>
    ensures { IfOk result (λ u. typed_view serialize u
        ≡ url_or (characters text) (parse_url None (string_bytes text))) }
{
    match Url::parse(alloc, text.as_str()) {
        Ok(url) => Ok(MaybeTyped::Typed(url)),
        Err(ParseError::OutOfMemory) | Err(ParseError::Overflow) => Err(AllocError),
        Err(_) => Ok(MaybeTyped::String(text)),
    }
}
