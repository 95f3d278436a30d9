//! What a text or number node prints.

ghost use Rattle.std.specs.Prelude.{◌≡◌, ◌++◌, map, IfOk, Ok};
ghost use Rattle.std.specs.Fmt.{decimal};
ghost use Rattle.std.specs.List.{list_any};
ghost use Rattle.std.specs.Str.{chars};
ghost use Rattle.std.specs.Option.{option_map};
ghost use Rattle.laws.specs.Text.{characters, is_filled};
ghost use Rattle.literature_values.specs.TextViews.{chunk_view, chunks_view};
ghost use Rattle.literature_values.specs.TypedViews.{Value, Text, typed_view};
ghost use Rattle.literature_numbers.specs.Numerics.{plain};
ghost use Rattle.literature_numbers.specs.PageViews.{pages_view};
ghost use Rattle.literature_numbers.specs.Pages.{pages_of};
ghost use Rattle.rendering_entries.specs.Library.{characters_of, one_chunk};
ghost use Rattle.rendering_entries.specs.Views.{lent_number_view, lent_text_view};
ghost use Rattle.rendering_context.specs.Answering as answering;
ghost use Rattle.rendering_context.specs.Views.{payload_view, locator_view, answer_view, answer_if};

use crate::locator::{LocatorPayload, SpecificLocator, has_range_sign};
use crate::pages::have_text;
use crate::stretch::is_numeric_text;
use crate::variables::is_locator;
use literature_values::{
    ChunkKind, ChunkedString, MaybeTyped, Numeric, PageRanges, PageRangesError, StringChunk,
};
use rendering_entries::EntryLike;
use rendering_ranges::{dashed, has_padding};
use rendering_taxonomy::{Locator, LongShortForm, PageRangeFormat, StandardVariable};
use std::alloc::{AllocError, Global};
use std::borrow::Cow;
use std::fmt::Write;
use texts::{empty_text, has_text, owned, push_text};

/// What a text or number node prints.
#[derive(Drop)]
pub enum Answer<'a> {
    /// A text in pieces, one of which is a formula or not empty.
    Text(Cow<'a, ChunkedString>),
    /// The year suffix.
    YearSuffix(&'a str),
    /// A text that links to its address.
    Address { text: String, url: String },
    /// A number, or a text instead of it.
    Number(MaybeTyped<Cow<'a, Numeric>>),
    /// The text of a locator.
    Locator(&'a str),
    /// Pages, or a text instead of them.
    Pages(MaybeTyped<PageRanges>),
    /// A locator that the caller prints by itself.
    Transparent,
}

impl Answer<'_> {
    /// Whether it is more than one; in a published style also a text, by its signs.
    pub(crate) fn is_plural(&self, is_published: bool) -> bool
        ensures { result ≡ answering.is_plural_answer is_published (answer_view self.now) }
    {
        match self {
            Answer::Number(MaybeTyped::Typed(number)) => number.is_plural(),
            Answer::Number(MaybeTyped::String(text)) => {
                is_published && has_range_sign(text.as_str())
            }
            Answer::Locator(text) => is_published && has_range_sign(text),
            Answer::Pages(MaybeTyped::Typed(pages)) => pages.is_plural(),
            Answer::Pages(MaybeTyped::String(text)) => {
                is_published && has_range_sign(text.as_str())
            }
            _ => false,
        }
    }

    /// Whether it is a number or pages; in a published style also a text that counts as numbers.
    pub(crate) fn is_numeric(&self, is_published: bool) -> bool
        ensures { result ≡ answering.is_numeric_answer is_published (answer_view self.now) }
    {
        match self {
            Answer::Number(MaybeTyped::Typed(_)) | Answer::Pages(MaybeTyped::Typed(_)) => true,
            Answer::Number(MaybeTyped::String(text)) | Answer::Pages(MaybeTyped::String(text)) => {
                is_published && is_numeric_text(text.as_str())
            }
            Answer::Locator(text) => is_published && is_numeric_text(text),
            _ => false,
        }
    }
}

pub(crate) fn text_of<'a, E: EntryLike>(
    alloc: Global,
    entry: &'a E,
    form: LongShortForm,
    variable: StandardVariable,
) -> Result<Option<Answer<'a>>, AllocError>
    ensures { IfOk result (λ a. answer_if a ≡ answering.or_no_answer answering.of_pieces
        ((E.answers entry.now).standard form variable)) }
{
    match entry.resolve_standard_variable(alloc, form, variable)? {
        Some(text) => Ok(text_with_pieces(text)),
        None => Ok(None),
    }
}

fn text_with_pieces(text: Cow<'_, ChunkedString>) -> Option<Answer<'_>>
    ensures { answer_if result ≡ answering.of_pieces (lent_text_view text.entry) }
{
    if has_piece(text.0.as_slice()) {
        Some(Answer::Text(text))
    } else {
        None
    }
}

/// Whether a piece is a formula or not empty.
fn has_piece(text: &[StringChunk]) -> bool
    ensures { result ≡ list_any (λ c. answering.is_piece c.kind c.value) (map chunk_view text.now) }
{
    for piece in text {
        if is_piece(piece) {
            return true;
        }
    }
    false
}

/// Whether it is a formula or not empty.
fn is_piece(piece: &StringChunk) -> bool
    ensures { result ≡ answering.is_piece piece.now.kind (characters piece.now.value) }
{
    match piece.kind {
        ChunkKind::Math => true,
        ChunkKind::Normal | ChunkKind::Verbatim => has_text(piece.value.as_str()),
    }
}

pub(crate) fn year_suffix(year_suffix: &str) -> Option<Answer<'_>>
    ensures { answer_if result ≡ answering.of_pieces (one_chunk (chars year_suffix.now)) }
{
    if has_text(year_suffix) {
        Some(Answer::YearSuffix(year_suffix))
    } else {
        None
    }
}

/// The text of a variable that links to its address, which begins with `start`.
pub(crate) fn address_of<'a, E: EntryLike>(
    alloc: Global,
    start: &str,
    entry: &'a E,
    form: LongShortForm,
    variable: StandardVariable,
) -> Result<Option<Answer<'a>>, AllocError>
    ensures { IfOk result (λ a. answer_if a
        ≡ answering.or_no_answer (λ cs. answering.of_address (chars start.now) (characters_of cs))
        ((E.answers entry.now).standard form variable)) }
{
    match entry.resolve_standard_variable(alloc, form, variable)? {
        Some(text) => address(alloc, start, &text),
        None => Ok(None),
    }
}

/// A text that links to its address, where it is not empty.
fn address<'a>(
    alloc: Global,
    start: &str,
    text: &ChunkedString,
) -> Result<Option<Answer<'a>>, AllocError>
    ensures { IfOk result (λ a. answer_if a
        ≡ answering.of_address (chars start.now) (characters_of (chunks_view text.now))) }
{
    let text = all_characters(alloc, text.0.as_slice())?;
    if !has_text(text.as_str()) {
        return Ok(None);
    }
    let url = joined(alloc, start, text.as_str())?;
    Ok(Some(Answer::Address { text, url }))
}

fn all_characters(alloc: Global, pieces: &[StringChunk]) -> Result<String, AllocError>
    ensures { IfOk result (λ s. characters s ≡ characters_of (map chunk_view pieces.now)) }
{
    let mut text = empty_text(alloc);
    for piece in pieces {
        push_text(&mut text, piece.value.as_str())?;
    }
    Ok(text)
}

/// Two texts, one after the other.
fn joined(alloc: Global, start: &str, end: &str) -> Result<String, AllocError>
    ensures { IfOk result (λ s. characters s ≡ chars start.now ++ chars end.now) }
{
    let mut text = empty_text(alloc);
    push_text(&mut text, start)?;
    push_text(&mut text, end)?;
    Ok(text)
}

/// The text of a number as it was written, where there is one that is not empty.
pub(crate) fn written_number<'a>(text: Option<String>) -> Option<Answer<'a>>
    ensures { answer_if result ≡ answering.or_no_answer (λ cs. answering.of_number (Text cs))
        (option_map characters text) }
{
    text_for_number(text?)
}

/// A number by the text that was written, where there is one that is not empty, and pages by it where their numbers have noughts before
/// them.
pub(crate) fn as_text<'a>(text: Option<String>, answer: Option<Answer<'a>>) -> Option<Answer<'a>>
    ensures { answer_if result
        ≡ answering.as_text (option_map characters text) (answer_if answer.entry) }
{
    let Some(text) = text else {
        return answer;
    };
    if has_text(text.as_str()) && is_count(&answer) {
        return Some(Answer::Number(MaybeTyped::String(text)));
    }
    if has_padding(text.as_str()) && is_ranges(&answer) {
        return Some(Answer::Pages(MaybeTyped::String(text)));
    }
    answer
}

/// Whether it is a number, or a text instead of it.
fn is_count(answer: &Option<Answer<'_>>) -> bool
    ensures { result ≡ answering.is_count (answer_if answer.now) }
{
    matches!(answer, Some(Answer::Number(_) | Answer::Locator(_)))
}

/// Whether it is pages, or a text instead of them.
fn is_ranges(answer: &Option<Answer<'_>>) -> bool
    ensures { result ≡ answering.is_ranges (answer_if answer.now) }
{
    matches!(answer, Some(Answer::Pages(_)))
}

/// The number, or a text instead of it that is not empty.
pub(crate) fn number_or_text(number: MaybeTyped<Cow<'_, Numeric>>) -> Option<Answer<'_>>
    ensures { answer_if result ≡ answering.of_number (lent_number_view number.entry) }
{
    match number {
        MaybeTyped::Typed(number) => Some(Answer::Number(MaybeTyped::Typed(number))),
        MaybeTyped::String(text) => text_for_number(text),
    }
}

/// A text instead of a number, where it is not empty.
fn text_for_number<'a>(text: String) -> Option<Answer<'a>>
    ensures { answer_if result ≡ answering.of_number (Text (characters text)) }
{
    if has_text(text.as_str()) {
        Some(Answer::Number(MaybeTyped::String(text)))
    } else {
        None
    }
}

/// A number that counts; one that is too great for a number is a text in digits.
pub(crate) fn count<'a>(alloc: Global, number: u128) -> Result<Answer<'a>, AllocError>
    ensures { IfOk result (λ a. answer_view a ≡ answering.of_count number) }
{
    if number < 0x8000_0000 {
        return Ok(numeral(number as i32));
    }
    let text = digits(alloc, number)?;
    Ok(Answer::Number(MaybeTyped::String(text)))
}

/// A number alone.
fn numeral<'a>(number: i32) -> Answer<'a>
    ensures { answer_view result ≡ answering.count (Value (plain number)) }
{
    Answer::Number(MaybeTyped::Typed(Cow::Owned(Numeric::new(number))))
}

fn digits(alloc: Global, number: u128) -> Result<String, AllocError>
    ensures { IfOk result (λ s. characters s ≡ decimal number) }
{
    let mut text = empty_text(alloc);
    write!(text, "{number}")?;
    Ok(text)
}

/// The locator's text, or where it counts pages what it says of these, as the style prints them. In a published style the hyphens of
/// ranges are en dashes.
pub(crate) fn locator<'a>(
    alloc: Global,
    format: Option<PageRangeFormat>,
    is_published: bool,
    locator: &SpecificLocator<'a, ()>,
) -> Result<Option<Answer<'a>>, AllocError>
    ensures { IfOk result (λ a. answer_if a
        ≡ answering.of_locator format is_published (locator_view locator.now)) }
{
    if is_locator(Locator::Page, locator.label) {
        page_payload(alloc, format, is_published, &locator.payload)
    } else {
        payload(alloc, is_published, &locator.payload)
    }
}

/// What the locator's text says of pages, or that the caller prints it.
fn page_payload<'a>(
    alloc: Global,
    format: Option<PageRangeFormat>,
    is_published: bool,
    payload: &LocatorPayload<'a, ()>,
) -> Result<Option<Answer<'a>>, AllocError>
    ensures { IfOk result (λ a. answer_if a
        ≡ answering.of_page_payload format is_published (payload_view payload.now)) }
{
    match payload {
        LocatorPayload::Str(text) => page_text_in(alloc, format, is_published, text),
        LocatorPayload::Transparent(_) => Ok(Some(Answer::Transparent)),
    }
}

/// In a style that shortens ranges of pages the pages that the locator's text spells, or else the text.
fn page_text_in<'a>(
    alloc: Global,
    format: Option<PageRangeFormat>,
    is_published: bool,
    text: &'a str,
) -> Result<Option<Answer<'a>>, AllocError>
    ensures { IfOk result (λ a. answer_if a
        ≡ answering.page_text_in format is_published (chars text.now)) }
{
    match format {
        Some(_) => spelled_pages(alloc, is_published, text),
        None => page_text(alloc, is_published, text),
    }
}

/// The locator's text, where it is not empty: in a published style as a text in place of pages.
fn page_text<'a>(
    alloc: Global,
    is_published: bool,
    text: &'a str,
) -> Result<Option<Answer<'a>>, AllocError>
    ensures { IfOk result (λ a. answer_if a
        ≡ answering.page_text is_published (chars text.now)) }
{
    if is_published {
        text_for_pages(alloc, text)
    } else {
        Ok(borrowed_text(text))
    }
}

/// A copy of a text in place of pages, where it is not empty.
fn text_for_pages<'a>(alloc: Global, text: &str) -> Result<Option<Answer<'a>>, AllocError>
    ensures { IfOk result (λ a. answer_if a ≡ answering.of_pages (Text (chars text.now))) }
{
    let text = owned(alloc, text)?;
    Ok(pages_with_text(MaybeTyped::String(text)))
}

/// The pages that the locator's text spells, or else the text.
fn spelled_pages<'a>(
    alloc: Global,
    is_published: bool,
    text: &'a str,
) -> Result<Option<Answer<'a>>, AllocError>
    ensures { IfOk result (λ a. answer_if a
        ≡ answering.spelled_pages is_published (chars text.now) (pages_of (chars text.now))) }
{
    match PageRanges::read(alloc, text) {
        Ok(pages) => read_pages(alloc, is_published, text, pages),
        Err(PageRangesError::Malformed) => page_text(alloc, is_published, text),
        Err(PageRangesError::Memory) => Err(AllocError),
    }
}

/// The pages that were read of the locator's text, or in a published style the text, where numbers have noughts before them.
fn read_pages<'a>(
    alloc: Global,
    is_published: bool,
    text: &str,
    pages: PageRanges,
) -> Result<Option<Answer<'a>>, AllocError>
    ensures { IfOk result (λ a. answer_if a
        ≡ answering.spelled_pages is_published (chars text.now) (Ok (pages_view pages))) }
{
    if is_published && has_padding(text) {
        return text_for_pages(alloc, text);
    }
    Ok(Some(Answer::Pages(MaybeTyped::Typed(pages))))
}

/// The locator's text, where it is not empty, or that the caller prints it.
fn payload<'a>(
    alloc: Global,
    is_published: bool,
    payload: &LocatorPayload<'a, ()>,
) -> Result<Option<Answer<'a>>, AllocError>
    ensures { IfOk result (λ a. answer_if a
        ≡ answering.of_payload is_published (payload_view payload.now)) }
{
    match payload {
        LocatorPayload::Str(text) => locator_text(alloc, is_published, text),
        LocatorPayload::Transparent(_) => Ok(Some(Answer::Transparent)),
    }
}

/// The locator's text, where it is not empty; in a published style with the hyphens of its ranges as en dashes.
fn locator_text<'a>(
    alloc: Global,
    is_published: bool,
    text: &'a str,
) -> Result<Option<Answer<'a>>, AllocError>
    ensures { IfOk result (λ a. answer_if a
        ≡ answering.of_number (Text (answering.dashed_if is_published (chars text.now)))) }
{
    if is_published {
        Ok(text_for_number(dashed(alloc, text)?))
    } else {
        Ok(borrowed_text(text))
    }
}

/// The locator's text as it is, where it is not empty.
fn borrowed_text(text: &str) -> Option<Answer<'_>>
    ensures { answer_if result ≡ answering.of_number (Text (chars text.now)) }
{
    if has_text(text) {
        Some(Answer::Locator(text))
    } else {
        None
    }
}

/// The pages, where they have a text.
pub(crate) fn pages_of<'a, E: EntryLike>(
    alloc: Global,
    entry: &'a E,
) -> Result<Option<Answer<'a>>, AllocError>
    ensures { IfOk result (λ a. answer_if a
        ≡ answering.or_no_answer answering.of_pages (E.answers entry.now).pages) }
{
    match entry.resolve_page_variable(alloc)? {
        Some(pages) => Ok(pages_with_text(pages)),
        None => Ok(None),
    }
}

/// The pages, where they have a text.
fn pages_with_text<'a>(pages: MaybeTyped<PageRanges>) -> Option<Answer<'a>>
    ensures { answer_if result ≡ answering.of_pages (typed_view pages_view pages) }
{
    if are_printed(&pages) {
        Some(Answer::Pages(pages))
    } else {
        None
    }
}

/// Whether pages, or what stands instead of them, have a text.
fn are_printed(pages: &MaybeTyped<PageRanges>) -> bool
    ensures { result ≡ is_filled (answering.ranges_text (typed_view pages_view pages.now)) }
{
    match pages {
        MaybeTyped::Typed(pages) => have_text(pages),
        MaybeTyped::String(text) => has_text(text.as_str()),
    }
}
