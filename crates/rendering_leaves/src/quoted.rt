//! The double quotes of texts, which are those of the locale in a published style.

ghost use Rattle.std.specs.Prelude.{◌≡◌, ◌++◌, map, IfOk, OnOk};
ghost use Rattle.std.specs.List.{list_any};
ghost use Rattle.std.specs.Str.{chars};
ghost use Rattle.laws.specs.Runs.{after};
ghost use Rattle.laws.specs.Text.{characters};
ghost use Rattle.literature_values.specs.TextViews.{chunk_view, chunks_view};
ghost use Rattle.rendering_context.specs.Views.{answer_if, answer_view};
ghost use Rattle.rendering_context.specs.Answering.{pieces};
ghost use Rattle.rendering_entries.specs.Library.{one_chunk};
ghost use Rattle.rendering_entries.specs.Views.{lent_text_view};
ghost use Rattle.rendering_leaves.specs.Quoted as specs;
ghost use Rattle.rendering_leaves.specs.Quoted.{is_unquoted};

use crate::quotes::{close_term, open_term};
use literature_values::{ChunkKind, ChunkedString, StringChunk};
use rendering_context::{Answer, Context};
use rendering_locale::AskedLocales;
use std::alloc::{AllocError, Global};
use std::borrow::Cow;
use texts::{
    CharacterClass, empty_text, has_text, push_character, push_text, split_first, split_run,
};

/// Whether the quotes of a text are inner ones: outer ones stand around it, its own or those of a macro.
pub(crate) fn are_inner(quotes: bool, inside: bool) -> bool
    ensures { result ≡ specs.are_inner quotes inside }
{
    if quotes { !inside } else { inside }
}

/// Whether the character is a double quote.
fn is_quote(c: char) -> bool
    ensures { result ≡ specs.is_quote c }
{
    c == '\u{201c}' || c == '\u{201d}'
}

/// The characters that are no double quotes.
#[derive(Clone, Copy)]
struct Unquoted;

impl CharacterClass for Unquoted {
    ghost passes = { λ _ c. is_unquoted c };

    fn contains(self, c: char) -> bool {
        !is_quote(c)
    }
}

/// The text from its first double quote on.
fn from_quote(text: &str) -> &str
    ensures { chars result.now ≡ after is_unquoted (chars text.now) }
{
    split_run(text, Unquoted).1
}

/// Whether a text has a double quote.
fn has_quote(text: &str) -> bool
    ensures { result ≡ list_any specs.is_quote (chars text.now) }
{
    has_text(from_quote(text))
}

/// Whether a piece has a double quote; those of formulas do not count.
fn chunk_has_quote(chunk: &StringChunk) -> bool
    ensures { result ≡ specs.chunk_has_quote (chunk_view chunk.now) }
{
    match chunk.kind {
        ChunkKind::Math => false,
        ChunkKind::Normal | ChunkKind::Verbatim => has_quote(chunk.value.as_str()),
    }
}

/// Whether one of these pieces has a double quote.
fn have_quotes(chunks: &[StringChunk]) -> bool
    ensures { result ≡ list_any specs.chunk_has_quote (map chunk_view chunks.now) }
{
    for chunk in chunks {
        if chunk_has_quote(chunk) {
            return true;
        }
    }
    false
}

/// Appends a quote of the locale, or the character as it is written where no locale has one.
fn push_quote(text: &mut String, quote: &str, written: char) -> Result<(), AllocError>
    ensures { OnOk result (characters text.new
        ≡ characters text.old ++ specs.quote_or (chars quote.now) written) }
{
    if has_text(quote) {
        return push_text(text, quote);
    }
    push_character(text, written)
}

/// Appends a character of a text: for a double quote the locale's outer one, or its inner one where the text stands in outer quotes.
fn push_requoted(
    locales: &AskedLocales<'_>,
    inner: bool,
    text: &mut String,
    c: char,
) -> Result<(), AllocError>
    ensures { OnOk result (characters text.new
        ≡ characters text.old ++ specs.requoted_character locales.now inner c) }
{
    if c == '\u{201c}' {
        return push_quote(text, locales.quote_text(open_term(inner)), c);
    }
    if c == '\u{201d}' {
        return push_quote(text, locales.quote_text(close_term(inner)), c);
    }
    push_character(text, c)
}

/// A text with the quotes of the locale.
fn requoted_text(
    alloc: Global,
    locales: &AskedLocales<'_>,
    inner: bool,
    text: &str,
) -> Result<String, AllocError>
    ensures { IfOk result (λ s. characters s
        ≡ specs.requoted_text locales.now inner (chars text.now)) }
{
    let mut written = empty_text(alloc);
    let mut rest = text;
    while let Some((c, more)) = split_first(rest) {
        push_requoted(locales, inner, &mut written, c)?;
        rest = more;
    }
    Ok(written)
}

/// The text of a piece with the quotes of the locale.
fn requoted_value(
    alloc: Global,
    locales: &AskedLocales<'_>,
    inner: bool,
    chunk: &StringChunk,
) -> Result<String, AllocError>
    ensures { IfOk result (λ s. characters s
        ≡ specs.requoted_value locales.now inner chunk.now.kind (characters chunk.now.value)) }
{
    match chunk.kind {
        ChunkKind::Math => chunk.value.clone(),
        ChunkKind::Normal | ChunkKind::Verbatim => {
            requoted_text(alloc, locales, inner, chunk.value.as_str())
        }
    }
}

/// A piece with the quotes of the locale.
fn requoted_chunk(
    alloc: Global,
    locales: &AskedLocales<'_>,
    inner: bool,
    chunk: &StringChunk,
) -> Result<StringChunk, AllocError>
    ensures { IfOk result (λ k. chunk_view k
        ≡ specs.requoted_chunk locales.now inner (chunk_view chunk.now)) }
{
    Ok(StringChunk {
        value: requoted_value(alloc, locales, inner, chunk)?,
        kind: chunk.kind,
    })
}

/// Pieces with the quotes of the locale.
fn requoted_chunks(
    alloc: Global,
    locales: &AskedLocales<'_>,
    inner: bool,
    chunks: &[StringChunk],
) -> Result<ChunkedString, AllocError>
    ensures { IfOk result (λ s. chunks_view s
        ≡ specs.requoted_chunks locales.now inner (map chunk_view chunks.now)) }
{
    let mut written = Vec::with_capacity(alloc, chunks.len())?;
    for chunk in chunks {
        written.push(requoted_chunk(alloc, locales, inner, chunk)?)?;
    }
    Ok(ChunkedString(written))
}

/// A text, borrowed or not, with the quotes of the locale; one without double quotes is not copied.
#[tactic(auto, using(crate::proofs::QuotesInside::chunks_stay))]
fn requoted_lent<'a>(
    context: &Context<'_, 'a>,
    inner: bool,
    text: Cow<'a, ChunkedString>,
) -> Result<Cow<'a, ChunkedString>, AllocError>
    ensures { IfOk result (λ t. lent_text_view t
        ≡ specs.requoted_chunks context.now.locales.now inner (lent_text_view text.entry)) }
{
    if !have_quotes(text.0.as_slice()) {
        return Ok(text);
    }
    let chunks = requoted_chunks(context.alloc, context.locales, inner, text.0.as_slice())?;
    Ok(Cow::Owned(chunks))
}

/// A year suffix with the quotes of the locale; one without double quotes is not copied.
#[tactic(auto, using(crate::proofs::QuotesInside::text_stays))]
fn requoted_suffix<'a>(
    context: &Context<'_, 'a>,
    inner: bool,
    suffix: &'a str,
) -> Result<Answer<'a>, AllocError>
    ensures { IfOk result (λ h. answer_view h ≡ pieces (specs.requoted_chunks
        context.now.locales.now inner (one_chunk (chars suffix.entry.now)))) }
{
    if !has_quote(suffix) {
        return Ok(Answer::YearSuffix(suffix));
    }
    let mut chunks = Vec::new(context.alloc);
    chunks.push(StringChunk {
        value: requoted_text(context.alloc, context.locales, inner, suffix)?,
        kind: ChunkKind::Normal,
    })?;
    Ok(Answer::Text(Cow::Owned(ChunkedString(chunks))))
}

/// An answer with the quotes of the locale.
fn requoted_answer<'a>(
    context: &Context<'_, 'a>,
    inner: bool,
    answer: Answer<'a>,
) -> Result<Answer<'a>, AllocError>
    ensures { IfOk result (λ h. answer_view h
        ≡ specs.with_quotes context.now.locales.now inner (answer_view answer.entry)) }
{
    match answer {
        Answer::Text(text) => Ok(Answer::Text(requoted_lent(context, inner, text)?)),
        Answer::YearSuffix(suffix) => requoted_suffix(context, inner, suffix),
        Answer::Address { text, url } => Ok(Answer::Address { text, url }),
        Answer::Number(number) => Ok(Answer::Number(number)),
        Answer::Locator(text) => Ok(Answer::Locator(text)),
        Answer::Pages(pages) => Ok(Answer::Pages(pages)),
        Answer::Transparent => Ok(Answer::Transparent),
    }
}

/// An answer, whose texts have the quotes of the locale in a published style.
pub(crate) fn requoted<'a>(
    context: &Context<'_, 'a>,
    inner: bool,
    answer: Option<Answer<'a>>,
) -> Result<Option<Answer<'a>>, AllocError>
    ensures { IfOk result (λ h. answer_if h ≡ specs.quoted_if context.now.is_published
        context.now.locales.now inner (answer_if answer.entry)) }
{
    if !context.is_published {
        return Ok(answer);
    }
    match answer {
        Some(answer) => Ok(Some(requoted_answer(context, inner, answer)?)),
        None => Ok(None),
    }
}
