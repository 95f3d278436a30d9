//! Answers on a page.

ghost use Rattle.std.specs.Prelude.{◌≡◌, IfOk, OnOk};
ghost use Rattle.std.specs.Cow.{cow_value};
ghost use Rattle.std.specs.Str.{chars};
ghost use Rattle.laws.specs.Text.{characters, spelled};
ghost use Rattle.literature_numbers.specs.PageViews.{pages_view};
ghost use Rattle.literature_values.specs.TypedViews.{typed_view, Text};
ghost use Rattle.rendering_context.specs.Views.{answer_if, context_view};
ghost use Rattle.rendering_entries.specs.Answers.{Answers};
ghost use Rattle.rendering_entries.specs.Library.{one_chunk};
ghost use Rattle.rendering_entries.specs.Views.{lent_number_view, lent_text_view};
ghost use Rattle.rendering_leaves.specs.Values.{answer_pieces, page_delimiter, printed_pages, ranges_in};
ghost use Rattle.rendering_leaves.specs.Words.{number_in};
ghost use Rattle.rendering_locale.specs.Lookup.{ordinals_of};
ghost use Rattle.rendering_numbers.specs.Numbers.{numeral_or_text};
ghost use Rattle.rendering_page.specs.Pages.{append_normal};
ghost use Rattle.rendering_page.specs.Pieces.{append_pieces, chunk_pieces};
ghost use Rattle.rendering_page.specs.Views.{quotes_view, manner_view};
ghost use Rattle.rendering_ranges.specs.Ranges.{pages_in};

use crate::numeral::{in_form, numeral_text};
use literature_values::{ChunkedString, MaybeTyped, Numeric, PageRanges};
use rendering_cases::cased_text;
use rendering_context::{Answer, Context};
use rendering_locale::AskedLocales;
use rendering_page::{Manner, Page, uncased};
use rendering_ranges::{delimited, lettered, push_ranges};
use rendering_taxonomy::{NumberForm, OtherTerm, PageRangeFormat, Term, TermForm};
use std::alloc::{AllocError, Global};
use std::borrow::Cow;
use texts::{empty_text, owned};

/// Appends an answer, with numbers in a form. Without an answer nothing is appended.
pub(crate) fn append_answer<'a>(
    context: &Context<'_, 'a>,
    manner: Manner,
    form: NumberForm,
    answer: Option<Answer<'a>>,
    page: &mut Page<'a>,
) -> Result<(), AllocError>
    ensures { (a : Answers)
        → OnOk result (page.new ≡ append_pieces (quotes_view context.now.quotes.now) (answer_pieces
        (context_view a context.now) (manner_view manner) form (answer_if answer.entry)) page.old) }
{
    let Some(answer) = answer else {
        return Ok(());
    };
    match answer {
        Answer::Text(text) => append_chunks(context, manner, text, page),
        Answer::YearSuffix(year_suffix) => append_suffix(context, manner, year_suffix, page),
        Answer::Address { text, url } => page.push_made_link(manner.formatting, text, url),
        Answer::Number(number) => append_number(context, manner, form, number, page),
        Answer::Locator(text) => append_locator(context, manner, form, text, page),
        Answer::Pages(pages) => append_pages(context, manner, pages, page),
        Answer::Transparent => {
            page.push_transparent(manner.formatting, context.properties.initial_idx)
        }
    }
}

/// Appends a text in pieces, borrowed or not.
fn append_chunks<'a>(
    context: &Context<'_, 'a>,
    manner: Manner,
    text: Cow<'a, ChunkedString>,
    page: &mut Page<'a>,
) -> Result<(), AllocError>
    ensures { OnOk result (page.new ≡ append_pieces (quotes_view context.now.quotes.now)
        (chunk_pieces (manner_view manner) (lent_text_view text.entry)) page.old) }
{
    match text {
        Cow::Borrowed(text) => page.push_chunks(context.quotes, manner, &text.0),
        Cow::Owned(text) => page.push_made_chunks(context.quotes, manner, text),
    }
}

/// Appends a year suffix, as a text of one piece.
fn append_suffix<'a>(
    context: &Context<'_, 'a>,
    manner: Manner,
    year_suffix: &'a str,
    page: &mut Page<'a>,
) -> Result<(), AllocError>
    ensures { OnOk result (page.new ≡ append_pieces (quotes_view context.now.quotes.now)
        (chunk_pieces (manner_view manner) (one_chunk (chars year_suffix.now))) page.old) }
{
    match manner.text_case {
        Some(_) => append_cased_suffix(context, manner, year_suffix, page),
        None => page.push_text(context.quotes, uncased(manner), year_suffix),
    }
}

/// Appends a year suffix in the case of a manner.
fn append_cased_suffix<'a>(
    context: &Context<'_, 'a>,
    manner: Manner,
    year_suffix: &str,
    page: &mut Page<'a>,
) -> Result<(), AllocError>
    ensures { OnOk result (page.new ≡ append_pieces (quotes_view context.now.quotes.now)
        (chunk_pieces (manner_view manner) (one_chunk (chars year_suffix.now))) page.old) }
{
    let text = cased_text(
        context.alloc,
        year_suffix,
        manner.text_case,
        manner.is_english,
    )?;
    page.push_made(context.quotes, uncased(manner), text)
}

/// Appends a number in a form, or the text instead of it.
fn append_number<'a>(
    context: &Context<'_, 'a>,
    manner: Manner,
    form: NumberForm,
    number: MaybeTyped<Cow<'a, Numeric>>,
    page: &mut Page<'a>,
) -> Result<(), AllocError>
    ensures { OnOk result (page.new ≡ append_normal (quotes_view context.now.quotes.now)
        (manner_view manner) (number_in context.now.is_published
        (ordinals_of context.now.locales.now) form (lent_number_view number.entry)) page.old) }
{
    let text = number_in(context, form, number)?;
    page.push_made(context.quotes, manner, text)
}

/// Appends the text of a locator, in a published style with its numbers in a form.
fn append_locator<'a>(
    context: &Context<'_, 'a>,
    manner: Manner,
    form: NumberForm,
    text: &'a str,
    page: &mut Page<'a>,
) -> Result<(), AllocError>
    ensures { OnOk result (page.new ≡ append_normal (quotes_view context.now.quotes.now)
        (manner_view manner) (number_in context.now.is_published
        (ordinals_of context.now.locales.now) form (Text (chars text.now))) page.old) }
{
    if !context.is_published {
        return page.push_text(context.quotes, manner, text);
    }
    let text = owned(context.alloc, text)?;
    append_number(context, manner, form, MaybeTyped::String(text), page)
}

/// A number in a form, or the text instead of it; in a published style a number beside letters stays as it is.
fn number_in(
    context: &Context<'_, '_>,
    form: NumberForm,
    number: MaybeTyped<Cow<'_, Numeric>>,
) -> Result<String, AllocError>
    ensures { IfOk result (λ s. characters s ≡ number_in context.now.is_published
        (ordinals_of context.now.locales.now) form (lent_number_view number.entry)) }
{
    if !context.is_published {
        return numeral_or_text(context, form, number);
    }
    let text = numeral_or_text(context, NumberForm::Numeric, number)?;
    in_form(context.alloc, context.locales, form, text)
}

/// A number in a form with the letters beside it, or the text instead of it.
fn numeral_or_text(
    context: &Context<'_, '_>,
    form: NumberForm,
    number: MaybeTyped<Cow<'_, Numeric>>,
) -> Result<String, AllocError>
    ensures { IfOk result (λ s. characters s ≡ numeral_or_text
        (ordinals_of context.now.locales.now) form (lent_number_view number.entry)) }
{
    match number {
        MaybeTyped::Typed(numeral) => {
            numeral_text(
                context.alloc,
                context.locales,
                form,
                borrowed_numeral(&numeral),
            )
        }
        MaybeTyped::String(text) => Ok(text),
    }
}

/// A numeral that is borrowed or not.
fn borrowed_numeral<'n>(numeral: &'n Cow<'_, Numeric>) -> &'n Numeric
    ensures { result.now ≡ cow_value numeral.now }
{
    match numeral {
        Cow::Borrowed(numeral) => numeral,
        Cow::Owned(numeral) => numeral,
    }
}

/// Appends pages as the style prints them, or the text instead of them.
fn append_pages<'a>(
    context: &Context<'_, 'a>,
    manner: Manner,
    pages: MaybeTyped<PageRanges>,
    page: &mut Page<'a>,
) -> Result<(), AllocError>
    ensures { OnOk result (page.new ≡ append_normal (quotes_view context.now.quotes.now)
        (manner_view manner) (printed_pages context.now.locales.now context.now.page_ranges
        context.now.is_published (typed_view pages_view pages)) page.old) }
{
    let text = printed_pages(context, pages)?;
    page.push_made(context.quotes, manner, text)
}

/// Pages as the style shortens them, or the text instead of them; in a published style with the text of locales in their ranges.
fn printed_pages(
    context: &Context<'_, '_>,
    pages: MaybeTyped<PageRanges>,
) -> Result<String, AllocError>
    ensures { IfOk result (λ s. characters s ≡ printed_pages context.now.locales.now
        context.now.page_ranges context.now.is_published (typed_view pages_view pages)) }
{
    let text = ranges_in(context, pages)?;
    if context.is_published {
        delimited(context.alloc, page_delimiter(context.locales), text)
    } else {
        Ok(text)
    }
}

/// Pages as the style shortens them, or the text instead of them.
fn ranges_in(context: &Context<'_, '_>, pages: MaybeTyped<PageRanges>) -> Result<String, AllocError>
    ensures { IfOk result (λ s. characters s ≡ ranges_in context.now.page_ranges
        context.now.is_published (typed_view pages_view pages)) }
{
    match pages {
        MaybeTyped::Typed(pages) => pages_in(context.alloc, &pages, context.page_ranges),
        MaybeTyped::String(text) => {
            text_in(
                context.alloc,
                context.page_ranges,
                context.is_published,
                text,
            )
        }
    }
}

/// The text that locales have for ranges of pages.
fn page_delimiter<'a>(locales: &AskedLocales<'a>) -> &'a str
    ensures { spelled result ≡ page_delimiter locales.now }
{
    let term = Term::Other(OtherTerm::PageRangeDelimiter);
    locales.term_text(term, TermForm::Long, false)
}

/// A text instead of pages, in a published style in the format.
fn text_in(
    alloc: Global,
    format: Option<PageRangeFormat>,
    is_published: bool,
    text: String,
) -> Result<String, AllocError>
    ensures { IfOk result (λ s. characters s ≡ ranges_in format is_published
        (Text (characters text))) }
{
    if is_published {
        lettered(alloc, format, text.as_str())
    } else {
        Ok(text)
    }
}

/// Pages in a format, where there is one.
fn pages_in(
    alloc: Global,
    pages: &PageRanges,
    format: Option<PageRangeFormat>,
) -> Result<String, AllocError>
    ensures { IfOk result (λ s. characters s ≡ pages_in format (pages_view pages.now)) }
{
    let mut text = empty_text(alloc);
    push_ranges(&mut text, pages, format)?;
    Ok(text)
}
