//! Texts of entries.

ghost use Rattle.std.specs.Prelude.{◌≡◌, Some, IfOk};
ghost use Rattle.std.specs.Option.{option_map};
ghost use Rattle.std.specs.Str.{chars};
ghost use Rattle.laws.specs.Text.{characters};
ghost use Rattle.literature_values.specs.OtherViews.{address_view};
ghost use Rattle.literature_values.specs.TextViews.{chunks_view, format_view};
ghost use Rattle.literature_entries.specs.Views.{fields_view, view_in};
ghost use Rattle.rendering_entries.specs.Library.{one_chunk, serial_text, long_text, short_text, text_in, title_of, address_text, label_of, standard_answer};
ghost use Rattle.rendering_entries.specs.Views.{lent_text_view, entry_ancestry};

use crate::labels::label;
use crate::nearest::{nearest_isbn, nearest_issn, nearest_place, nearest_publisher};
use crate::works::{collection, container, first_parent};
use literature_entries::Entry;
use literature_values::{
    ChunkKind, ChunkedString, EntryType, FormatString, MaybeTyped, QualifiedUrl, StringChunk,
};
use rendering_taxonomy::{LongShortForm, StandardVariable};
use std::alloc::{AllocError, Global};
use std::borrow::Cow;
use texts::owned;

/// The text of a variable in a form; `event` is an older name of `event-title`. Entries have none for other variables; the year suffix
/// is a cite's.
///
/// # Errors
/// Out of memory.
pub(crate) fn standard_answer(
    alloc: Global,
    entry: &Entry,
    form: LongShortForm,
    variable: StandardVariable,
) -> Result<Option<Cow<'_, ChunkedString>>, AllocError>
    ensures { IfOk result (λ t. option_map lent_text_view t
        ≡ standard_answer (entry_ancestry entry.now) form variable) }
{
    match variable {
        StandardVariable::CitationLabel => label_text(alloc, entry),
        StandardVariable::CollectionTitle => Ok(title_of(collection(entry)?)),
        StandardVariable::ContainerTitle => Ok(title_of(container(entry))),
        StandardVariable::Doi => serial_text(alloc, entry.doi()),
        StandardVariable::Event | StandardVariable::EventTitle => {
            Ok(title_of(first_parent(entry, EntryType::Conference)))
        }
        StandardVariable::Isbn => serial_text(alloc, nearest_isbn(entry)?),
        StandardVariable::Issn => serial_text(alloc, nearest_issn(entry)?),
        StandardVariable::Note => Ok(long_text(entry.note())),
        StandardVariable::Publisher => Ok(long_text(nearest_publisher(entry)?)),
        StandardVariable::PublisherPlace => Ok(long_text(nearest_place(entry)?)),
        StandardVariable::Title => Ok(text_in(form, entry.title())),
        StandardVariable::TitleShort => Ok(short_text(entry.title())),
        StandardVariable::Url => url_text(alloc, entry),
        _ => Ok(None),
    }
}

/// A text as one ordinary piece.
fn one_chunk(alloc: Global, value: String) -> Result<ChunkedString, AllocError>
    ensures { IfOk result (λ t. chunks_view t ≡ one_chunk (characters value)) }
{
    let mut pieces = Vec::new(alloc);
    pieces.push(StringChunk {
        value,
        kind: ChunkKind::Normal,
    })?;
    Ok(ChunkedString(pieces))
}

/// The label of the entry, with three letters of one name.
fn label_text(alloc: Global, entry: &Entry) -> Result<Option<Cow<'_, ChunkedString>>, AllocError>
    ensures { IfOk result (λ t. option_map lent_text_view t
        ≡ Some (one_chunk (label_of 3 (entry_ancestry entry.now)))) }
{
    let label = label(alloc, entry, 3)?;
    Ok(Some(Cow::Owned(one_chunk(alloc, label)?)))
}

/// A serial number as a text of one piece.
fn serial_text<'a>(
    alloc: Global,
    number: Option<&'a str>,
) -> Result<Option<Cow<'a, ChunkedString>>, AllocError>
    ensures { IfOk result (λ t. option_map lent_text_view t
        ≡ serial_text (view_in (λ s. s) number.entry)) }
{
    match number {
        Some(number) => Ok(Some(Cow::Owned(copied_text(alloc, number)?))),
        None => Ok(None),
    }
}

/// A copy of a text as one ordinary piece.
fn copied_text(alloc: Global, text: &str) -> Result<ChunkedString, AllocError>
    ensures { IfOk result (λ t. chunks_view t ≡ one_chunk (chars text.now)) }
{
    one_chunk(alloc, owned(alloc, text)?)
}

/// The address as a text of one piece.
fn url_text(alloc: Global, entry: &Entry) -> Result<Option<Cow<'_, ChunkedString>>, AllocError>
    ensures { IfOk result (λ t. option_map lent_text_view t
        ≡ option_map (λ u. one_chunk (address_text u.value)) (fields_view entry.now).url) }
{
    match entry.url() {
        Some(url) => Ok(Some(Cow::Owned(copied_text(alloc, address(url))?))),
        None => Ok(None),
    }
}

/// The address as it is written.
fn address(url: &QualifiedUrl) -> &str
    ensures { chars result.now ≡ address_text (address_view url.now).value }
{
    match &url.value {
        MaybeTyped::Typed(url) => url.as_str(),
        MaybeTyped::String(text) => text.as_str(),
    }
}

/// The text in its long form.
fn long_text(text: Option<&FormatString>) -> Option<Cow<'_, ChunkedString>>
    ensures { option_map lent_text_view result ≡ long_text (view_in format_view text.entry) }
{
    Some(Cow::Borrowed(&text?.value))
}

/// The text in its short form, where it has one.
fn short_text(text: Option<&FormatString>) -> Option<Cow<'_, ChunkedString>>
    ensures { option_map lent_text_view result ≡ short_text (view_in format_view text.entry) }
{
    Some(Cow::Borrowed(text?.short.as_ref()?))
}

/// The text in a form; the long form is taken for a short one that is not there.
fn text_in(form: LongShortForm, text: Option<&FormatString>) -> Option<Cow<'_, ChunkedString>>
    ensures { option_map lent_text_view result
        ≡ option_map (text_in form) (view_in format_view text.entry) }
{
    let text = text?;
    match form {
        LongShortForm::Long => Some(Cow::Borrowed(&text.value)),
        LongShortForm::Short => Some(Cow::Borrowed(short_or_long(text))),
    }
}

/// The short form, or the long one where there is none.
fn short_or_long(text: &FormatString) -> &ChunkedString
    ensures { chunks_view result.now ≡ text_in LongShortForm.Short (format_view text.now) }
{
    match &text.short {
        Some(short) => short,
        None => &text.value,
    }
}

fn title_of(work: Option<&Entry>) -> Option<Cow<'_, ChunkedString>>
    ensures { option_map lent_text_view result ≡ title_of (view_in fields_view work.entry) }
{
    long_text(work?.title())
}
