//! Numbers of entries.

ghost use Rattle.std.specs.Prelude.{◌≡◌, codes, option_and_then, IfOk};
ghost use Rattle.std.specs.Option.{option_map};
ghost use Rattle.literature_numbers.specs.Views.{numeral_view};
ghost use Rattle.literature_values.specs.TypedViews.{typed_view};
ghost use Rattle.literature_entries.specs.Names.{serial};
ghost use Rattle.literature_entries.specs.Views.{fields_view, view_in};
ghost use Rattle.rendering_entries.specs.Library.{read_number, first_page, number_answer};
ghost use Rattle.rendering_entries.specs.Views.{lent_number_view, entry_ancestry};

use crate::nearest::{nearest_edition, nearest_issue, nearest_volume, nearest_volume_total};
use literature_entries::Entry;
use literature_values::{MaybeTyped, Numeric};
use rendering_taxonomy::NumberVariable;
use std::alloc::{AllocError, Global};
use std::borrow::Cow;

/// The number of a variable. Entries have none for other variables; those of a cite are not theirs.
///
/// # Errors
/// Out of memory.
pub(crate) fn number_answer(
    alloc: Global,
    entry: &Entry,
    variable: NumberVariable,
) -> Result<Option<MaybeTyped<Cow<'_, Numeric>>>, AllocError>
    ensures { IfOk result (λ n. option_map lent_number_view n
        ≡ number_answer (entry_ancestry entry.now) variable) }
{
    match variable {
        NumberVariable::ChapterNumber => borrowed_number(entry.chapter()),
        NumberVariable::Edition => borrowed_number(nearest_edition(entry)?),
        NumberVariable::Issue => borrowed_number(nearest_issue(entry)?),
        NumberVariable::Number => serial_number(alloc, entry),
        NumberVariable::NumberOfPages => borrowed_number(entry.page_total()),
        NumberVariable::NumberOfVolumes => borrowed_number(nearest_volume_total(entry)?),
        NumberVariable::PageFirst => Ok(first_page(entry)),
        NumberVariable::Volume => borrowed_number(nearest_volume(entry)?),
        _ => Ok(None),
    }
}

/// The number, borrowed; a text instead of it is copied.
fn borrowed_number(
    number: Option<&MaybeTyped<Numeric>>,
) -> Result<Option<MaybeTyped<Cow<'_, Numeric>>>, AllocError>
    ensures { IfOk result (λ n. option_map lent_number_view n
        ≡ view_in (typed_view numeral_view) number.entry) }
{
    match number {
        Some(MaybeTyped::Typed(number)) => Ok(Some(MaybeTyped::Typed(Cow::Borrowed(number)))),
        Some(MaybeTyped::String(text)) => Ok(Some(MaybeTyped::String(text.clone()?))),
        None => Ok(None),
    }
}

/// The number that is the serial number `serial`, or its text where that is no number.
fn serial_number(
    alloc: Global,
    entry: &Entry,
) -> Result<Option<MaybeTyped<Cow<'_, Numeric>>>, AllocError>
    ensures { IfOk result (λ n. option_map lent_number_view n
        ≡ option_map read_number (serial (codes "serial") (fields_view entry.now))) }
{
    match entry.keyed_serial_number("serial") {
        Some(text) => Ok(Some(read_number(alloc, text)?)),
        None => Ok(None),
    }
}

/// The number that the text spells, or the text.
fn read_number(alloc: Global, text: &str) -> Result<MaybeTyped<Cow<'static, Numeric>>, AllocError>
    ensures { IfOk result (λ n. lent_number_view n ≡ read_number text.now) }
{
    match MaybeTyped::<Numeric>::read(alloc, text)? {
        MaybeTyped::Typed(number) => Ok(MaybeTyped::Typed(Cow::Owned(number))),
        MaybeTyped::String(text) => Ok(MaybeTyped::String(text)),
    }
}

/// The first page, where the pages were read.
fn first_page(entry: &Entry) -> Option<MaybeTyped<Cow<'_, Numeric>>>
    ensures { option_map lent_number_view result
        ≡ option_and_then first_page (fields_view entry.now).page_range }
{
    match entry.page_range()? {
        MaybeTyped::Typed(pages) => Some(MaybeTyped::Typed(Cow::Borrowed(pages.first()?))),
        MaybeTyped::String(_) => None,
    }
}
