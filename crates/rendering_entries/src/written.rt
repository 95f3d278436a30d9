//! The texts of numbers and of pages as they were written.

ghost use Rattle.std.specs.Prelude.{◌≡◌, codes, option_and_then, IfOk};
ghost use Rattle.std.specs.Option.{option_map};
ghost use Rattle.std.specs.Str.{chars};
ghost use Rattle.laws.specs.Text.{characters};
ghost use Rattle.literature_entries.specs.Names.{serial};
ghost use Rattle.literature_entries.specs.Views.{fields_view, view_in};
ghost use Rattle.rendering_entries.specs.Library.{number_written, page_text, text_instead, text_under, written_answer};
ghost use Rattle.rendering_entries.specs.Views.{entry_ancestry};
ghost use Rattle.rendering_entries.specs.Works.{nearest};

use literature_entries::Entry;
use literature_values::MaybeTyped;
use rendering_ranges::first_in;
use rendering_taxonomy::{NumberVariable, Variable};
use std::alloc::{AllocError, Global};
use texts::owned;

/// The text of a number or of pages as it was written, where it is known. Entries have none for other variables.
///
/// # Errors
/// Out of memory.
pub(crate) fn written_answer(
    alloc: Global,
    entry: &Entry,
    variable: Variable,
) -> Result<Option<String>, AllocError>
    ensures { IfOk result (λ t. option_map characters t
        ≡ written_answer (entry_ancestry entry.now) variable) }
{
    match variable {
        Variable::Number(number) => copied(alloc, number_written(entry, number)?),
        Variable::Page => copied(alloc, page_text(entry)),
        Variable::Standard(_) | Variable::Name(_) | Variable::Date(_) => Ok(None),
    }
}

/// A copy of the text, where there is one.
fn copied(alloc: Global, text: Option<&str>) -> Result<Option<String>, AllocError>
    ensures { IfOk result (λ t. option_map characters t ≡ view_in chars text.entry) }
{
    match text {
        Some(text) => Ok(Some(owned(alloc, text)?)),
        None => Ok(None),
    }
}

/// The text of a number as it was written, where it is known.
fn number_written(entry: &Entry, variable: NumberVariable) -> Result<Option<&str>, AllocError>
    ensures { IfOk result (λ t. view_in chars t
        ≡ number_written (entry_ancestry entry.now) variable) }
{
    match variable {
        NumberVariable::ChapterNumber => Ok(text_under(entry, "chapter")),
        NumberVariable::Edition => Ok(text_in(edition_work(entry)?, "edition")),
        NumberVariable::Issue => Ok(text_in(issue_work(entry)?, "issue")),
        NumberVariable::Number => Ok(serial_text(entry)),
        NumberVariable::NumberOfPages => Ok(text_under(entry, "page-total")),
        NumberVariable::NumberOfVolumes => {
            Ok(text_in(volume_total_work(entry)?, "volume-total"))
        }
        NumberVariable::PageFirst => Ok(first_page_text(entry)),
        NumberVariable::Volume => Ok(text_in(volume_work(entry)?, "volume")),
        _ => Ok(None),
    }
}

/// The text of a number or of pages of the work itself, by the name of its field.
fn text_under<'e>(work: &'e Entry, field: &str) -> Option<&'e str>
    ensures { view_in chars result ≡ text_under field.now (fields_view work.now) }
{
    work.written(field)
}

/// The same of a work that may be there.
fn text_in<'e>(work: Option<&'e Entry>, field: &str) -> Option<&'e str>
    ensures { view_in chars result
        ≡ option_and_then (text_under field.now) (view_in fields_view work.entry) }
{
    text_under(work?, field)
}

/// The serial number `serial`.
fn serial_text(entry: &Entry) -> Option<&str>
    ensures { view_in chars result
        ≡ option_map chars (serial (codes "serial") (fields_view entry.now)) }
{
    entry.keyed_serial_number("serial")
}

/// The text of the pages as it was written, or the one that stands instead of them.
fn page_text(entry: &Entry) -> Option<&str>
    ensures { view_in chars result ≡ page_text (fields_view entry.now) }
{
    match text_under(entry, "page-range") {
        Some(text) => Some(text),
        None => text_instead(entry),
    }
}

/// The text that stands instead of pages.
fn text_instead(entry: &Entry) -> Option<&str>
    ensures { view_in chars result
        ≡ option_and_then text_instead (fields_view entry.now).page_range }
{
    match entry.page_range()? {
        MaybeTyped::Typed(_) => None,
        MaybeTyped::String(text) => Some(text.as_str()),
    }
}

/// What stands in the text of the pages before the first dash, comma or ampersand.
fn first_page_text(entry: &Entry) -> Option<&str>
    ensures { view_in chars result
        ≡ number_written (entry_ancestry entry.now) NumberVariable.PageFirst }
{
    Some(first_in(page_text(entry)?))
}

/// The work that answers for the edition: the entry, or else the first of its ancestors that has one.
fn edition_work(entry: &Entry) -> Result<Option<&Entry>, AllocError>
    ensures { IfOk result (λ w. view_in fields_view w
        ≡ nearest (λ fs. option_map (λ n. fs) fs.edition) (entry_ancestry entry.now)) }
{
    entry.map(|work| with_edition(work))
}

fn with_edition(work: &Entry) -> Option<&Entry>
    ensures { view_in fields_view result
        ≡ option_map (λ n. fields_view work.now) (fields_view work.now).edition }
{
    match work.edition() {
        Some(_) => Some(work),
        None => None,
    }
}

/// The work that answers for the issue: the entry, or else the first of its ancestors that has one.
fn issue_work(entry: &Entry) -> Result<Option<&Entry>, AllocError>
    ensures { IfOk result (λ w. view_in fields_view w
        ≡ nearest (λ fs. option_map (λ n. fs) fs.issue) (entry_ancestry entry.now)) }
{
    entry.map(|work| with_issue(work))
}

fn with_issue(work: &Entry) -> Option<&Entry>
    ensures { view_in fields_view result
        ≡ option_map (λ n. fields_view work.now) (fields_view work.now).issue }
{
    match work.issue() {
        Some(_) => Some(work),
        None => None,
    }
}

/// The work that answers for the number of volumes: the entry, or else the first of its ancestors that has it.
fn volume_total_work(entry: &Entry) -> Result<Option<&Entry>, AllocError>
    ensures { IfOk result (λ w. view_in fields_view w
        ≡ nearest (λ fs. option_map (λ n. fs) fs.volume_total) (entry_ancestry entry.now)) }
{
    entry.map(|work| with_volume_total(work))
}

fn with_volume_total(work: &Entry) -> Option<&Entry>
    ensures { view_in fields_view result
        ≡ option_map (λ n. fields_view work.now) (fields_view work.now).volume_total }
{
    match work.volume_total() {
        Some(_) => Some(work),
        None => None,
    }
}

/// The work that answers for the volume: the entry, or else the first of its ancestors that has one.
fn volume_work(entry: &Entry) -> Result<Option<&Entry>, AllocError>
    ensures { IfOk result (λ w. view_in fields_view w
        ≡ nearest (λ fs. option_map (λ n. fs) fs.volume) (entry_ancestry entry.now)) }
{
    entry.map(|work| with_volume(work))
}

fn with_volume(work: &Entry) -> Option<&Entry>
    ensures { view_in fields_view result
        ≡ option_map (λ n. fields_view work.now) (fields_view work.now).volume }
{
    match work.volume() {
        Some(_) => Some(work),
        None => None,
    }
}
