//! Fields of a library's entry that may be absent.

ghost use Rattle.std.specs.Prelude.{◌≡◌, OnOk, string_bytes};
ghost use Rattle.std.specs.Option.{option_map, option_or};
ghost use Rattle.literature_numbers.specs.PageViews.{pages_view};
ghost use Rattle.literature_numbers.specs.Views.{numeral_view};
ghost use Rattle.literature_values.specs.TextViews.{format_view, publishing_view};
ghost use Rattle.literature_entries.specs.Views.{people_view, fields_view, Sets};
ghost use Rattle.literature_values.specs.OtherViews.{address_view};
ghost use Rattle.literature_values.specs.TypedViews.{typed_view};
ghost use Rattle.interop.specs.Fields.{also};

use literature_entries::Entry;
use literature_values::{
    Date, FormatString, MaybeTyped, Numeric, PageRanges, Person, Publisher, QualifiedUrl,
};
use std::alloc::AllocError;

pub(crate) fn set_title(entry: &mut Entry, title: Option<FormatString>)
    ensures { Sets entry.old (record (fields_view entry.old)
        { title = option_or (option_map format_view title) (fields_view entry.old).title })
        entry.new }
{
    if let Some(title) = title {
        entry.set_title(title);
    }
}

pub(crate) fn set_author(entry: &mut Entry, author: Option<Vec<Person>>)
    ensures { Sets entry.old (record (fields_view entry.old) { author = option_or (option_map (λ v. people_view v.items) author) (fields_view entry.old).author }) entry.new }
{
    if let Some(author) = author {
        entry.set_author(author);
    }
}

pub(crate) fn set_editor(entry: &mut Entry, editor: Option<Vec<Person>>)
    ensures { Sets entry.old (record (fields_view entry.old) { editor = option_or (option_map (λ v. people_view v.items) editor) (fields_view entry.old).editor }) entry.new }
{
    if let Some(editor) = editor {
        entry.set_editor(editor);
    }
}

pub(crate) fn set_translator(entry: &mut Entry, translator: Option<Vec<Person>>)
    ensures { Sets entry.old (record (fields_view entry.old) { translator = option_or (option_map (λ v. people_view v.items) translator) (fields_view entry.old).translator }) entry.new }
{
    if let Some(translator) = translator {
        entry.set_translator(translator);
    }
}

pub(crate) fn set_date(entry: &mut Entry, date: Option<Date>)
    ensures { Sets entry.old
        (record (fields_view entry.old) { date = option_or (date) (fields_view entry.old).date })
        entry.new }
{
    if let Some(date) = date {
        entry.set_date(date);
    }
}

pub(crate) fn set_publisher(entry: &mut Entry, publisher: Option<Publisher>)
    ensures { Sets entry.old (record (fields_view entry.old) { publisher = option_or (option_map publishing_view publisher) (fields_view entry.old).publisher }) entry.new }
{
    if let Some(publisher) = publisher {
        entry.set_publisher(publisher);
    }
}

pub(crate) fn set_volume(entry: &mut Entry, volume: Option<MaybeTyped<Numeric>>)
    ensures { Sets entry.old (record (fields_view entry.old) { volume = option_or (option_map (typed_view numeral_view) volume) (fields_view entry.old).volume }) entry.new }
{
    if let Some(volume) = volume {
        entry.set_volume(volume);
    }
}

pub(crate) fn set_volume_total(entry: &mut Entry, volume_total: Option<MaybeTyped<Numeric>>)
    ensures { Sets entry.old (record (fields_view entry.old) { volume_total = option_or (option_map (typed_view numeral_view) volume_total) (fields_view entry.old).volume_total }) entry.new }
{
    if let Some(volume_total) = volume_total {
        entry.set_volume_total(volume_total);
    }
}

pub(crate) fn set_issue(entry: &mut Entry, issue: Option<MaybeTyped<Numeric>>)
    ensures { Sets entry.old (record (fields_view entry.old) { issue = option_or (option_map (typed_view numeral_view) issue) (fields_view entry.old).issue }) entry.new }
{
    if let Some(issue) = issue {
        entry.set_issue(issue);
    }
}

pub(crate) fn set_chapter(entry: &mut Entry, chapter: Option<MaybeTyped<Numeric>>)
    ensures { Sets entry.old (record (fields_view entry.old) { chapter = option_or (option_map (typed_view numeral_view) chapter) (fields_view entry.old).chapter }) entry.new }
{
    if let Some(chapter) = chapter {
        entry.set_chapter(chapter);
    }
}

pub(crate) fn set_edition(entry: &mut Entry, edition: Option<MaybeTyped<Numeric>>)
    ensures { Sets entry.old (record (fields_view entry.old) { edition = option_or (option_map (typed_view numeral_view) edition) (fields_view entry.old).edition }) entry.new }
{
    if let Some(edition) = edition {
        entry.set_edition(edition);
    }
}

pub(crate) fn set_page_range(entry: &mut Entry, page_range: Option<MaybeTyped<PageRanges>>)
    ensures { Sets entry.old (record (fields_view entry.old) { page_range = option_or (option_map (typed_view pages_view) page_range) (fields_view entry.old).page_range }) entry.new }
{
    if let Some(page_range) = page_range {
        entry.set_page_range(page_range);
    }
}

pub(crate) fn set_page_total(entry: &mut Entry, page_total: Option<MaybeTyped<Numeric>>)
    ensures { Sets entry.old (record (fields_view entry.old) { page_total = option_or (option_map (typed_view numeral_view) page_total) (fields_view entry.old).page_total }) entry.new }
{
    if let Some(page_total) = page_total {
        entry.set_page_total(page_total);
    }
}

pub(crate) fn set_url(entry: &mut Entry, url: Option<QualifiedUrl>)
    ensures { Sets entry.old (record (fields_view entry.old)
        { url = option_or (option_map address_view url) (fields_view entry.old).url }) entry.new }
{
    if let Some(url) = url {
        entry.set_url(url);
    }
}

pub(crate) fn set_note(entry: &mut Entry, note: Option<FormatString>)
    ensures { Sets entry.old (record (fields_view entry.old)
        { note = option_or (option_map format_view note) (fields_view entry.old).note }) entry.new }
{
    if let Some(note) = note {
        entry.set_note(note);
    }
}

pub(crate) fn set_language(entry: &mut Entry, language: Option<String>)
    ensures { Sets entry.old (record (fields_view entry.old) {
      language = option_or (option_map string_bytes language)
          (fields_view entry.old).language;
    }) entry.new }
{
    if let Some(language) = language {
        entry.set_language(language);
    }
}

/// Sets the number under the name of a scheme, if there is one.
pub(crate) fn set_number(
    entry: &mut Entry,
    scheme: &str,
    number: Option<String>,
) -> Result<(), AllocError>
    ensures { OnOk result (Sets entry.old (record (fields_view entry.old) { serial_number = also scheme.now (option_map string_bytes number) (fields_view entry.old).serial_number }) entry.new) }
{
    match number {
        Some(number) => entry.set_keyed_serial_number(scheme, number),
        None => Ok(()),
    }
}

/// Sets the text of a number or of pages as it was written, by the name of its field, if there is one.
pub(crate) fn set_text(
    entry: &mut Entry,
    field: &str,
    text: Option<String>,
) -> Result<(), AllocError>
    ensures { OnOk result (Sets entry.old (record (fields_view entry.old) {
      written = also field.now (option_map string_bytes text) (fields_view entry.old).written;
    }) entry.new) }
{
    match text {
        Some(text) => entry.set_written(field, text),
        None => Ok(()),
    }
}
