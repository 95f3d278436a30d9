//! What a library's entry says of itself.

ghost use Rattle.std.specs.Prelude.{◌≡◌, [], IfOk, OnOk, codes, string_bytes};
ghost use Rattle.std.specs.Option.{option_map, option_or};
ghost use Rattle.literature_entries.specs.Fields.{nothing_but};
ghost use Rattle.literature_entries.specs.Views as views;
ghost use Rattle.literature_numbers.specs.Views.{numeral_view};
ghost use Rattle.literature_values.specs.TypedViews.{typed_view};
ghost use Rattle.interop_values.specs.Values.{values};
ghost use Rattle.interop_values.specs.Readings.{number_under, pages_under};
ghost use Rattle.interop.specs.Fields.{own_fields, own_texts, is_periodical, issue_of, issue_text, series_number, container_fields, container_texts};
ghost use Rattle.interop.specs.Views.{dates_of, IsBare};

use crate::dates::Dates;
use crate::setting::{
    set_author, set_chapter, set_date, set_edition, set_editor, set_issue, set_language, set_note,
    set_number, set_page_range, set_page_total, set_publisher, set_text, set_title, set_translator,
    set_url, set_volume, set_volume_total,
};
use biblatex_fields::Fields;
use interop_values::{
    address, format_under, number_and_text_under, pages_and_text_under, people_under, publisher,
    text_under, title,
};
use literature_entries::Entry;
use literature_numbers::Numeric;
use literature_values::{EntryType, MaybeTyped};
use std::alloc::{AllocError, Global};

/// An entry of that key and type, with what the fields say of the entry itself.
pub(crate) fn own_entry(
    alloc: Global,
    key: String,
    entry_type: EntryType,
    fields: &Fields,
    dates: Dates,
) -> Result<Entry, AllocError>
    requires { dates ≡ dates_of (values fields.now) }
    ensures key { IfOk result (λ e. views.key_view e ≡ string_bytes key) }
    ensures fields { IfOk result (λ e. views.fields_view e
        ≡ own_fields (values fields.now) entry_type) }
    ensures parents { IfOk result (λ e. views.parents e ≡ []) }
{
    let mut entry = Entry::new(key, entry_type);
    set_own_fields(alloc, &mut entry, fields, dates)?;
    Ok(entry)
}

/// Adds what the fields say of the entry itself, which says nothing yet.
fn set_own_fields(
    alloc: Global,
    entry: &mut Entry,
    fields: &Fields,
    dates: Dates,
) -> Result<(), AllocError>
    requires bare { views.fields_view entry.old
        ≡ nothing_but (views.fields_view entry.old).entry_type }
    requires dates { dates ≡ dates_of (values fields.now) }
    ensures { OnOk result (views.Sets entry.old
        (own_fields (values fields.now) (views.fields_view entry.old).entry_type) entry.new) }
{
    set_title(entry, title(alloc, fields)?);
    set_author(entry, people_under(alloc, fields, "author")?);
    set_translator(entry, people_under(alloc, fields, "translator")?);
    set_date(entry, dates.own);
    set_url(entry, address(alloc, fields, dates.visited)?);
    set_number(entry, "doi", text_under(alloc, fields, "doi")?)?;
    set_note(entry, format_under(alloc, fields, "note")?);
    set_language(entry, text_under(alloc, fields, "langid")?);
    set_own_numbers(alloc, entry, fields)
}

/// Adds the numbers and the pages of the entry itself, each with its text as it was written.
fn set_own_numbers(alloc: Global, entry: &mut Entry, fields: &Fields) -> Result<(), AllocError>
    ensures { OnOk result (views.Sets entry.old (record (views.fields_view entry.old) {
      page_total = option_or (number_under (codes "pagetotal") (values fields.now))
          (views.fields_view entry.old).page_total;
      page_range = option_or (pages_under (codes "pages") (values fields.now))
          (views.fields_view entry.old).page_range;
      chapter = option_or (number_under (codes "chapter") (values fields.now))
          (views.fields_view entry.old).chapter;
      written = own_texts (values fields.now) (views.fields_view entry.old).written;
    }) entry.new) }
{
    let (total, text) = number_and_text_under(alloc, fields, "pagetotal")?.unzip();
    set_page_total(entry, total);
    set_text(entry, "page-total", text)?;
    let (pages, text) = pages_and_text_under(alloc, fields, "pages")?.unzip();
    set_page_range(entry, pages);
    set_text(entry, "page-range", text)?;
    let (chapter, text) = number_and_text_under(alloc, fields, "chapter")?.unzip();
    set_chapter(entry, chapter);
    set_text(entry, "chapter", text)
}

/// Adds what the fields say of the container, or of the entry itself where there is no container.
pub(crate) fn set_container_fields(
    alloc: Global,
    entry: &mut Entry,
    fields: &Fields,
) -> Result<(), AllocError>
    requires { IsBare (views.fields_view entry.old) }
    ensures { OnOk result (views.Sets entry.old
        (container_fields (values fields.now) (views.fields_view entry.old)) entry.new) }
{
    let is_periodical = is_periodical(*entry.entry_type());
    set_editor(entry, people_under(alloc, fields, "editor")?);
    set_publisher(entry, publisher(alloc, fields)?);
    set_number(entry, "isbn", text_under(alloc, fields, "isbn")?)?;
    set_number(entry, "issn", text_under(alloc, fields, "issn")?)?;
    set_number(
        entry,
        "serial",
        series_number(alloc, fields, is_periodical)?,
    )?;
    set_container_numbers(alloc, entry, fields, is_periodical)
}

fn is_periodical(entry_type: EntryType) -> bool
    ensures { result ≡ is_periodical entry_type }
{
    match entry_type {
        EntryType::Periodical => true,
        _ => false,
    }
}

/// Adds the numbers of the container, each with its text as it was written.
fn set_container_numbers(
    alloc: Global,
    entry: &mut Entry,
    fields: &Fields,
    is_periodical: bool,
) -> Result<(), AllocError>
    ensures { OnOk result (views.Sets entry.old (record (views.fields_view entry.old) {
      issue = option_or (issue_of is_periodical (values fields.now))
          (views.fields_view entry.old).issue;
      edition = option_or (number_under (codes "edition") (values fields.now))
          (views.fields_view entry.old).edition;
      volume_total = option_or (number_under (codes "volumes") (values fields.now))
          (views.fields_view entry.old).volume_total;
      volume = option_or (number_under (codes "volume") (values fields.now))
          (views.fields_view entry.old).volume;
      written = container_texts is_periodical (values fields.now)
          (views.fields_view entry.old).written;
    }) entry.new) }
{
    let (issue, text) = issue_and_text(alloc, fields, is_periodical)?.unzip();
    set_issue(entry, issue);
    set_text(entry, "issue", text)?;
    let (edition, text) = number_and_text_under(alloc, fields, "edition")?.unzip();
    set_edition(entry, edition);
    set_text(entry, "edition", text)?;
    let (total, text) = number_and_text_under(alloc, fields, "volumes")?.unzip();
    set_volume_total(entry, total);
    set_text(entry, "volume-total", text)?;
    let (volume, text) = number_and_text_under(alloc, fields, "volume")?.unzip();
    set_volume(entry, volume);
    set_text(entry, "volume", text)
}

/// The issue of a periodical, by `number` or else by `issue`, with its text as it was written; other works have none.
fn issue_and_text(
    alloc: Global,
    fields: &Fields,
    is_periodical: bool,
) -> Result<Option<(MaybeTyped<Numeric>, String)>, AllocError>
    ensures issue { IfOk result (λ n. option_map (λ p. typed_view numeral_view p.0) n
        ≡ issue_of is_periodical (values fields.now)) }
    ensures text { IfOk result (λ n. option_map (λ p. string_bytes p.1) n
        ≡ issue_text is_periodical (values fields.now)) }
{
    if !is_periodical {
        return Ok(None);
    }
    match number_and_text_under(alloc, fields, "number")? {
        Some(number) => Ok(Some(number)),
        None => number_and_text_under(alloc, fields, "issue"),
    }
}

/// What `number` says, where it is no issue.
fn series_number(
    alloc: Global,
    fields: &Fields,
    is_periodical: bool,
) -> Result<Option<String>, AllocError>
    ensures { IfOk result (λ s. option_map string_bytes s
        ≡ series_number is_periodical (values fields.now)) }
{
    if is_periodical {
        return Ok(None);
    }
    text_under(alloc, fields, "number")
}
