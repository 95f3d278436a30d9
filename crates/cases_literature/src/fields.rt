//! The fields of entries, read from JSON.

use cases::{Session, Value, maybe_given};
use literature::Entry;

/// Sets the fields that are texts.
fn set_texts(session: &mut Session, given: &Value<'_>, entry: &mut Entry) {
    if let Some(title) = maybe_given(session, given, "title") {
        entry.set_title(title);
    }
    if let Some(note) = maybe_given(session, given, "note") {
        entry.set_note(note);
    }
    if let Some(publisher) = maybe_given(session, given, "publisher") {
        entry.set_publisher(publisher);
    }
    if let Some(language) = session.maybe_owned_text(given, "language") {
        entry.set_language(language);
    }
}

/// Sets the fields that are people.
fn set_people(session: &mut Session, given: &Value<'_>, entry: &mut Entry) {
    if let Some(author) = maybe_given(session, given, "author") {
        entry.set_author(author);
    }
    if let Some(editor) = maybe_given(session, given, "editor") {
        entry.set_editor(editor);
    }
    if let Some(translator) = maybe_given(session, given, "translator") {
        entry.set_translator(translator);
    }
}

/// Sets the fields that are numbers or texts that spell none.
fn set_numbers(session: &mut Session, given: &Value<'_>, entry: &mut Entry) {
    if let Some(volume) = maybe_given(session, given, "volume") {
        entry.set_volume(volume);
    }
    if let Some(issue) = maybe_given(session, given, "issue") {
        entry.set_issue(issue);
    }
    if let Some(chapter) = maybe_given(session, given, "chapter") {
        entry.set_chapter(chapter);
    }
    if let Some(edition) = maybe_given(session, given, "edition") {
        entry.set_edition(edition);
    }
}

/// Sets pages, and how many volumes and pages there are.
fn set_extent(session: &mut Session, given: &Value<'_>, entry: &mut Entry) {
    if let Some(total) = maybe_given(session, given, "volume_total") {
        entry.set_volume_total(total);
    }
    if let Some(pages) = maybe_given(session, given, "page_range") {
        entry.set_page_range(pages);
    }
    if let Some(total) = maybe_given(session, given, "page_total") {
        entry.set_page_total(total);
    }
}

/// Sets the date, the address and the serial numbers.
fn set_sources(session: &mut Session, given: &Value<'_>, entry: &mut Entry) {
    if let Some(date) = maybe_given(session, given, "date") {
        entry.set_date(date);
    }
    if let Some(url) = maybe_given(session, given, "url") {
        entry.set_url(url);
    }
    if let Some(numbers) = maybe_given(session, given, "serial_number") {
        entry.set_serial_number(numbers);
    }
}

/// Sets the fields that the object has.
pub(crate) fn set_fields(session: &mut Session, given: &Value<'_>, entry: &mut Entry) {
    set_texts(session, given, entry);
    set_people(session, given, entry);
    set_numbers(session, given, entry);
    set_extent(session, given, entry);
    set_sources(session, given, entry);
}
