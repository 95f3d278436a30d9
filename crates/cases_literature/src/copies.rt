//! Copies of the fields of entries.

use cases::{CaseValue, Session, put_member};
use literature::Entry;

/// Writes a copy of a value as the member of the name, where there is one.
fn put_copy<T: CaseValue + Clone>(session: &mut Session, name: &str, value: Option<&T>) {
    if let Some(value) = value {
        if let Some(copy) = session.allocated(value.clone()) {
            put_member(session, name, &copy);
        }
    }
}

/// Writes a copy of the first author, where there is one.
fn put_copied_author(session: &mut Session, entry: &Entry) {
    if let Some(author) = entry.author() {
        put_copy(session, "author", author.first());
    }
}

/// Writes an object with a copy of a field of each type.
pub(crate) fn put_copies(session: &mut Session, entry: &Entry) {
    session.begin_object();
    put_copy(session, "title", entry.title());
    put_copied_author(session, entry);
    put_copy(session, "publisher", entry.publisher());
    put_copy(session, "issue", entry.issue());
    put_copy(session, "volume_total", entry.volume_total());
    put_copy(session, "page_range", entry.page_range());
    put_copy(session, "url", entry.url());
    put_copy(session, "serial_number", entry.serial_number());
    session.end_object();
}
