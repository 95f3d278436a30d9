//! Entries, written as JSON.

use cases::{Session, put_list, put_maybe};
use literature::{Entry, Person};

/// Writes a member that is a list of people, where there is one.
fn put_people(session: &mut Session, name: &str, people: Option<&[Person]>) {
    if let Some(people) = people {
        session.key(name);
        put_list(session, people);
    }
}

/// Writes key and type, and the fields that the entry has but for its parents.
fn put_fields(session: &mut Session, entry: &Entry) {
    session.put_text("key", entry.key());
    session.put_text("type", entry.entry_type().name());
    put_maybe(session, "title", entry.title());
    put_people(session, "author", entry.author());
    put_people(session, "editor", entry.editor());
    put_people(session, "translator", entry.translator());
    put_maybe(session, "date", entry.date());
    put_maybe(session, "publisher", entry.publisher());
    put_maybe(session, "volume", entry.volume());
    put_maybe(session, "volume_total", entry.volume_total());
    put_maybe(session, "issue", entry.issue());
    put_maybe(session, "chapter", entry.chapter());
    put_maybe(session, "edition", entry.edition());
    put_maybe(session, "page_range", entry.page_range());
    put_maybe(session, "page_total", entry.page_total());
    put_maybe(session, "url", entry.url());
    put_maybe(session, "serial_number", entry.serial_number());
    put_maybe(session, "note", entry.note());
    session.put_maybe_text("language", entry.language());
}

/// Writes an entry as an object, whose parents nest at most so deep: its key, its type, and the fields and parents that it has.
#[cycle(written)]
pub fn put_entry(session: &mut Session, entry: &Entry, depth: u32) {
    session.begin_object();
    put_fields(session, entry);
    put_parents(session, entry.parents(), depth);
    session.end_object();
}

/// Writes the entries that an entry is part of, where there are any.
#[cycle(written)]
fn put_parents(session: &mut Session, parents: &[Entry], depth: u32) {
    if parents.is_empty() {
        return;
    }
    if depth == 0 {
        return session.want("parents", "entries less deep in one another");
    }
    session.begin_list("parents");
    for parent in parents {
        put_entry(session, parent, depth - 1);
    }
    session.end_array();
}
