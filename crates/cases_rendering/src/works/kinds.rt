//! Of which kinds an entry is to a style.

use cases::{Session, Value, member};
use cases_literature::entry_member;
use csl_words::KINDS;
use literature::Entry;
use rendering_entries::{EntryLike, are_one_entry};
use std::borrow::CowStr;

/// `entry_kinds`: the kinds of an entry, whether it is in English where that is known, its key, and whether it is equal to
/// another one where there is one.
pub(crate) fn answer(session: &mut Session, case: &Value<'_>) {
    session.only(case, &["case", "name", "entry", "other"]);
    let Some(entry) = entry_member(session, case, "entry") else {
        return;
    };
    put_answers(session, &*entry);
    if member(case, "other").is_some() {
        if let Some(other) = entry_member(session, case, "other") {
            session.put_bool("is_other", are_one_entry(&*entry, &*other));
        }
    }
}

/// Writes kinds, language and key.
fn put_answers(session: &mut Session, entry: &Entry) {
    put_kinds(session, entry);
    if let Some(is_english) = EntryLike::is_english(entry) {
        session.put_bool("is_english", is_english);
    }
    match EntryLike::key(entry) {
        CowStr::Borrowed(key) => session.put_text("key", key),
        CowStr::Owned(key) => session.put_text("key", key.as_str()),
    }
}

/// Writes the words of the kinds, in alphabetical order.
fn put_kinds(session: &mut Session, entry: &Entry) {
    session.begin_list("kinds");
    for kind in KINDS {
        if entry.matches_entry_type(kind.1) {
            session.string(kind.0);
        }
    }
    session.end_array();
}
