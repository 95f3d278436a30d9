//! What is left where memory is refused to a call. A broken promise is an answer of its own, in place of none for the want of memory.

use biblatex::{Bibliography, Entry, push_biblatex};
use cases::{Refusal, Session, Value, read_chunks, read_entry};
use cases_rendering::bibliography_of;

/// `inserted`: which entry of a bibliography another one replaces. Where its key is known, no memory is needed for this.
pub(crate) fn answer_inserted(session: &mut Session, case: &Value<'_>) {
    session.only(
        case,
        &[
            "case", "name", "bib", "entries", "key", "type", "fields", "message",
        ],
    );
    let Some(mut bibliography) = bibliography_of(session, case) else {
        return;
    };
    if let Some(entry) = read_entry(session, case) {
        insert(session, &mut bibliography, entry);
    }
}

/// Inserts an entry, and writes the key of the one that it replaces, and how many there are then.
fn insert(session: &mut Session, bibliography: &mut Bibliography, entry: Entry) {
    let is_known = bibliography.get(entry.key.as_str()).is_some();
    session.key("replaced");
    match bibliography.insert(entry) {
        Ok(Some(old)) => session.string(old.key.as_str()),
        Ok(None) => session.null(),
        Err(_) if is_known => session.boolean(false),
        Err(_) => session.refuse(Refusal::Memory),
    }
    session.put_count("len", bibliography.len());
}

/// `written_after`: a text after which chunks are written. Where memory is refused, it has what it had, with some of the chunks or none.
pub(crate) fn answer_written(session: &mut Session, case: &Value<'_>) {
    session.only(case, &["case", "name", "before", "chunks", "verbatim"]);
    let before = session.text(case, "before");
    let chunks = read_chunks(session, case, "chunks");
    let is_verbatim = session.is_set(case, "verbatim");
    let mut text = session.owned(before);
    let written = push_biblatex(&mut text, chunks.as_slice(), is_verbatim);
    if written.is_err() && text.as_str().starts_with(before) {
        session.refuse(Refusal::Memory);
    }
    session.put_text("text", text.as_str());
}
