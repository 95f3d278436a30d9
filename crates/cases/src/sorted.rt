//! Cases of texts that are sorted.

use crate::{Session, Value};
use collation::CollationKey;
use sorting::{Keyed, sorted_by_keys};

/// Each text with its key.
fn keyed_texts<'a>(
    session: &mut Session,
    texts: Vec<&'a str>,
) -> Vec<Keyed<CollationKey, &'a str>> {
    let mut items = Vec::new(session.alloc);
    for value in texts {
        let key = CollationKey::new(session.alloc, value);
        if let Some(key) = session.allocated(key) {
            session.push(&mut items, Keyed { key, value });
        }
    }
    items
}

/// Texts in a list: the list, sorted by the keys of its texts.
pub(crate) fn answer_sorted_texts(session: &mut Session, case: &Value<'_>) {
    session.only(case, &["case", "name", "texts"]);
    let texts = session.texts(case, "texts");
    let items = keyed_texts(session, texts);
    let sorted = sorted_by_keys(session.alloc, items);
    if let Some(texts) = session.allocated(sorted) {
        session.begin_list("texts");
        for text in texts {
            session.string(text);
        }
        session.end_array();
    }
}
