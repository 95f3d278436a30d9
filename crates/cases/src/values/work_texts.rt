//! Texts in pieces, and publishers, as JSON.

use crate::values::case_value::{CaseValue, given, maybe_given, put_maybe, put_member};
use crate::{Session, Value, member, word_of};
use literature::{ChunkKind, ChunkedString, FormatString, Publisher, StringChunk};

const KINDS: &[(&str, ChunkKind)] = &[
    ("normal", ChunkKind::Normal),
    ("verbatim", ChunkKind::Verbatim),
    ("math", ChunkKind::Math),
];

/// The word and the kind of a piece: the first of them that is a member.
fn word_and_kind(given: &Value<'_>) -> (&'static str, ChunkKind) {
    for kind in KINDS {
        if member(given, kind.0).is_some() {
            return *kind;
        }
    }
    ("normal", ChunkKind::Normal)
}

/// A piece of text.
impl CaseValue for StringChunk {
    fn given(session: &mut Session, value: &Value<'_>) -> StringChunk {
        session.only(value, &["normal", "verbatim", "math"]);
        let (word, kind) = word_and_kind(value);
        StringChunk {
            value: session.owned_text(value, word),
            kind,
        }
    }

    fn put(&self, session: &mut Session) {
        session.begin_object();
        session.put_text(word_of(KINDS, self.kind), self.value.as_str());
        session.end_object();
    }
}

/// A text in pieces.
impl CaseValue for ChunkedString {
    fn given(session: &mut Session, value: &Value<'_>) -> ChunkedString {
        ChunkedString(Vec::given(session, value))
    }

    fn put(&self, session: &mut Session) {
        self.0.put(session);
    }
}

/// A text, and a short form of it.
impl CaseValue for FormatString {
    fn given(session: &mut Session, value: &Value<'_>) -> FormatString {
        session.only(value, &["value", "short"]);
        FormatString {
            value: given(session, value, "value"),
            short: maybe_given(session, value, "short"),
        }
    }

    fn put(&self, session: &mut Session) {
        session.begin_object();
        put_member(session, "value", &self.value);
        put_maybe(session, "short", self.short.as_ref());
        session.end_object();
    }
}

/// A publisher.
impl CaseValue for Publisher {
    fn given(session: &mut Session, value: &Value<'_>) -> Publisher {
        session.only(value, &["name", "location"]);
        Publisher {
            name: maybe_given(session, value, "name"),
            location: maybe_given(session, value, "location"),
        }
    }

    fn put(&self, session: &mut Session) {
        session.begin_object();
        put_maybe(session, "name", self.name.as_ref());
        put_maybe(session, "location", self.location.as_ref());
        session.end_object();
    }
}
