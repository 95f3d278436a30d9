//! What an answer shows of the chunks of a field.

use crate::chunks::{put_chunks, read_chunks};
use crate::session::Session;
use crate::spans::put_span_as;
use biblatex::{Chunk, Chunks, ChunksExt, Spanned, push_biblatex};
use json::Value;
use std::alloc::{AllocError, Global};

/// The chunks of a field, and what is shown of them.
#[derive(Clone, Copy)]
pub(crate) struct ShownChunks<'c> {
    /// The chunks.
    pub(crate) chunks: &'c [Spanned<Chunk>],
    /// Whether the field is verbatim.
    pub(crate) is_verbatim: bool,
    /// Whether the spans of the chunks are shown.
    pub(crate) has_spans: bool,
    /// The text that stands before what they are written as.
    pub(crate) before: Option<&'c str>,
}

impl ShownChunks<'_> {
    /// Writes what each chunk alone is written as.
    fn put_each(self, session: &mut Session) {
        session.begin_list("each");
        for chunk in self.chunks.iter() {
            let text = chunk.v.to_biblatex_string(session.alloc, self.is_verbatim);
            if let Some(text) = session.allocated(text) {
                session.string(text.as_str());
            }
        }
        session.end_array();
    }

    /// What the chunks are written as, after the text that stands before it.
    fn written(self, alloc: Global) -> Result<String, AllocError> {
        match self.before {
            None => self.chunks.to_biblatex_string(alloc, self.is_verbatim),
            Some(before) => {
                let mut text = String::from_str(alloc, before)?;
                push_biblatex(&mut text, self.chunks, self.is_verbatim)?;
                Ok(text)
            }
        }
    }

    /// Writes the member of the name.
    fn put(self, session: &mut Session, name: &str) {
        match name {
            "chunks" => {
                session.key("chunks");
                put_chunks(session, self.chunks, self.has_spans);
            }
            "written" => {
                let written = self.written(session.alloc);
                put_made(session, "written", written);
            }
            "each" => self.put_each(session),
            "text" => {
                let text = self.chunks.format_verbatim(session.alloc);
                put_made(session, "text", text);
            }
            _ => put_span_as(session, "at", &self.chunks.span()),
        }
    }

    /// Writes the members that a case asks for; where it asks for none, the usual one.
    pub(crate) fn put_shown(self, session: &mut Session, case: &Value<'_>, usual: &str) {
        for name in ["chunks", "written", "each", "text", "at"] {
            if session.is_shown(case, name, name == usual) {
                self.put(session, name);
            }
        }
    }
}

/// Writes a text that was made as the member of the name.
fn put_made(session: &mut Session, name: &str, made: Result<String, AllocError>) {
    if let Some(text) = session.allocated(made) {
        session.put_text(name, text.as_str());
    }
}

/// Appends a text after that of each chunk.
fn append(chunks: &mut Chunks, more: &str) -> Result<(), AllocError> {
    for chunk in chunks.iter_mut() {
        chunk.v.get_mut().push_str(more)?;
    }
    Ok(())
}

/// The chunks of a case, with the text of `append` after that of each.
fn read_appended(session: &mut Session, case: &Value<'_>) -> Chunks {
    let mut chunks = read_chunks(session, case, "chunks");
    if let Some(more) = session.maybe_text(case, "append") {
        session.check(append(&mut chunks, more));
    }
    chunks
}

/// Chunks that a case gives: what they are written as, each and all, and their text.
pub(crate) fn answer_chunks(session: &mut Session, case: &Value<'_>) {
    session.only(
        case,
        &[
            "case", "name", "chunks", "verbatim", "places", "before", "append", "show",
        ],
    );
    session.only_shown(case, &["written", "each", "chunks", "text", "at"]);
    let chunks = read_appended(session, case);
    let shown = ShownChunks {
        chunks: chunks.as_slice(),
        is_verbatim: session.is_set(case, "verbatim"),
        has_spans: session.is_set(case, "places"),
        before: session.maybe_text(case, "before"),
    };
    shown.put_shown(session, case, "written");
}
