//! Chunks, as they are read from a case and written to an answer.

use crate::members::member;
use crate::session::Session;
use crate::spans::{maybe_span, put_span};
use biblatex::{Chunk, Chunks, Spanned};
use json::Value;
use std::ops::Range;

/// The member of a chunk of its kind.
fn kind_of(chunk: &Chunk) -> &'static str {
    match chunk {
        Chunk::Normal(_) => "normal",
        Chunk::Verbatim(_) => "verbatim",
        Chunk::Math(_) => "math",
    }
}

/// Writes a chunk as an object, with its span where that is asked for and the chunk has one.
fn put_chunk(session: &mut Session, chunk: &Spanned<Chunk>, has_spans: bool) {
    session.begin_object();
    session.put_text(kind_of(&chunk.v), chunk.v.get());
    if has_spans {
        put_span(session, &chunk.span);
    }
    session.end_object();
}

/// Writes chunks as a list of objects, each with its span where that is asked for and the chunk has one.
pub fn put_chunks(session: &mut Session, chunks: &[Spanned<Chunk>], has_spans: bool) {
    session.begin_array();
    for chunk in chunks.iter() {
        put_chunk(session, chunk, has_spans);
    }
    session.end_array();
}

/// The chunk that an object says by one of the members `normal`, `verbatim` and `math`.
fn chunk_of(session: &mut Session, object: &Value<'_>) -> Chunk {
    let has_verbatim = member(object, "verbatim").is_some();
    let has_math = member(object, "math").is_some();
    match (member(object, "normal").is_some(), has_verbatim, has_math) {
        (true, false, false) => Chunk::Normal(session.owned_text(object, "normal")),
        (false, true, false) => Chunk::Verbatim(session.owned_text(object, "verbatim")),
        (false, false, true) => Chunk::Math(session.owned_text(object, "math")),
        _ => {
            session.want("a chunk", "normal, verbatim or math");
            Chunk::Normal(String::new(session.alloc))
        }
    }
}

/// A chunk, with its span; one without a span is of no source.
fn at_span(chunk: Chunk, span: Option<Range<usize>>) -> Spanned<Chunk> {
    match span {
        Some(span) => Spanned::new(chunk, span),
        None => Spanned::detached(chunk),
    }
}

/// The chunk that an object says, with its span.
fn read_chunk(session: &mut Session, object: &Value<'_>) -> Spanned<Chunk> {
    session.only(object, &["normal", "verbatim", "math", "at"]);
    let span = maybe_span(session, object);
    at_span(chunk_of(session, object), span)
}

/// The chunks that objects say.
pub fn read_chunks_in(session: &mut Session, items: &[Value<'_>]) -> Chunks {
    let mut chunks = Vec::new(session.alloc);
    for item in items {
        let chunk = read_chunk(session, item);
        session.push(&mut chunks, chunk);
    }
    chunks
}

/// The chunks of the list of the name; one that is left out is empty.
pub fn read_chunks(session: &mut Session, object: &Value<'_>, name: &'static str) -> Chunks {
    match session.items(object, name) {
        Some(items) => read_chunks_in(session, items.as_slice()),
        None => Vec::new(session.alloc),
    }
}

/// One chunk of normal text, with a span or of no source.
pub fn normal_chunks(session: &mut Session, text: &str, span: Option<Range<usize>>) -> Chunks {
    let mut chunks = Vec::new(session.alloc);
    let chunk = at_span(Chunk::Normal(session.owned(text)), span);
    session.push(&mut chunks, chunk);
    chunks
}
