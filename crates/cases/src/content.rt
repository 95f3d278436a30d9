//! Contents of fields: what their pieces give.

use crate::refusal::Refusal;
use crate::session::Session;
use crate::shown::ShownChunks;
use crate::spans::maybe_span;
use biblatex::Spanned;
use biblatex_content::{ContentError, Contents};
use json::Value;
use std::alloc::Global;

/// The text of a piece, with its span; one without a span stands before the first byte.
fn read_piece<'a>(session: &mut Session, value: &Value<'a>) -> Spanned<&'a str> {
    if let Some(text) = value.as_str() {
        return Spanned::zero(text);
    }
    session.only(value, &["text", "at"]);
    let text = session.text(value, "text");
    match maybe_span(session, value) {
        Some(span) => Spanned::new(text, span),
        None => Spanned::zero(text),
    }
}

/// The pieces of a case.
fn read_pieces<'a>(session: &mut Session, case: &Value<'a>) -> Vec<Spanned<&'a str>> {
    let mut pieces = Vec::new(session.alloc);
    let Some(items) = session.items(case, "pieces") else {
        return pieces;
    };
    for item in items {
        let piece = read_piece(session, item);
        session.push(&mut pieces, piece);
    }
    pieces
}

/// The contents of a field of these pieces.
fn contents_of(
    alloc: Global,
    pieces: Vec<Spanned<&str>>,
    is_verbatim: bool,
) -> Result<Contents, ContentError> {
    let mut contents = Contents::new(alloc);
    for piece in pieces {
        contents = pushed(contents, piece, is_verbatim)?;
    }
    Ok(contents)
}

/// Contents with a piece more, of a verbatim or an ordinary field.
fn pushed(
    contents: Contents,
    piece: Spanned<&str>,
    is_verbatim: bool,
) -> Result<Contents, ContentError> {
    if is_verbatim {
        Ok(contents.push_verbatim(piece)?)
    } else {
        contents.push_ordinary(piece)
    }
}

/// Writes what contents are before they are finished and after.
fn put_contents(session: &mut Session, case: &Value<'_>, contents: Contents) {
    if session.is_shown(case, "empty", false) {
        session.put_bool("empty", contents.is_empty());
    }
    let finished = contents.finish();
    let Some(chunks) = session.allocated(finished) else {
        return;
    };
    let shown = ShownChunks {
        chunks: chunks.as_slice(),
        is_verbatim: session.is_set(case, "verbatim"),
        has_spans: session.is_set(case, "places"),
        before: None,
    };
    shown.put_shown(session, case, "chunks");
}

/// Pieces of a field, verbatim or ordinary: the chunks that they give.
pub(crate) fn answer_content(session: &mut Session, case: &Value<'_>) {
    session.only(
        case,
        &["case", "name", "pieces", "verbatim", "places", "show"],
    );
    session.only_shown(case, &["empty", "chunks", "written", "each", "text", "at"]);
    let pieces = read_pieces(session, case);
    match contents_of(session.alloc, pieces, session.is_set(case, "verbatim")) {
        Ok(contents) => put_contents(session, case, contents),
        Err(ContentError::Memory) => session.refuse(Refusal::Memory),
        Err(ContentError::MalformedCommand) => session.put_refused("MalformedCommand"),
    }
}
