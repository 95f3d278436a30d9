//! Values of fields and of abbreviations.

use crate::entries::refusals::{put_parse_error, put_raw_error};
use crate::{Refusal, Session, Value, put_chunks};
use biblatex::{
    Abbreviations, Chunks, Pair, ParseError, RawBibliography, RawChunk, Spanned, parse_field,
};

/// Answers a case of the kind `field`.
pub(crate) fn answer_field(session: &mut Session, case: &Value<'_>) {
    session.only(case, &["case", "name", "bib", "field", "pieces", "message"]);
    let bib = session.maybe_text(case, "bib").unwrap_or("");
    match RawBibliography::parse(session.alloc, bib) {
        Ok(raw) => put_field(session, case, &raw),
        Err(error) => put_raw_error(session, case, &error),
    }
}

/// Writes what the pieces of a case are read as, with the abbreviations of a text.
fn put_field(session: &mut Session, case: &Value<'_>, raw: &RawBibliography<'_>) {
    let pieces = read_pieces(session, case);
    match Abbreviations::new(session.alloc, raw.abbreviations.as_slice()) {
        Ok(abbreviations) => put_value(session, case, pieces.as_slice(), &abbreviations),
        Err(_) => session.refuse(Refusal::Memory),
    }
}

/// Writes what pieces are read as in the field of a case.
fn put_value(
    session: &mut Session,
    case: &Value<'_>,
    pieces: &[Spanned<RawChunk<'_>>],
    abbreviations: &Abbreviations<'_, '_>,
) {
    let field = session.text(case, "field");
    let found = parse_field(session.alloc, field, pieces, abbreviations);
    put_found(session, case, found);
}

/// The pieces of a value. They are of no source.
fn read_pieces<'a>(session: &mut Session, case: &Value<'a>) -> Vec<Spanned<RawChunk<'a>>> {
    let mut pieces = Vec::new(session.alloc);
    let Some(items) = session.items(case, "pieces") else {
        return pieces;
    };
    for item in items {
        let piece = Spanned::detached(read_piece(session, item));
        session.push(&mut pieces, piece);
    }
    pieces
}

/// A piece of a value.
fn read_piece<'a>(session: &mut Session, item: &Value<'a>) -> RawChunk<'a> {
    match session.maybe_text(item, "abbreviation") {
        Some(name) => RawChunk::Abbreviation(name),
        None => RawChunk::Normal(session.text(item, "text")),
    }
}

/// Writes the member `chunks`, or why there are none.
fn put_found(session: &mut Session, case: &Value<'_>, found: Result<Chunks, ParseError>) {
    match found {
        Ok(value) => {
            session.key("chunks");
            put_chunks(session, value.as_slice(), false);
        }
        Err(error) => put_parse_error(session, case, &error),
    }
}

/// Answers a case of the kind `abbreviations`.
pub(crate) fn answer_abbreviations(session: &mut Session, case: &Value<'_>) {
    session.only(case, &["case", "name", "bib", "message"]);
    match RawBibliography::parse(session.alloc, session.text(case, "bib")) {
        Ok(raw) => put_abbreviations(session, case, &raw),
        Err(error) => put_raw_error(session, case, &error),
    }
}

/// Writes each definition of a text with what it gives.
fn put_abbreviations(session: &mut Session, case: &Value<'_>, raw: &RawBibliography<'_>) {
    let definitions = raw.abbreviations.as_slice();
    match Abbreviations::new(session.alloc, definitions) {
        Ok(abbreviations) => put_definitions(session, case, definitions, &abbreviations),
        Err(_) => session.refuse(Refusal::Memory),
    }
}

/// Writes definitions with what each gives.
fn put_definitions(
    session: &mut Session,
    case: &Value<'_>,
    definitions: &[Pair<'_>],
    abbreviations: &Abbreviations<'_, '_>,
) {
    session.begin_list("abbreviations");
    for definition in definitions {
        put_definition(session, case, definition, abbreviations);
    }
    session.end_array();
}

fn put_definition(
    session: &mut Session,
    case: &Value<'_>,
    definition: &Pair<'_>,
    abbreviations: &Abbreviations<'_, '_>,
) {
    session.begin_object();
    session.put_text("name", definition.key.v);
    let pieces = definition.value.v.as_slice();
    let found = parse_field(session.alloc, definition.key.v, pieces, abbreviations);
    put_found(session, case, found);
    session.end_object();
}
