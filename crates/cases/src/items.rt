//! Texts of files, as their raw grammar reads them.

use crate::refusal::Refusal;
use crate::session::Session;
use crate::spans::put_span_as;
use biblatex::{
    BiblatexParser, Fault, Field, Pair, RawBibliography, RawChunk, RawEntry, RawError, Spanned,
    Token,
};
use json::Value;

/// The name of a mark of the grammar.
pub fn token_name(token: Token) -> &'static str {
    match token {
        Token::Identifier => "Identifier",
        Token::OpeningBrace => "OpeningBrace",
        Token::ClosingBrace => "ClosingBrace",
        Token::Comma => "Comma",
        Token::QuotationMark => "QuotationMark",
        Token::Equals => "Equals",
        Token::DecimalPoint => "DecimalPoint",
    }
}

/// Writes a text as the member of the name, and its span where that is asked for.
fn put_spanned_text(
    session: &mut Session,
    name: &str,
    span_name: &str,
    text: &Spanned<&str>,
    has_spans: bool,
) {
    session.put_text(name, text.v);
    if has_spans {
        put_span_as(session, span_name, &text.span);
    }
}

/// Writes a piece of a value as an object.
fn put_piece(session: &mut Session, piece: &Spanned<RawChunk<'_>>, has_spans: bool) {
    session.begin_object();
    match piece.v {
        RawChunk::Normal(text) => session.put_text("text", text),
        RawChunk::Abbreviation(name) => session.put_text("abbreviation", name),
    }
    if has_spans {
        put_span_as(session, "at", &piece.span);
    }
    session.end_object();
}

/// Writes the pieces of a value as a list.
fn put_value(session: &mut Session, value: &Spanned<Field<'_>>, has_spans: bool) {
    session.begin_list("value");
    for piece in value.v.as_slice() {
        put_piece(session, piece, has_spans);
    }
    session.end_array();
    if has_spans {
        put_span_as(session, "value_at", &value.span);
    }
}

/// Writes fields or abbreviations as a list.
fn put_pairs(session: &mut Session, pairs: &[Pair<'_>], has_spans: bool) {
    session.begin_array();
    for pair in pairs.iter() {
        session.begin_object();
        put_spanned_text(session, "name", "name_at", &pair.key, has_spans);
        put_value(session, &pair.value, has_spans);
        session.end_object();
    }
    session.end_array();
}

/// Writes an entry as an object.
fn put_entry(session: &mut Session, entry: &Spanned<RawEntry<'_>>, has_spans: bool) {
    session.begin_object();
    put_spanned_text(session, "kind", "kind_at", &entry.v.kind, has_spans);
    put_spanned_text(session, "key", "key_at", &entry.v.key, has_spans);
    session.key("fields");
    put_pairs(session, entry.v.fields.as_slice(), has_spans);
    if has_spans {
        put_span_as(session, "at", &entry.span);
    }
    session.end_object();
}

/// Writes the entries and the abbreviations of a text.
fn put_raw(session: &mut Session, raw: &RawBibliography<'_>, has_spans: bool) {
    session.begin_list("entries");
    for entry in raw.entries.as_slice() {
        put_entry(session, entry, has_spans);
    }
    session.end_array();
    session.key("abbreviations");
    put_pairs(session, raw.abbreviations.as_slice(), has_spans);
}

/// Writes why a text is not of the grammar.
pub fn put_fault(session: &mut Session, fault: Fault) {
    match fault {
        Fault::UnexpectedEof => session.put_refused("UnexpectedEof"),
        Fault::Unexpected(token) => {
            session.put_refused("Unexpected");
            session.put_text("token", token_name(token));
        }
        Fault::Expected(token) => {
            session.put_refused("Expected");
            session.put_text("token", token_name(token));
        }
    }
}

/// Writes why a text is refused and where, and the message for it where that is asked for.
fn put_refusal(session: &mut Session, case: &Value<'_>, error: RawError) {
    let RawError::Refused { fault, at } = error else {
        return session.refuse(Refusal::Memory);
    };
    put_fault(session, fault);
    put_span_as(session, "at", &(at..at));
    session.put_message(case, &error);
}

/// A text: the entries and the abbreviations that it has.
pub(crate) fn answer_items(session: &mut Session, case: &Value<'_>) {
    session.only(
        case,
        &["case", "name", "bib", "parser", "places", "message"],
    );
    let bib = session.text(case, "bib");
    let read = if session.is_set(case, "parser") {
        BiblatexParser::new(bib).parse(session.alloc)
    } else {
        RawBibliography::parse(session.alloc, bib)
    };
    let has_spans = session.is_set(case, "places");
    match read {
        Ok(raw) => put_raw(session, &raw, has_spans),
        Err(error) => put_refusal(session, case, error),
    }
}
