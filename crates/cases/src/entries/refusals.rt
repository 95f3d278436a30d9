//! What is refused, and where it stands.

use crate::{Refusal, Session, Value, put_fault, put_span, token_name, type_error_name};
use biblatex::{ParseError, ParseErrorKind, RawError, RetrievalError};

/// Writes the members that say why a text was not read, and the message for it where the case asks for that.
pub fn put_parse_error(session: &mut Session, case: &Value<'_>, error: &ParseError) {
    let ParseError::Refused { kind, span } = error else {
        return session.refuse(Refusal::Memory);
    };
    put_kind(session, kind, "abbreviation");
    put_span(session, span);
    session.put_message(case, error);
}

/// The same without its span. The name of an abbreviation is a member `name`.
pub fn put_parse_reason(session: &mut Session, case: &Value<'_>, error: &ParseError) {
    let ParseError::Refused { kind, span: _ } = error else {
        return session.refuse(Refusal::Memory);
    };
    put_kind(session, kind, "name");
    session.put_message(case, error);
}

/// The same of a text that is not of the grammar.
pub(crate) fn put_raw_error(session: &mut Session, case: &Value<'_>, error: &RawError) {
    let RawError::Refused { fault, at } = error else {
        return session.refuse(Refusal::Memory);
    };
    put_fault(session, *fault);
    put_span(session, &(*at..*at));
    session.put_message(case, error);
}

/// Writes an object that says why a field is not had as a value.
pub(crate) fn put_retrieval_error(session: &mut Session, error: &RetrievalError) {
    session.begin_object();
    match error {
        RetrievalError::Memory => session.refuse(Refusal::Memory),
        RetrievalError::Missing => session.put_refused("Missing"),
        RetrievalError::TypeError(error) => {
            put_refused_for(session, "TypeError", "kind", type_error_name(error.kind));
            put_span(session, &error.span);
        }
    }
    session.end_object();
}

/// Writes why something is refused, and one member more.
fn put_refused_for(session: &mut Session, word: &str, name: &str, text: &str) {
    session.put_refused(word);
    session.put_text(name, text);
}

/// Writes why a text was not read. The name of an abbreviation is the member of that name.
fn put_kind(session: &mut Session, kind: &ParseErrorKind, abbreviation: &str) {
    match kind {
        ParseErrorKind::UnexpectedEof => session.put_refused("UnexpectedEof"),
        ParseErrorKind::Unexpected(token) => {
            put_refused_for(session, "Unexpected", "token", token_name(*token));
        }
        ParseErrorKind::Expected(token) => {
            put_refused_for(session, "Expected", "token", token_name(*token));
        }
        ParseErrorKind::UnknownAbbreviation(name) => {
            put_refused_for(session, "UnknownAbbreviation", abbreviation, name.as_str());
        }
        ParseErrorKind::AbbreviationCycle(name) => {
            put_refused_for(session, "AbbreviationCycle", abbreviation, name.as_str());
        }
        ParseErrorKind::MalformedCommand => session.put_refused("MalformedCommand"),
        ParseErrorKind::DuplicateKey(key) => {
            put_refused_for(session, "DuplicateKey", "key", key.as_str());
        }
        ParseErrorKind::ReferenceCycle(key) => {
            put_refused_for(session, "ReferenceCycle", "key", key.as_str());
        }
        ParseErrorKind::ResolutionError(kind) => {
            put_refused_for(session, "ResolutionError", "kind", type_error_name(*kind));
        }
    }
}
