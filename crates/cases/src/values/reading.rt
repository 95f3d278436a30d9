//! Contents of fields as values of types, and values as contents.

use crate::values::case_value::{CaseValue, put_member};
use crate::{
    Refusal, Session, Value, maybe_span, normal_chunks, put_chunks, put_span, read_chunks,
};
use biblatex::{
    Abbreviations, Chunk, Chunks, ChunksParse, Date, EditorType, FieldType, FieldTypeError, Gender,
    ParseError, PermissiveType, Person, RawChunk, Span, Spanned, TypeErrorKind, parse_field,
    reread,
};
use std::alloc::Global;
use std::ops::Range;

/// The content that a case gives: chunks, or the span of a text that spells none.
#[derive(Drop)]
enum Given {
    Chunks(Chunks),
    Malformed(Span),
}

/// The content of an ordinary field without abbreviations, as it is written there.
fn written_content(alloc: Global, written: &str, given_span: Span) -> Result<Chunks, ParseError> {
    let abbreviations = Abbreviations::new(alloc, &[])?;
    let piece = Spanned::new(RawChunk::Normal(written), given_span);
    parse_field(alloc, "note", &[piece], &abbreviations)
}

/// The content that was read of a field.
fn read_content(session: &mut Session, read: Result<Chunks, ParseError>) -> Given {
    match read {
        Ok(chunks) => Given::Chunks(chunks),
        Err(ParseError::Refused { span, .. }) => Given::Malformed(span),
        Err(ParseError::Memory) => {
            session.refuse(Refusal::Memory);
            Given::Malformed(0..0)
        }
    }
}

/// The span of a text of so many bytes; where a case gives none, the text is its source.
fn given_span(session: &mut Session, case: &Value<'_>, length: usize) -> Span {
    match maybe_span(session, case) {
        Some(given_span) => given_span,
        None => 0..length,
    }
}

/// The content that a case gives.
fn given_content(session: &mut Session, case: &Value<'_>) -> Given {
    if let Some(text) = session.maybe_text(case, "text") {
        let given_span = given_span(session, case, text.len());
        return Given::Chunks(normal_chunks(session, text, Some(given_span)));
    }
    if let Some(written) = session.maybe_text(case, "content") {
        let given_span = given_span(session, case, written.len());
        let read = written_content(session.alloc, written, given_span);
        return read_content(session, read);
    }
    if case.get("chunks").is_none() {
        session.want("text", "there, or content, chunks or value");
    }
    Given::Chunks(read_chunks(session, case, "chunks"))
}

/// Writes what is written of a value.
fn put_written<T: FieldType>(session: &mut Session, value: &T) {
    let written = value.to_chunks(session.alloc);
    if let Some(chunks) = session.allocated(written) {
        session.key("written");
        put_chunks(session, chunks.as_slice(), true);
    }
}

/// Writes whether the value comes back from what is written of it.
fn put_comes_back<T: FieldType + PartialEq>(session: &mut Session, value: &T) {
    match reread(session.alloc, value) {
        Ok(read) => session.put_bool("comes_back", read == *value),
        Err(FieldTypeError::TypeError(_)) => session.put_bool("comes_back", false),
        Err(FieldTypeError::Memory) => session.refuse(Refusal::Memory),
    }
}

/// Writes a value, what is written of it, and whether it comes back.
fn put_value<T: FieldType + PartialEq + CaseValue>(
    session: &mut Session,
    case: &Value<'_>,
    value: &T,
) {
    if session.is_shown(case, "value", true) {
        put_member(session, "value", value);
    }
    if session.is_shown(case, "written", false) {
        put_written(session, value);
    }
    if session.is_shown(case, "comes_back", false) {
        put_comes_back(session, value);
    }
}

/// The name of a fault.
pub fn type_error_name(kind: TypeErrorKind) -> &'static str {
    match kind {
        TypeErrorKind::InvalidFormat => "InvalidFormat",
        TypeErrorKind::WrongNumberOfDigits => "WrongNumberOfDigits",
        TypeErrorKind::MonthOutOfRange => "MonthOutOfRange",
        TypeErrorKind::DayOutOfRange => "DayOutOfRange",
        TypeErrorKind::Unreadable => "Unreadable",
    }
}

/// Writes why content is no value of the type.
fn put_fault(session: &mut Session, case: &Value<'_>, fault: &FieldTypeError) {
    let FieldTypeError::TypeError(error) = fault else {
        return session.refuse(Refusal::Memory);
    };
    session.put_refused("TypeError");
    session.put_text("kind", type_error_name(error.kind));
    put_span(session, &error.span);
    if session.is_shown(case, "message", false) {
        session.put_printed("message", fault);
    }
}

/// Writes what chunks are as a value of the type.
fn answer_chunks<T: FieldType + PartialEq + CaseValue>(
    session: &mut Session,
    case: &Value<'_>,
    chunks: &Chunks,
) {
    match chunks.as_slice().parse::<T>(session.alloc) {
        Ok(value) => put_value(session, case, &value),
        Err(fault) => put_fault(session, case, &fault),
    }
}

/// Writes what the content of a case is as a value of the type, or what is written of the value that it gives.
fn answer_as<T: FieldType + PartialEq + CaseValue>(session: &mut Session, case: &Value<'_>) {
    session.only_shown(case, &["value", "written", "comes_back", "message"]);
    if let Some(value) = case.get("value") {
        let value = T::given(session, value);
        return put_value(session, case, &value);
    }
    match &given_content(session, case) {
        Given::Chunks(chunks) => answer_chunks::<T>(session, case, chunks),
        Given::Malformed(span) => {
            session.put_refused("MalformedCommand");
            put_span(session, span);
        }
    }
}

/// The same, where the value may be chunks if the case says so.
fn answer_in<T: FieldType + PartialEq + CaseValue>(session: &mut Session, case: &Value<'_>) {
    if session.is_set(case, "permissive") {
        return answer_as::<PermissiveType<T>>(session, case);
    }
    answer_as::<T>(session, case)
}

/// The members of a case.
const MEMBERS: [&str; 10] = [
    "case",
    "name",
    "type",
    "permissive",
    "text",
    "content",
    "chunks",
    "at",
    "value",
    "show",
];

/// What the content of a case is as a value of a type, what is written of that, and whether it comes back.
pub(crate) fn answer(session: &mut Session, case: &Value<'_>) {
    session.only(case, &MEMBERS);
    match session.text(case, "type") {
        "integer" => answer_in::<i64>(session, case),
        "text" => answer_in::<String>(session, case),
        "gender" => answer_in::<Gender>(session, case),
        "editor-type" => answer_in::<EditorType>(session, case),
        "range" => answer_in::<Range<u32>>(session, case),
        "ranges" => answer_in::<Vec<Range<u32>>>(session, case),
        "texts" => answer_in::<Vec<String>>(session, case),
        "people" => answer_in::<Vec<Person>>(session, case),
        "date" => answer_in::<Date>(session, case),
        _ => session.want("type", "a type of values"),
    }
}
