//! One line, and its answer.

use cases::{Refusal, Session, Value};
use json::{Reader, Scratch};
use std::alloc::{AllocError, Global};

/// How deep arrays and objects may nest in a line.
const DEPTH: usize = 1000;

/// The JSON value of a line.
fn parse<'a>(alloc: Global, line: &'a str, scratch: &'a mut Scratch) -> Result<Value<'a>, Refusal> {
    let mut reader = match Reader::new(line, scratch) {
        Ok(reader) => reader,
        Err(_) => return Err(Refusal::Memory),
    };
    match Value::read(alloc, &mut reader, DEPTH) {
        Ok(value) if reader.next().is_none() => Ok(value),
        Err(json::Error::OutOfMemory) => Err(Refusal::Memory),
        _ => Err(Refusal::NoObject),
    }
}

/// Writes the members of the answer to a case; false where no kind has this name.
fn is_answered(session: &mut Session, kind: &str, case: &Value<'_>) -> bool {
    cases::answer(session, kind, case)
        || cases_literature::answer(session, kind, case)
        || cases_rendering::answer(session, kind, case)
        || cases_cite::answer(session, kind, case)
        || cases_uses::answer(session, kind, case)
        || cases_driver::answer(session, kind, case)
}

/// The answer to a case, as an object.
fn answer(alloc: Global, case: &Value<'_>) -> Result<Vec<u8>, Refusal> {
    let mut session = Session::new(alloc);
    session.begin_object();
    let name = session.maybe_text(case, "name");
    session.put_maybe_text("name", name);
    let kind = session.maybe_text(case, "case").unwrap_or("finish");
    if !is_answered(&mut session, kind, case) {
        let kind = session.owned(kind);
        session.refuse(Refusal::UnknownKind(kind));
    }
    session.end_object();
    session.finish()
}

/// The answer to the case of a line, as an object.
fn answer_object(alloc: Global, line: &str) -> Result<Vec<u8>, Refusal> {
    let mut scratch = Scratch::new(alloc);
    let case = parse(alloc, line, &mut scratch)?;
    answer(alloc, &case)
}

/// The message for a line that is no case.
fn message(alloc: Global, refusal: &Refusal) -> Result<String, AllocError> {
    match refusal {
        Refusal::Memory => String::from_str(alloc, "out of memory"),
        Refusal::NoObject => String::from_str(alloc, "no JSON object"),
        Refusal::UnknownKind(kind) => format!(in alloc; "unknown kind {kind}"),
        Refusal::UnknownMember(name) => format!(in alloc; "unknown member {name}"),
        Refusal::Wanted(name, what) => format!(in alloc; "{name} has to be {what}"),
    }
}

/// The message for a line that is no case, as an object.
fn no_case(alloc: Global, refusal: &Refusal) -> Result<Vec<u8>, Refusal> {
    let mut session = Session::new(alloc);
    session.begin_object();
    if let Some(message) = session.allocated(message(alloc, refusal)) {
        session.put_text("no_case", message.as_str());
    }
    session.end_object();
    session.finish()
}

fn text_of(alloc: Global, answer: Vec<u8>) -> String {
    match String::from_utf8(answer) {
        Ok(text) => text,
        Err(_) => String::new(alloc),
    }
}

/// The answer to a line: that of its case, or why it is no case.
pub fn answer_line(alloc: Global, line: &str) -> Result<String, AllocError> {
    let answered = match answer_object(alloc, line) {
        Err(Refusal::Memory) => return Err(AllocError),
        Err(refusal) => no_case(alloc, &refusal),
        answered => answered,
    };
    match answered {
        Ok(answer) => Ok(text_of(alloc, answer)),
        Err(_) => Err(AllocError),
    }
}
