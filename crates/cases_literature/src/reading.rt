//! Texts that are read, and what is printed of values.

use crate::asked::{Asked, put_printed};
use cases::{Refusal, Session, Value, given, put_member};
use literature::{
    Date, DateError, EntryType, MaybeTyped, Numeric, NumericError, PageRanges, PageRangesError,
};
use std::alloc::AllocError;
use std::fmt::Display;

/// What the types of values are called.
const TYPES: &str = "numeric, page-ranges, date, maybe-numeric, maybe-page-ranges or entry-type";

/// Writes what is asked of a value.
fn put_answer<T: Asked + Display>(session: &mut Session, case: &Value<'_>, value: &T) {
    put_printed(session, case, value);
    if session.is_shown(case, "value", false) {
        put_member(session, "value", value);
    }
    value.put_asked(session, case);
}

/// Writes why a text was not read: the refusal's type, and its variant where that is to be shown.
fn put_refusal(session: &mut Session, case: &Value<'_>, name: &str, kind: &str) {
    session.put_refused(name);
    if session.is_shown(case, "kind", false) {
        session.put_text("kind", kind);
    }
}

/// Reads a number.
fn read_numeric(session: &mut Session, case: &Value<'_>, text: &str) {
    match Numeric::read(session.alloc, text) {
        Ok(numeric) => put_answer(session, case, &numeric),
        Err(NumericError::Malformed) => put_refusal(session, case, "NumericError", "Malformed"),
        Err(NumericError::Memory) => session.refuse(Refusal::Memory),
    }
}

/// Reads page ranges.
fn read_pages(session: &mut Session, case: &Value<'_>, text: &str) {
    match PageRanges::read(session.alloc, text) {
        Ok(pages) => put_answer(session, case, &pages),
        Err(PageRangesError::Malformed) => {
            put_refusal(session, case, "PageRangesError", "Malformed");
        }
        Err(PageRangesError::Memory) => session.refuse(Refusal::Memory),
    }
}

/// The name of a date's fault.
fn date_fault(fault: DateError) -> &'static str {
    match fault {
        DateError::UnknownFormat => "UnknownFormat",
        DateError::MonthOutOfBounds => "MonthOutOfBounds",
        DateError::DayOutOfBounds => "DayOutOfBounds",
    }
}

fn read_date(session: &mut Session, case: &Value<'_>, text: &str) {
    match Date::read(text) {
        Ok(date) => put_answer(session, case, &date),
        Err(fault) => put_refusal(session, case, "DateError", date_fault(fault)),
    }
}

/// Reads the name of a type of entries, and writes what is printed of the type, or null.
fn read_entry_type(session: &mut Session, case: &Value<'_>, text: &str) {
    match EntryType::read(text) {
        Some(entry_type) => put_printed(session, case, &entry_type),
        None => {
            session.key("text");
            session.null();
        }
    }
}

/// Writes what is asked of a value that may spell none.
fn put_read<T: Asked + Display>(
    session: &mut Session,
    case: &Value<'_>,
    read: Result<T, AllocError>,
) {
    if let Some(value) = session.allocated(read) {
        put_answer(session, case, &value);
    }
}

/// What may be shown of a value.
const SHOWN: [&str; 7] = [
    "text",
    "value",
    "is_plural",
    "single_number",
    "first",
    "is_typed",
    "kind",
];

/// `read`: a text, read as a value of a type.
pub(crate) fn read(session: &mut Session, case: &Value<'_>) {
    session.only(case, &["case", "name", "type", "text", "show", "place"]);
    session.only_shown(case, &SHOWN);
    let type_name = session.text(case, "type");
    let text = session.text(case, "text");
    let alloc = session.alloc;
    match type_name {
        "numeric" => read_numeric(session, case, text),
        "page-ranges" => read_pages(session, case, text),
        "date" => read_date(session, case, text),
        "maybe-numeric" => put_read(session, case, MaybeTyped::<Numeric>::read(alloc, text)),
        "maybe-page-ranges" => {
            put_read(session, case, MaybeTyped::<PageRanges>::read(alloc, text));
        }
        "entry-type" => read_entry_type(session, case, text),
        _ => session.want("type", TYPES),
    }
}

/// Writes what is asked of a value that a case gives.
fn print_as<T: Asked + Display>(session: &mut Session, case: &Value<'_>) {
    let value: T = given(session, case, "value");
    put_answer(session, case, &value);
}

/// `print`: a value of a type that is given in its parts.
pub(crate) fn print(session: &mut Session, case: &Value<'_>) {
    session.only(case, &["case", "name", "type", "value", "show", "place"]);
    session.only_shown(case, &SHOWN);
    match session.text(case, "type") {
        "numeric" => print_as::<Numeric>(session, case),
        "page-ranges" => print_as::<PageRanges>(session, case),
        "date" => print_as::<Date>(session, case),
        "maybe-numeric" => print_as::<MaybeTyped<Numeric>>(session, case),
        "maybe-page-ranges" => print_as::<MaybeTyped<PageRanges>>(session, case),
        _ => session.want("type", TYPES),
    }
}
