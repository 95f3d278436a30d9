//! Fields of an entry as values of types.

use crate::entries::getters::put_value;
use crate::{CaseValue, Session, Value, given};
use biblatex::{Date, EditorType, Entry, FieldType, Gender, Person};
use std::ops::Range;

/// Writes a field as a value of the type, or why it is none.
fn put_as<T: FieldType + CaseValue>(session: &mut Session, entry: &Entry, field: &str) {
    let found = entry.get_as::<T>(session.alloc, field);
    put_value(session, found);
}

/// Writes a field as a value of the type that a step names, or why it is none.
pub(crate) fn get_as(session: &mut Session, step: &Value<'_>, entry: &Entry) {
    session.only(step, &["step", "field", "type"]);
    let field = session.text(step, "field");
    match session.text(step, "type") {
        "integer" => put_as::<i64>(session, entry, field),
        "text" => put_as::<String>(session, entry, field),
        "gender" => put_as::<Gender>(session, entry, field),
        "editor-type" => put_as::<EditorType>(session, entry, field),
        "range" => put_as::<Range<u32>>(session, entry, field),
        "ranges" => put_as::<Vec<Range<u32>>>(session, entry, field),
        "texts" => put_as::<Vec<String>>(session, entry, field),
        "people" => put_as::<Vec<Person>>(session, entry, field),
        "date" => put_as::<Date>(session, entry, field),
        _ => session.want("type", "a type of values"),
    }
}

/// Gives an entry a field, as the value of a type that a step names.
pub(crate) fn set_typed(session: &mut Session, step: &Value<'_>, entry: &mut Entry) {
    match session.text(step, "type") {
        "integer" => set_value::<i64>(session, step, entry),
        "text" => set_value::<String>(session, step, entry),
        "gender" => set_value::<Gender>(session, step, entry),
        "editor-type" => set_value::<EditorType>(session, step, entry),
        "range" => set_value::<Range<u32>>(session, step, entry),
        "ranges" => set_value::<Vec<Range<u32>>>(session, step, entry),
        "texts" => set_value::<Vec<String>>(session, step, entry),
        "people" => set_value::<Vec<Person>>(session, step, entry),
        "date" => set_value::<Date>(session, step, entry),
        _ => session.want("type", "a type of values"),
    }
}

/// Gives an entry a field, as the value of the type that a step gives.
fn set_value<T: FieldType + CaseValue>(session: &mut Session, step: &Value<'_>, entry: &mut Entry) {
    let field = session.text(step, "field");
    let value: T = given(session, step, "value");
    session.check(entry.set_as(field, &value));
}
