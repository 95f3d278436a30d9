//! What an entry answers to a variable.

use crate::styles::{form_of, variable_of};
use cases::{CaseValue, Session, Value, put_or_null};
use cases_literature::entry_member;
use literature::{Entry, MaybeTyped};
use rendering_entries::EntryLike;
use rendering_taxonomy::{LongShortForm, NameVariable, NumberVariable, StandardVariable, Variable};
use std::borrow::Cow;

/// `answer`: what an entry answers to a variable, or null.
pub(crate) fn answer(session: &mut Session, case: &Value<'_>) {
    session.only(case, &["case", "name", "entry", "variable", "form"]);
    if let Some(entry) = entry_member(session, case, "entry") {
        put_answer(session, case, &*entry);
    }
}

/// Writes what the entry answers to the variable of the case.
fn put_answer(session: &mut Session, case: &Value<'_>, entry: &Entry) {
    session.key("answer");
    match variable_of(session, case) {
        Variable::Standard(variable) => {
            let form = form_of(session, case);
            put_standard(session, entry, form, variable);
        }
        Variable::Number(variable) => put_number(session, entry, variable),
        Variable::Page => {
            let answered = entry.resolve_page_variable(session.alloc);
            if let Some(pages) = session.allocated(answered) {
                put_or_null(session, pages.as_ref());
            }
        }
        Variable::Name(variable) => put_people(session, entry, variable),
        Variable::Date(variable) => match entry.resolve_date_variable(variable) {
            Some(date) => put_lent(session, &date),
            None => session.null(),
        },
    }
}

/// Writes a value, borrowed or not.
fn put_lent<T: CaseValue>(session: &mut Session, answered: &Cow<'_, T>) {
    match answered {
        Cow::Borrowed(value) => value.put(session),
        Cow::Owned(value) => value.put(session),
    }
}

/// Writes the text that the entry answers to the variable, or null.
fn put_standard(
    session: &mut Session,
    entry: &Entry,
    form: LongShortForm,
    variable: StandardVariable,
) {
    let answered = entry.resolve_standard_variable(session.alloc, form, variable);
    match session.allocated(answered) {
        Some(Some(text)) => put_lent(session, &text),
        _ => session.null(),
    }
}

/// Writes a number, or a text instead of it as an object, or null.
fn put_number(session: &mut Session, entry: &Entry, variable: NumberVariable) {
    let answered = entry.resolve_number_variable(session.alloc, variable);
    match session.allocated(answered) {
        Some(Some(MaybeTyped::Typed(number))) => put_lent(session, &number),
        Some(Some(MaybeTyped::String(text))) => {
            session.begin_object();
            session.put_text("text", text.as_str());
            session.end_object();
        }
        _ => session.null(),
    }
}

/// Writes people, of whom there may be none.
fn put_people(session: &mut Session, entry: &Entry, variable: NameVariable) {
    let answered = entry.resolve_name_variable(session.alloc, variable);
    let Some(people) = session.allocated(answered) else {
        return;
    };
    session.begin_array();
    for person in people.as_slice() {
        put_lent(session, person);
    }
    session.end_array();
}
