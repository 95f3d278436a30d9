//! Classes of characters, and names of verbatim fields.

use crate::session::Session;
use biblatex::{is_escapable, is_id_continue, is_id_start, is_key, is_verbatim_field};
use json::Value;
use std::alloc::{AllocError, Global};

/// The class of the characters that are asked for.
#[derive(Clone, Copy)]
enum Class {
    /// Characters of keys.
    Key,
    /// Characters with which an identifier begins.
    IdStart,
    /// Characters of identifiers.
    IdContinue,
    /// Characters that a backslash gives.
    Escapable { is_verbatim: bool, is_read: bool },
}

impl Class {
    /// Whether the character is asked for.
    fn contains(self, c: char) -> bool {
        match self {
            Class::Key => is_key(c),
            Class::IdStart => is_id_start(c),
            Class::IdContinue => is_id_continue(c),
            Class::Escapable {
                is_verbatim,
                is_read,
            } => is_escapable(c, is_verbatim, is_read),
        }
    }
}

/// The class that a case names.
fn read_class(session: &mut Session, case: &Value<'_>) -> Class {
    match session.text(case, "class") {
        "key" => Class::Key,
        "id-start" => Class::IdStart,
        "id-continue" => Class::IdContinue,
        "escapable" => Class::Escapable {
            is_verbatim: session.is_set(case, "verbatim"),
            is_read: session.is_set(case, "read"),
        },
        _ => {
            session.want("class", "key, id-start, id-continue or escapable");
            Class::Key
        }
    }
}

/// The characters of a text that are of the class.
fn those_of(alloc: Global, class: Class, text: &str) -> Result<String, AllocError> {
    let mut found = String::new(alloc);
    for c in text.chars() {
        if class.contains(c) {
            found.push(c)?;
        }
    }
    Ok(found)
}

/// A text: which of its characters are of the class.
pub(crate) fn answer_characters(session: &mut Session, case: &Value<'_>) {
    session.only(case, &["case", "name", "text", "class", "verbatim", "read"]);
    let class = read_class(session, case);
    let found = those_of(session.alloc, class, session.text(case, "text"));
    if let Some(found) = session.allocated(found) {
        session.put_text("text", found.as_str());
    }
}

/// A name: whether it is that of a verbatim field.
pub(crate) fn answer_verbatim_field(session: &mut Session, case: &Value<'_>) {
    session.only(case, &["case", "name", "field"]);
    let is_verbatim = is_verbatim_field(session.text(case, "field"));
    session.put_bool("verbatim", is_verbatim);
}
