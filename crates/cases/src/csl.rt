//! Cases of files of CSL: whether a text is one by the elements, attributes and words of CSL 1.0.2, or why it is none, and where that shows.

use crate::xml::fault_name;
use crate::{Refusal, Session, Value};
use csl_schema::parse_csl;
use source_positions::ShownPosition;
use xml_schema::{ValidError, Wrong};

/// The name of what is wrong with an element.
fn wrong_name(wrong: Wrong<'_>) -> &'static str {
    match wrong {
        Wrong::Stray(_) => "Stray",
        Wrong::Attribute(_) => "Attribute",
        Wrong::Value(_) => "Value",
        Wrong::Lacking(_) => "Lacking",
        Wrong::Crowded(_) => "Crowded",
        Wrong::Childless(_) => "Childless",
        Wrong::Repeated(_) => "Repeated",
        Wrong::Text => "Text",
    }
}

/// Writes the names that what is wrong has, as a list.
fn put_names(session: &mut Session, names: &[&str]) {
    session.begin_list("names");
    for name in names {
        session.string(*name);
    }
    session.end_array();
}

/// Writes the one name that what is wrong has, as a list.
fn put_one_name(session: &mut Session, name: &str) {
    session.begin_list("names");
    session.string(name);
    session.end_array();
}

/// Writes the names that what is wrong has, where it has any.
fn put_names_of(session: &mut Session, wrong: Wrong<'_>) {
    match wrong {
        Wrong::Stray(name) => put_one_name(session, name),
        Wrong::Attribute(name) => put_one_name(session, name),
        Wrong::Value(name) => put_one_name(session, name),
        Wrong::Lacking(names) => put_names(session, names),
        Wrong::Crowded(names) => put_names(session, names),
        Wrong::Childless(name) => put_one_name(session, name),
        Wrong::Repeated(name) => put_one_name(session, name),
        Wrong::Text => {}
    }
}

/// Writes the line and the column at which so many bytes of a text are left.
fn put_position(session: &mut Session, text: &str, left: usize) {
    let at = text.len().saturating_sub(left);
    let position = ShownPosition::new(session.alloc, text.as_bytes(), at);
    if let Some(position) = session.allocated(position) {
        session.put_count("line", position.number);
        session.put_count("column", position.column);
    }
}

/// A file of CSL: that it is valid, or its first fault, with the names that it is about and its place.
pub(crate) fn answer_csl_fault(session: &mut Session, case: &Value<'_>) {
    session.only(case, &["case", "name", "text"]);
    let text = session.text(case, "text");
    match parse_csl(session.alloc, text) {
        Ok(_) => session.put_bool("valid", true),
        Err(ValidError::Memory) => session.refuse(Refusal::Memory),
        Err(ValidError::Text { fault, left }) => {
            session.put_refused("Text");
            session.put_text("fault", fault_name(fault));
            put_position(session, text, left);
        }
        Err(ValidError::Tree(fault)) => {
            session.put_refused("Tree");
            session.put_text("fault", wrong_name(fault.wrong));
            put_names_of(session, fault.wrong);
            put_position(session, text, fault.left);
        }
    }
}
