//! What elements of trees stand for.

use crate::lists::{ListItem, list_of};
use cases::{Session, Value, given, member, put_member, word_of};
use csl_words::NAME_VARIABLES;
use literature::Person;
use rendering_taxonomy::NameVariable;
use rendering_tree::ElemMeta;

/// What a word says that an element stands for.
fn meta_of(session: &mut Session, word: &str) -> ElemMeta {
    match word {
        "date" => ElemMeta::Date,
        "text" => ElemMeta::Text,
        "number" => ElemMeta::Number,
        "label" => ElemMeta::Label,
        "citation-number" => ElemMeta::CitationNumber,
        "citation-label" => ElemMeta::CitationLabel,
        _ => {
            session.want("meta", "one of its words, or an object");
            ElemMeta::Text
        }
    }
}

/// The name variable of a member.
fn name_variable(session: &mut Session, object: &Value<'_>, name: &'static str) -> NameVariable {
    let variable = session.maybe_word(object, name, NAME_VARIABLES);
    session.required(variable, name, "a variable of names", NameVariable::Author)
}

/// A variable of a names node, with the people that answer it.
impl ListItem for (Vec<Person>, NameVariable) {
    fn given(session: &mut Session, item: &Value<'_>) -> (Vec<Person>, NameVariable) {
        session.only(item, &["variable", "people"]);
        let variable = name_variable(session, item, "variable");
        (given(session, item, "people"), variable)
    }
}

/// The members of an object that says what an element stands for.
const MEMBERS: [&str; 5] = ["names", "name_variable", "name", "place", "entry"];

/// What the members of an object say that an element stands for.
fn meta_in(session: &mut Session, object: &Value<'_>) -> ElemMeta {
    session.only(object, &MEMBERS);
    if member(object, "names").is_some() {
        return ElemMeta::Names(list_of(session, object, "names"));
    }
    if member(object, "entry").is_some() {
        return ElemMeta::Entry(session.count(object, "entry"));
    }
    if member(object, "name").is_some() {
        let variable = name_variable(session, object, "name");
        return ElemMeta::Name(variable, session.count(object, "place"));
    }
    ElemMeta::NameVariable(name_variable(session, object, "name_variable"))
}

/// What the member `meta`, a word or an object, says that an element stands for, where there is one.
pub(crate) fn maybe_meta(session: &mut Session, object: &Value<'_>) -> Option<ElemMeta> {
    let Some(given) = member(object, "meta") else {
        return None;
    };
    match given.as_str() {
        Some(word) => Some(meta_of(session, word)),
        None => Some(meta_in(session, given)),
    }
}

/// Writes the word of a name variable as the member of the name.
fn put_variable(session: &mut Session, name: &str, variable: NameVariable) {
    session.put_text(name, word_of(NAME_VARIABLES, variable));
}

/// Writes what a names node stands for: variables, each with the people that answer it.
fn put_names(session: &mut Session, names: &[(Vec<Person>, NameVariable)]) {
    session.begin_list("names");
    for answered in names {
        session.begin_object();
        put_variable(session, "variable", answered.1);
        put_member(session, "people", &answered.0);
        session.end_object();
    }
    session.end_array();
}

/// Writes the members of what an element stands for that has no word.
fn put_members(session: &mut Session, meta: &ElemMeta) {
    match meta {
        ElemMeta::Names(names) => put_names(session, names.as_slice()),
        ElemMeta::NameVariable(variable) => put_variable(session, "name_variable", *variable),
        ElemMeta::Name(variable, index) => {
            put_variable(session, "name", *variable);
            session.put_count("place", *index);
        }
        ElemMeta::Entry(index) => session.put_count("entry", *index),
        _ => {}
    }
}

/// The word of what an element stands for; empty where it has none.
fn word(meta: &ElemMeta) -> &'static str {
    match meta {
        ElemMeta::Date => "date",
        ElemMeta::Text => "text",
        ElemMeta::Number => "number",
        ElemMeta::Label => "label",
        ElemMeta::CitationNumber => "citation-number",
        ElemMeta::CitationLabel => "citation-label",
        _ => "",
    }
}

/// Writes what an element stands for as the member `meta`, where there is anything.
pub(crate) fn put_meta(session: &mut Session, meta: Option<&ElemMeta>) {
    let Some(meta) = meta else {
        return;
    };
    let word = word(meta);
    session.key("meta");
    if !word.is_empty() {
        return session.string(word);
    }
    session.begin_object();
    put_members(session, meta);
    session.end_object();
}
