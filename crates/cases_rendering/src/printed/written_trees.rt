//! Trees of what was printed, written as JSON.

use crate::printed::metas::put_meta;
use crate::styles::{is_plain, put_formatting};
use cases::{Session, word_of};
use csl_words::DISPLAYS;
use rendering_tree::{Elem, ElemChild, ElemChildren, Formatted};

/// Writes a text: as a JSON string where it looks plain, else as an object.
fn put_formatted(session: &mut Session, text: &Formatted) {
    if is_plain(text.formatting) {
        return session.string(text.text.as_str());
    }
    session.begin_object();
    session.put_text("text", text.text.as_str());
    put_formatting(session, text.formatting);
    session.end_object();
}

fn put_link(session: &mut Session, text: &Formatted, url: &str) {
    session.begin_object();
    session.put_text("link", text.text.as_str());
    session.put_text("url", url);
    put_formatting(session, text.formatting);
    session.end_object();
}

#[cycle(writing)]
fn put_child(session: &mut Session, child: &ElemChild) {
    match child {
        ElemChild::Text(text) => put_formatted(session, text),
        ElemChild::Elem(elem) => put_elem(session, elem),
        ElemChild::Markup(text) => {
            session.begin_object();
            session.put_text("markup", text.as_str());
            session.end_object();
        }
        ElemChild::Link { text, url } => put_link(session, text, url.as_str()),
        ElemChild::Transparent { cite_idx, format } => {
            session.begin_object();
            session.put_count("transparent", *cite_idx);
            put_formatting(session, *format);
            session.end_object();
        }
    }
}

/// Writes an element.
#[cycle(writing)]
pub(crate) fn put_elem(session: &mut Session, elem: &Elem) {
    session.begin_object();
    session.key("elem");
    put_children(session, &elem.children);
    if let Some(display) = elem.display {
        session.put_text("display", word_of(DISPLAYS, display));
    }
    put_meta(session, elem.meta.as_ref());
    session.end_object();
}

/// Writes children as a list.
#[cycle(writing)]
fn put_children(session: &mut Session, children: &ElemChildren) {
    session.begin_array();
    for child in &children.0 {
        put_child(session, child);
    }
    session.end_array();
}

/// Writes a tree as the member of the name.
pub(crate) fn put_tree(session: &mut Session, name: &str, tree: &ElemChildren) {
    session.key(name);
    put_children(session, tree);
}
