//! What calls make of trees.

use crate::printed::metas::maybe_meta;
use crate::printed::trees::tree;
use crate::printed::written_trees::{put_elem, put_tree};
use cases::{Refusal, Session, Value};
use rendering_output::BufWriteFormat;
use rendering_tree::{Elem, ElemChildren, ElemMeta, simplify_children};
use std::alloc::AllocError;

/// Writes what is written of a tree: in plain text as the member `plain`, and in HTML as the member `html`.
pub fn put_written(session: &mut Session, tree: &ElemChildren) {
    session.put_printed("plain", tree);
    let mut text = String::new(session.alloc);
    match tree.write_buf(&mut text, BufWriteFormat::Html) {
        Ok(()) => session.put_text("html", text.as_str()),
        Err(_) => session.refuse(Refusal::Memory),
    }
}

/// The normal form of a tree.
fn simplified(tree: &ElemChildren) -> Result<ElemChildren, AllocError> {
    simplify_children(tree.clone()?)
}

/// Writes what is written of a tree, and its normal form as the member `tree`.
pub fn put_written_tree(session: &mut Session, tree: &ElemChildren) {
    put_written(session, tree);
    if let Some(simple) = session.allocated(simplified(tree)) {
        put_tree(session, "tree", &simple);
    }
}

/// `simplify`: what is written of a tree, and its normal form.
pub(crate) fn answer_simplified(session: &mut Session, case: &Value<'_>) {
    session.only(case, &["case", "name", "tree"]);
    let tree = tree(session, case, "tree");
    put_written_tree(session, &tree);
}

/// Writes an element as the member of the name, or null.
fn put_elem_or_null(session: &mut Session, name: &str, elem: Option<&Elem>) {
    session.key(name);
    match elem {
        Some(elem) => put_elem(session, elem),
        None => session.null(),
    }
}

/// The first element that stands for that, or for a names node.
fn found<'t>(tree: &'t ElemChildren, meta: Option<&ElemMeta>) -> Option<&'t Elem> {
    match meta {
        Some(meta) => tree.find_meta(meta),
        None => tree.find_names(),
    }
}

/// Writes a tree whose first names node is emptied.
fn put_emptied(session: &mut Session, tree: &mut ElemChildren) {
    if let Some(elem) = tree.find_names_mut() {
        elem.children = ElemChildren::new(session.alloc);
    }
    put_tree(session, "emptied", tree);
}

/// `find`: the first element of a tree that stands for something, and the tree without the children of its first names node.
pub(crate) fn answer_found(session: &mut Session, case: &Value<'_>) {
    session.only(case, &["case", "name", "tree", "meta", "emptied"]);
    let mut tree = tree(session, case, "tree");
    let meta = maybe_meta(session, case);
    put_elem_or_null(session, "found", found(&tree, meta.as_ref()));
    if session.is_set(case, "emptied") {
        put_emptied(session, &mut tree);
    }
}

/// Writes what is printed of each child as the member `texts`.
fn put_texts(session: &mut Session, tree: &ElemChildren) {
    session.begin_list("texts");
    for child in &tree.0 {
        let text = child.to_string(session.alloc);
        if let Some(text) = session.allocated(text) {
            session.string(text.as_str());
        }
    }
    session.end_array();
}

/// `remove`: the first element of a tree that stands for something, what is printed of it, and of what is left.
pub(crate) fn answer_removed(session: &mut Session, case: &Value<'_>) {
    session.only(case, &["case", "name", "tree"]);
    let mut tree = tree(session, case, "tree");
    let removed = tree.remove_any_meta();
    put_elem_or_null(session, "removed", removed.as_ref());
    if let Some(elem) = &removed {
        session.put_printed("text", elem);
    }
    put_tree(session, "tree", &tree);
    put_texts(session, &tree);
}

/// `equal_trees`: whether two trees are equal.
pub(crate) fn answer_equal(session: &mut Session, case: &Value<'_>) {
    session.only(case, &["case", "name", "one", "other"]);
    let one = tree(session, case, "one");
    let other = tree(session, case, "other");
    session.put_bool("is_equal", one == other);
}
