//! Citations and bibliographies as members of answers.

use cases::{Session, Value, word_of};
use cases_rendering::{put_effort, put_written, put_written_tree};
use csl_words::SECOND_FIELDS;
use driver::{BibliographyItem, Rendered, RenderedBibliography, RenderedCitation};
use rendering_tree::{ElemChild, ElemChildren};
use std::alloc::AllocError;

/// Writes citations and a bibliography, and how many calls of styles were made where the case asks for it.
pub(crate) fn put_rendered(session: &mut Session, case: &Value<'_>, rendered: &Rendered) {
    let has_trees = session.is_set(case, "trees");
    put_citations(session, has_trees, &rendered.citations);
    session.key("bibliography");
    match &rendered.bibliography {
        Some(bibliography) => put_bibliography(session, has_trees, bibliography),
        None => session.null(),
    }
    put_effort(session, case, rendered.effort);
}

/// Writes what a tree prints, and the tree where it is asked for.
pub(crate) fn put_text_of(session: &mut Session, has_trees: bool, tree: &ElemChildren) {
    if has_trees {
        put_written_tree(session, tree);
    } else {
        put_written(session, tree);
    }
}

/// Writes citations, each with the number of its note where it has one.
fn put_citations(session: &mut Session, has_trees: bool, citations: &[RenderedCitation]) {
    session.begin_list("citations");
    for citation in citations {
        session.begin_object();
        put_text_of(session, has_trees, &citation.citation);
        if let Some(number) = citation.note_number {
            session.put_count("note_number", number);
        }
        session.end_object();
    }
    session.end_array();
}

fn put_bibliography(session: &mut Session, has_trees: bool, bibliography: &RenderedBibliography) {
    session.begin_object();
    session.put_bool("hanging_indent", bibliography.hanging_indent);
    session.key("second_field_align");
    match bibliography.second_field_align {
        Some(align) => session.string(word_of(SECOND_FIELDS, align)),
        None => session.null(),
    }
    session.put_number("line_spacing", i64::from(bibliography.line_spacing.get()));
    session.put_number("entry_spacing", i64::from(bibliography.entry_spacing));
    session.begin_list("items");
    for item in &bibliography.items {
        put_item(session, has_trees, item);
    }
    session.end_array();
    session.end_object();
}

fn put_item(session: &mut Session, has_trees: bool, item: &BibliographyItem) {
    session.begin_object();
    session.put_text("key", item.key.as_str());
    session.key("first_field");
    match &item.first_field {
        Some(field) => put_child(session, has_trees, field),
        None => session.null(),
    }
    session.key("content");
    put_tree(session, has_trees, &item.content);
    session.end_object();
}

/// Writes what a child prints, as an object.
fn put_child(session: &mut Session, has_trees: bool, child: &ElemChild) {
    let mut tree = ElemChildren::new(session.alloc);
    session.check(push_copy(&mut tree, child));
    put_tree(session, has_trees, &tree);
}

fn push_copy(tree: &mut ElemChildren, child: &ElemChild) -> Result<(), AllocError> {
    tree.push(child.clone()?)
}

/// Writes what a tree prints, as an object.
fn put_tree(session: &mut Session, has_trees: bool, tree: &ElemChildren) {
    session.begin_object();
    put_text_of(session, has_trees, tree);
    session.end_object();
}
