//! Nodes of a style that are appended or asked.

use cases::{Session, Value, member};
use literature::Entry;
use rendering::{Layout, NameOptions, Node, StyleParts, Survey};
use rendering_writing::{Context, RenderCsl};
use std::alloc::AllocError;

/// Appends the layout that a step names, or one of its nodes.
pub(crate) fn render<'c>(
    session: &mut Session,
    step: &Value<'_>,
    context: &mut Context<'_, '_, 'c, Entry>,
) {
    let Some(layout) = layout_of(session, step, context.walk.style.parts()) else {
        return;
    };
    if member(step, "node").is_none() {
        return session.check(layout.render(context));
    }
    if let Some(node) = node_of(session, step, layout) {
        session.check(node.render(context));
    }
}

/// Writes what is asked of the layout that a step names, or of one of its nodes.
pub(crate) fn ask<'c>(
    session: &mut Session,
    step: &Value<'_>,
    context: &Context<'_, '_, 'c, Entry>,
) {
    let Some(layout) = layout_of(session, step, context.walk.style.parts()) else {
        return;
    };
    if member(step, "node").is_none() {
        return put_asked(session, asked(layout, context));
    }
    if let Some(node) = node_of(session, step, layout) {
        put_asked(session, asked(node, context));
    }
}

/// From now on the options for names count that the citations or the bibliography of the style have.
pub(crate) fn put_name_options<'c>(
    session: &mut Session,
    step: &Value<'_>,
    context: &mut Context<'_, '_, 'c, Entry>,
) {
    if let Some(options) = options_of(session, step, context.walk.style.parts()) {
        session.check(context.writing.push_name_options(options));
    }
}

/// What is asked of nodes, and whether they print anything.
fn asked<'c, R: RenderCsl>(
    nodes: &'c R,
    context: &Context<'_, '_, 'c, Entry>,
) -> Result<(Survey, bool), AllocError> {
    let survey = nodes.will_have_info(context)?;
    Ok((survey, nodes.will_render(context)?))
}

/// Writes what was asked, as an object.
fn put_asked(session: &mut Session, asked: Result<(Survey, bool), AllocError>) {
    let Some((survey, renders)) = session.allocated(asked) else {
        return;
    };
    session.begin_object();
    session.put_bool("is_admitted", survey.is_admitted);
    session.put_bool("calls", survey.calls);
    session.put_bool("is_answered", survey.is_answered);
    session.put_bool("met", survey.met);
    session.put_bool("will_render", renders);
    session.end_object();
}

/// The layout that a step names.
fn layout_of<'s>(
    session: &mut Session,
    step: &Value<'_>,
    style: &'s StyleParts,
) -> Option<&'s Layout> {
    match (session.text(step, "of"), &style.bibliography) {
        ("citation", _) => Some(&style.citation.layout),
        ("bibliography", Some(bibliography)) => Some(&bibliography.layout),
        _ => {
            want_part(session);
            None
        }
    }
}

/// The options for names that a step names.
fn options_of<'s>(
    session: &mut Session,
    step: &Value<'_>,
    style: &'s StyleParts,
) -> Option<&'s NameOptions> {
    match (session.text(step, "of"), &style.bibliography) {
        ("style", _) => Some(&style.name_options),
        ("citation", _) => Some(&style.citation.name_options),
        ("bibliography", Some(bibliography)) => Some(&bibliography.name_options),
        _ => {
            want_part(session);
            None
        }
    }
}

/// Refuses a step where the style has no part of that name.
fn want_part(session: &mut Session) {
    session.want("of", "the word of a part that the style has");
}

/// The node of a layout at the index of a step.
fn node_of<'s>(session: &mut Session, step: &Value<'_>, layout: &'s Layout) -> Option<&'s Node> {
    let node = layout.nodes.get(session.count(step, "node"));
    if node.is_none() {
        session.want("node", "the place of a node of the layout");
    }
    node
}
