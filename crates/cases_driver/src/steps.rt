//! The steps of a caller who prints by itself.

use crate::nodes::{ask, put_name_options, render};
use cases::{Refusal, Session, Value};
use literature::Entry;
use rendering_writing::Context;
use std::fmt::Write;

/// Takes the steps of a case in their order, and writes what is asked on the way as the member `asked`.
pub(crate) fn take_all<'c>(
    session: &mut Session,
    case: &'c Value<'_>,
    context: &mut Context<'_, '_, 'c, Entry>,
) {
    session.begin_list("asked");
    if let Some(steps) = session.items(case, "steps") {
        for step in steps {
            session.only(step, &["step", "text", "url", "place", "of", "node"]);
            take(session, step, context);
        }
    }
    session.end_array();
}

/// Takes a step: nodes of the style, or else what is appended beside them.
fn take<'c>(session: &mut Session, step: &'c Value<'_>, context: &mut Context<'_, '_, 'c, Entry>) {
    match session.text(step, "step") {
        "render" => render(session, step, context),
        "ask" => ask(session, step, context),
        "options" => put_name_options(session, step, context),
        "options-back" => context.writing.pop_name_options(),
        word => append_beside(session, word, step, context),
    }
}

/// Appends something beside nodes: a space, a text, a text by `fmt::Write`, the title of the entry if it has one, a link or a locator.
fn append_beside<'c>(
    session: &mut Session,
    word: &str,
    step: &'c Value<'_>,
    context: &mut Context<'_, '_, 'c, Entry>,
) {
    match word {
        "space" => session.check(context.ensure_space()),
        "text" => {
            let text = session.text(step, "text");
            session.check(context.push_str(text));
        }
        "write" => {
            let text = session.text(step, "text");
            if context.write_str(text).is_err() {
                session.refuse(Refusal::Memory);
            }
        }
        "title" => {
            if let Some(title) = context.entry.title() {
                session.check(context.push_chunked(&title.value));
            }
        }
        "link" => {
            let text = session.text(step, "text");
            let url = session.text(step, "url");
            session.check(context.push_link(text, url));
        }
        "locator" => {
            let index = session.count(step, "place");
            session.check(context.push_transparent(index));
        }
        _ => session.want("step", "the word of a step"),
    }
}
