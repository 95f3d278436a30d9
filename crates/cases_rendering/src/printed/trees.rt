//! Trees of what was printed, as a case gives them.

use crate::printed::metas::maybe_meta;
use crate::styles::formatting;
use cases::{Session, Value, member};
use csl_words::DISPLAYS;
use rendering_taxonomy::Formatting;
use rendering_tree::{Elem, ElemChild, ElemChildren, Formatted};

/// How deep elements may nest.
const DEPTH: u32 = 400;

/// A text of a member, with its formatting.
fn formatted(session: &mut Session, object: &Value<'_>, name: &'static str) -> Formatted {
    Formatted {
        text: session.owned_text(object, name),
        formatting: formatting(session, object),
    }
}

fn link(session: &mut Session, object: &Value<'_>) -> ElemChild {
    session.only(object, &["link", "url", "formatting"]);
    ElemChild::Link {
        text: formatted(session, object, "link"),
        url: session.owned_text(object, "url"),
    }
}

/// A locator of the caller's own.
fn transparent(session: &mut Session, object: &Value<'_>) -> ElemChild {
    session.only(object, &["transparent", "formatting"]);
    ElemChild::Transparent {
        cite_idx: session.count(object, "transparent"),
        format: formatting(session, object),
    }
}

/// A text that is an object.
fn text(session: &mut Session, object: &Value<'_>) -> ElemChild {
    session.only(object, &["text", "formatting"]);
    ElemChild::Text(formatted(session, object, "text"))
}

/// A formula.
fn markup(session: &mut Session, object: &Value<'_>) -> ElemChild {
    session.only(object, &["markup"]);
    ElemChild::Markup(session.owned_text(object, "markup"))
}

/// A child that is an object and no element.
fn leaf(session: &mut Session, object: &Value<'_>) -> ElemChild {
    if member(object, "text").is_some() {
        return text(session, object);
    }
    if member(object, "link").is_some() {
        return link(session, object);
    }
    if member(object, "markup").is_some() {
        return markup(session, object);
    }
    transparent(session, object)
}

/// A text that looks plain.
fn plain_text(session: &mut Session, text: &str) -> ElemChild {
    ElemChild::Text(Formatted {
        text: session.owned(text),
        formatting: Formatting::plain(),
    })
}

#[cycle(tree)]
fn child(session: &mut Session, given: &Value<'_>, depth: u32) -> ElemChild {
    if let Some(text) = given.as_str() {
        return plain_text(session, text);
    }
    if member(given, "elem").is_some() {
        return ElemChild::Elem(elem(session, given, depth));
    }
    leaf(session, given)
}

/// An element.
#[cycle(tree)]
fn elem(session: &mut Session, given: &Value<'_>, depth: u32) -> Elem {
    session.only(given, &["elem", "display", "meta"]);
    Elem {
        children: children(session, given, "elem", depth),
        display: session.maybe_word(given, "display", DISPLAYS),
        meta: maybe_meta(session, given),
    }
}

/// The children of a list, in which elements nest at most so deep.
#[cycle(tree)]
fn children(
    session: &mut Session,
    object: &Value<'_>,
    name: &'static str,
    depth: u32,
) -> ElemChildren {
    let mut children = ElemChildren::new(session.alloc);
    let Some(items) = session.items(object, name) else {
        session.want(name, "a list");
        return children;
    };
    if depth == 0 {
        session.want(name, "elements less deep in one another");
        return children;
    }
    for item in items {
        let child = child(session, item, depth - 1);
        session.push(&mut children.0, child);
    }
    children
}

/// The tree of a member.
pub(crate) fn tree(session: &mut Session, object: &Value<'_>, name: &'static str) -> ElemChildren {
    children(session, object, name, DEPTH)
}
