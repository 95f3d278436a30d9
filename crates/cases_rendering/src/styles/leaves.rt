//! Nodes without nodes in them.

use crate::lists::list_of;
use crate::styles::looks::look;
use crate::styles::names::label_look;
use crate::styles::terms::{form_of, term_of};
use crate::styles::variables::{date_of, numbered_of, printed_of};
use cases::{Session, Value, member};
use csl_words::{DATE_FORMS, DATE_PARTS, TERM_FORMS};
use rendering_style::{Date, Label, Node, Number, Text, TextLook, TextTarget};
use rendering_taxonomy::{DateParts, NumberForm, TermForm};

/// Forms of numbers.
pub const NUMBER_FORMS: &[(&str, NumberForm)] = &[
    ("numeric", NumberForm::Numeric),
    ("ordinal", NumberForm::Ordinal),
    ("roman", NumberForm::Roman),
];

/// The members that may say what a text node prints.
const TARGETS: &[&str] = &["variable", "macro", "term", "value"];

/// The one member that says what a text node prints; empty where there is not just one.
fn named(node: &Value<'_>) -> &'static str {
    let mut named = "";
    for name in TARGETS {
        if member(node, *name).is_some() {
            if !named.is_empty() {
                return "";
            }
            named = *name;
        }
    }
    named
}

/// A term in its form.
fn term_target(session: &mut Session, node: &Value<'_>) -> TextTarget {
    let form = session.word_or(node, "form", TERM_FORMS, TermForm::Long);
    let term = term_of(session, node, "term");
    TextTarget::Term(term, form, session.is_set(node, "plural"))
}

/// What a text node prints: that of the one member that says it.
fn target(session: &mut Session, node: &Value<'_>) -> TextTarget {
    match named(node) {
        "variable" => {
            let form = form_of(session, node);
            TextTarget::Variable(printed_of(session, node), form)
        }
        "macro" => TextTarget::Macro(session.owned_text(node, "macro")),
        "term" => term_target(session, node),
        "value" => TextTarget::Value(session.owned_text(node, "value")),
        _ => {
            session.want("a text", "of a variable, macro, term or value");
            TextTarget::Value(String::new(session.alloc))
        }
    }
}

/// The members of a text node.
const TEXT_MEMBERS: [&str; 13] = [
    "node",
    "variable",
    "macro",
    "term",
    "value",
    "form",
    "plural",
    "quotes",
    "strip_periods",
    "formatting",
    "prefix",
    "suffix",
    "display",
];

fn text(session: &mut Session, node: &Value<'_>) -> Text {
    session.only(node, &TEXT_MEMBERS);
    Text {
        target: target(session, node),
        look: TextLook {
            look: look(session, node),
            quotes: session.is_set(node, "quotes"),
            strip_periods: session.is_set(node, "strip_periods"),
            text_case: None,
        },
    }
}

/// The members of a number node.
const NUMBER_MEMBERS: [&str; 7] = [
    "node",
    "variable",
    "form",
    "formatting",
    "prefix",
    "suffix",
    "display",
];

/// The answer to a number or page variable.
fn number(session: &mut Session, node: &Value<'_>) -> Number {
    session.only(node, &NUMBER_MEMBERS);
    Number {
        variable: numbered_of(session, node),
        form: session.word_or(node, "form", NUMBER_FORMS, NumberForm::Numeric),
        text_case: None,
        look: look(session, node),
    }
}

/// The members of a label node.
const LABEL_MEMBERS: [&str; 8] = [
    "node",
    "variable",
    "form",
    "plural",
    "strip_periods",
    "formatting",
    "prefix",
    "suffix",
];

/// The term of a variable.
fn label(session: &mut Session, node: &Value<'_>) -> Label {
    session.only(node, &LABEL_MEMBERS);
    Label {
        variable: numbered_of(session, node),
        label: label_look(session, node),
    }
}

/// The members of a date node.
const DATE_MEMBERS: [&str; 12] = [
    "node",
    "variable",
    "form",
    "parts",
    "date_parts",
    "part_changes",
    "delimiter",
    "merges_ranges",
    "formatting",
    "prefix",
    "suffix",
    "display",
];

/// The answer to a date variable.
fn date(session: &mut Session, node: &Value<'_>) -> Date {
    session.only(node, &DATE_MEMBERS);
    Date {
        variable: date_of(session, node),
        form: session.maybe_word(node, "form", DATE_FORMS),
        parts: session.word_or(node, "parts", DATE_PARTS, DateParts::YearMonthDay),
        own_parts: list_of(session, node, "date_parts"),
        part_changes: list_of(session, node, "part_changes"),
        delimiter: session.maybe_owned_text(node, "delimiter"),
        text_case: None,
        merges_ranges: session.is_set(node, "merges_ranges"),
        look: look(session, node),
    }
}

/// A node of this kind, which has no nodes in it.
pub(crate) fn leaf(session: &mut Session, node: &Value<'_>, kind: &str) -> Node {
    match kind {
        "number" => Node::Number(number(session, node)),
        "label" => Node::Label(label(session, node)),
        "date" => Node::Date(date(session, node)),
        _ => {
            if kind != "text" {
                session.want("node", "a kind of nodes");
            }
            Node::Text(text(session, node))
        }
    }
}
