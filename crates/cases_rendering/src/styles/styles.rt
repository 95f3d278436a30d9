//! Styles.

use crate::lists::{ListItem, list_of};
use crate::styles::given_locales::maybe_code;
use crate::styles::name_options::name_options;
use crate::styles::nodes::nodes_of;
use crate::styles::parts::{citation, maybe_bibliography};
use cases::{Refusal, Session, Value, member};
use csl_words::{CATEGORIES, CLASSES};
use rendering_style::{Macro, Style, StyleError, StyleParts};
use rendering_taxonomy::{PageRule, StyleClass};

/// How the texts of a page meet.
pub const PAGE_RULES: &[(&str, PageRule)] = &[
    ("as-written", PageRule::AsWritten),
    ("joined", PageRule::Joined),
];

/// A macro of a style.
impl ListItem for Macro {
    fn given(session: &mut Session, item: &Value<'_>) -> Macro {
        session.only(item, &["name", "nodes"]);
        Macro {
            name: session.owned_text(item, "name"),
            nodes: nodes_of(session, item, "nodes"),
        }
    }
}

/// The members of a style.
const MEMBERS: [&str; 9] = [
    "class",
    "categories",
    "default_locale",
    "page_rule",
    "name_options",
    "locales",
    "macros",
    "citation",
    "bibliography",
];

/// The style of a value; none where it is refused, and the answer then says why.
pub fn accepted(session: &mut Session, given: &Value<'_>) -> Option<Style> {
    session.only(given, &MEMBERS);
    let parts = StyleParts {
        class: session.word_or(given, "class", CLASSES, StyleClass::InText),
        categories: session.words(given, "categories", CATEGORIES),
        default_locale: maybe_code(session, given, "default_locale"),
        page_ranges: None,
        page_rule: session.word_or(given, "page_rule", PAGE_RULES, PageRule::AsWritten),
        name_options: name_options(session, given),
        locales: list_of(session, given, "locales"),
        macros: list_of(session, given, "macros"),
        bibliography: maybe_bibliography(session, given),
        citation: citation(session, given),
        citation_sort: Vec::new(session.alloc),
        bibliography_sort: Vec::new(session.alloc),
    };
    match Style::new(session.alloc, parts) {
        Ok(style) => Some(style),
        Err(error) => {
            put_style_error(session, error);
            None
        }
    }
}

/// The style of a case; none where it is refused, and the answer then says why.
pub fn style_of(session: &mut Session, case: &Value<'_>) -> Option<Style> {
    match member(case, "style") {
        Some(given) => accepted(session, given),
        None => {
            session.want("style", "a style");
            None
        }
    }
}

/// Writes why a style was refused.
fn put_style_error(session: &mut Session, error: StyleError) {
    match error {
        StyleError::Memory => session.refuse(Refusal::Memory),
        StyleError::MacroRing(name) => {
            session.put_refused("MacroRing");
            session.put_text("name", name.as_str());
        }
        StyleError::TooDeep => session.put_refused("TooDeep"),
    }
}

/// `style`: whether there is a style of these parts.
pub(crate) fn answer(session: &mut Session, case: &Value<'_>) {
    session.only(case, &["case", "name", "style"]);
    if style_of(session, case).is_some() {
        session.put_text("style", "accepted");
    }
}
