//! Pages to which texts are appended, and their trees.

use crate::printed::dated::text_or_none;
use crate::printed::metas::maybe_meta;
use crate::printed::written_trees::put_tree;
use crate::styles::{PAGE_RULES, formatting};
use cases::{Session, Value, maybe_given, member};
use csl_words::{DISPLAYS, TEXT_CASES};
use literature::StringChunk;
use rendering_building::into_tree;
use rendering_page::{Frame, Manner, Page, plain_manner};
use rendering_taxonomy::PageRule;

/// How deep elements may nest.
const DEPTH: u32 = 400;

/// What things are appended with.
#[derive(Clone, Copy)]
struct PageSetting<'s, 'a> {
    /// The close quotes inside which punctuation goes.
    quotes: &'s [&'s str],
    /// The text in pieces of the case.
    chunks: &'a [StringChunk],
}

/// How the texts of a thing are appended.
pub(crate) fn manner(session: &mut Session, item: &Value<'_>) -> Manner {
    Manner {
        formatting: formatting(session, item),
        strips_periods: session.is_set(item, "strips_periods"),
        text_case: session.maybe_word(item, "text_case", TEXT_CASES),
        is_english: session.is_set(item, "english"),
    }
}

/// Appends an ordinary text, or a copy of it where that is asked for.
fn put_ordinary<'a>(
    session: &mut Session,
    setting: &PageSetting<'_, 'a>,
    page: &mut Page<'a>,
    item: &'a Value<'_>,
) {
    session.only(
        item,
        &[
            "text",
            "made",
            "formatting",
            "strips_periods",
            "text_case",
            "english",
        ],
    );
    let manner = manner(session, item);
    let text = session.text(item, "text");
    if session.is_set(item, "made") {
        let copy = session.owned(text);
        session.check(page.push_made(setting.quotes, manner, copy));
    } else {
        session.check(page.push_text(setting.quotes, manner, text));
    }
}

/// Appends a close quote.
fn put_quote<'a>(
    session: &mut Session,
    setting: &PageSetting<'_, 'a>,
    page: &mut Page<'a>,
    item: &'a Value<'_>,
) {
    session.only(
        item,
        &[
            "close_quote",
            "formatting",
            "strips_periods",
            "text_case",
            "english",
        ],
    );
    let manner = manner(session, item);
    let text = session.text(item, "close_quote");
    session.check(page.push_close_quote(setting.quotes, manner, text));
}

/// Appends a text as it is.
fn put_verbatim<'a>(session: &mut Session, page: &mut Page<'a>, item: &'a Value<'_>) {
    session.only(item, &["verbatim", "formatting"]);
    let formatting = formatting(session, item);
    let text = session.text(item, "verbatim");
    session.check(page.push_verbatim(formatting, text));
}

/// Appends a link.
fn put_link<'a>(session: &mut Session, page: &mut Page<'a>, item: &'a Value<'_>) {
    session.only(item, &["link", "url", "formatting"]);
    let formatting = formatting(session, item);
    let url = session.text(item, "url");
    let text = session.text(item, "link");
    session.check(page.push_link(formatting, text, url));
}

/// Appends a locator of the caller's own.
fn put_transparent<'a>(session: &mut Session, page: &mut Page<'a>, item: &'a Value<'_>) {
    session.only(item, &["transparent", "formatting"]);
    let formatting = formatting(session, item);
    let index = session.count(item, "transparent");
    session.check(page.push_transparent(formatting, index));
}

/// Appends the text in pieces of the case.
fn put_chunks<'a>(
    session: &mut Session,
    setting: &PageSetting<'_, 'a>,
    page: &mut Page<'a>,
    item: &'a Value<'_>,
) {
    session.only(
        item,
        &[
            "chunks",
            "formatting",
            "strips_periods",
            "text_case",
            "english",
        ],
    );
    let manner = manner(session, item);
    session.check(page.push_chunks(setting.quotes, manner, setting.chunks));
}

/// Appends a formula, or what ends in a space.
fn put_formula_or_space<'a>(session: &mut Session, page: &mut Page<'a>, item: &'a Value<'_>) {
    session.only(item, &["markup", "space"]);
    if session.is_set(item, "space") {
        session.check(page.ensure_space());
    } else {
        let text = session.text(item, "markup");
        session.check(page.push_markup(text));
    }
}

/// Appends what is no element.
fn put_leaf<'a>(
    session: &mut Session,
    setting: &PageSetting<'_, 'a>,
    page: &mut Page<'a>,
    item: &'a Value<'_>,
) {
    if member(item, "text").is_some() {
        put_ordinary(session, setting, page, item);
    } else if member(item, "verbatim").is_some() {
        put_verbatim(session, page, item);
    } else if member(item, "close_quote").is_some() {
        put_quote(session, setting, page, item);
    } else if member(item, "link").is_some() {
        put_link(session, page, item);
    } else if member(item, "transparent").is_some() {
        put_transparent(session, page, item);
    } else if member(item, "chunks").is_some() {
        put_chunks(session, setting, page, item);
    } else {
        put_formula_or_space(session, page, item);
    }
}

/// An element, which says not what it stands for.
fn frame<'a>(session: &mut Session, item: &'a Value<'_>) -> Frame<'a> {
    let display = session.maybe_word(item, "display", DISPLAYS);
    let manner = manner(session, item);
    let prefix = text_or_none(session, item, "prefix");
    let suffix = text_or_none(session, item, "suffix");
    Frame {
        display,
        meta: None,
        manner,
        prefix,
        suffix,
    }
}

/// Begins an element.
fn begin<'a>(session: &mut Session, page: &mut Page<'a>, item: &Value<'_>, frame: &Frame<'a>) {
    match maybe_meta(session, item) {
        Some(meta) => session.check(page.begin_element(frame, meta)),
        None => session.check(page.begin(frame)),
    }
}

/// Ends an element.
fn end<'a>(
    session: &mut Session,
    quotes: &[&str],
    page: &mut Page<'a>,
    item: &Value<'_>,
    frame: &Frame<'a>,
) {
    match member(item, "meta") {
        Some(_) => session.check(page.end_element(quotes, frame)),
        None => session.check(page.end(quotes, frame)),
    }
}

/// The members of an element.
const MEMBERS: [&str; 9] = [
    "elem",
    "display",
    "meta",
    "formatting",
    "strips_periods",
    "text_case",
    "english",
    "prefix",
    "suffix",
];

/// Appends an element.
#[cycle(page)]
fn put_elem<'a>(
    session: &mut Session,
    setting: &PageSetting<'_, 'a>,
    page: &mut Page<'a>,
    item: &'a Value<'_>,
    depth: u32,
) {
    session.only(item, &MEMBERS);
    let frame = frame(session, item);
    begin(session, page, item, &frame);
    put_all(session, setting, page, item, "elem", depth);
    end(session, setting.quotes, page, item, &frame);
}

/// Appends a thing: a text that looks plain, or what an object says.
#[cycle(page)]
fn put<'a>(
    session: &mut Session,
    setting: &PageSetting<'_, 'a>,
    page: &mut Page<'a>,
    item: &'a Value<'_>,
    depth: u32,
) {
    if let Value::String(text) = item {
        return session.check(page.push_text(setting.quotes, plain_manner(), text));
    }
    match member(item, "elem") {
        Some(_) => put_elem(session, setting, page, item, depth),
        None => put_leaf(session, setting, page, item),
    }
}

/// Appends the things of a list, in which elements nest at most so deep.
#[cycle(page)]
fn put_all<'a>(
    session: &mut Session,
    setting: &PageSetting<'_, 'a>,
    page: &mut Page<'a>,
    object: &'a Value<'_>,
    name: &'static str,
    depth: u32,
) {
    let Some(items) = session.items(object, name) else {
        return session.want(name, "a list");
    };
    if depth == 0 {
        return session.want(name, "elements less deep in one another");
    }
    for item in items {
        put(session, setting, page, item, depth - 1);
    }
}

/// Writes the characters of a page as the member `text`.
pub(crate) fn put_characters(session: &mut Session, page: &Page<'_>) {
    let mut characters = String::new(session.alloc);
    session.check(page.push_to(&mut characters));
    session.put_text("text", characters.as_str());
}

/// Writes whether a page shows the same characters as that of the member `other`, where there is one.
fn put_compared<'a>(
    session: &mut Session,
    setting: &PageSetting<'_, 'a>,
    case: &'a Value<'_>,
    page: &Page<'a>,
) {
    if member(case, "other").is_none() {
        return;
    }
    let mut other = Page::new(session.alloc);
    put_all(session, setting, &mut other, case, "other", DEPTH);
    session.put_bool("has_text_of_other", page.has_text_of(&other));
}

/// Writes the tree of a page as the member `tree`.
pub(crate) fn put_page_tree(session: &mut Session, page: Page<'_>) {
    if let Some(tree) = session.allocated(into_tree(page)) {
        put_tree(session, "tree", &tree);
    }
}

/// Writes what the page of a case shows, and its tree. Its texts are joined once all are appended, if its rule says so.
fn put_page<'a>(session: &mut Session, setting: &PageSetting<'_, 'a>, case: &'a Value<'_>) {
    let rule = session.word_or(case, "rule", PAGE_RULES, PageRule::AsWritten);
    let mut page = Page::with_rule(session.alloc, rule);
    put_all(session, setting, &mut page, case, "put", DEPTH);
    session.check(page.join(!setting.quotes.is_empty()));
    put_characters(session, &page);
    put_compared(session, setting, case, &page);
    put_page_tree(session, page);
}

/// `page`: what a page shows to which things were appended, and its tree.
pub(crate) fn answer(session: &mut Session, case: &Value<'_>) {
    session.only(
        case,
        &["case", "name", "rule", "quotes", "chunks", "put", "other"],
    );
    let quotes = session.texts(case, "quotes");
    let chunks: Option<Vec<StringChunk>> = maybe_given(session, case, "chunks");
    let chunks = chunks.unwrap_or(Vec::new(session.alloc));
    let setting = PageSetting {
        quotes: quotes.as_slice(),
        chunks: chunks.as_slice(),
    };
    put_page(session, &setting, case);
}
