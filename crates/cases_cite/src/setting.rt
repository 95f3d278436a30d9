//! How the document of a case is cited: the style, the locale and the format.

use cases::{Session, Value, member};
use cases_literature::boxed;
use cases_rendering::{accepted, english_locale, maybe_locale};
use cite::{BufWriteFormat, Locale, Style, author_date, note, numeric};

/// A document, and how it is cited.
#[derive(Clone, Copy)]
pub(crate) struct CiteSetting<'s> {
    pub(crate) style: &'s Style,
    pub(crate) locale: &'s Locale,
    pub(crate) format: BufWriteFormat,
    /// The bib text with its entries.
    pub(crate) bib: &'s [u8],
    pub(crate) document: &'s [u8],
    /// The selectors of the sections of the bibliography.
    pub(crate) sections: &'s [&'s str],
}

/// The style of a case, by its word or as data, or the usual one where it is left out; none where it is refused, and the answer then says why.
pub fn style(session: &mut Session, case: &Value<'_>, usual: &'static str) -> Option<Box<Style>> {
    let Some(given) = member(case, "style") else {
        return style_named(session, usual);
    };
    match given.as_str() {
        Some(word) => style_named(session, word),
        None => match accepted(session, given) {
            Some(style) => boxed(session, style),
            None => None,
        },
    }
}

fn style_named(session: &mut Session, word: &str) -> Option<Box<Style>> {
    let made = match word {
        "numeric" => numeric(session.alloc),
        "author-date" => author_date(session.alloc),
        "note" => note(session.alloc),
        _ => {
            session.want("style", "numeric, author-date, note or a style");
            return None;
        }
    };
    match session.allocated(made) {
        Some(style) => boxed(session, style),
        None => None,
    }
}

/// The locale of English.
pub fn english(session: &mut Session) -> Option<Box<Locale>> {
    match english_locale(session) {
        Some(locale) => boxed(session, locale),
        None => None,
    }
}

/// The locale of a case; that of English where it is left out.
pub(crate) fn locale(session: &mut Session, case: &Value<'_>) -> Option<Box<Locale>> {
    let locale = match member(case, "locale") {
        Some(given) => maybe_locale(session, given, "locale"),
        None => english_locale(session),
    };
    match locale {
        Some(locale) => boxed(session, locale),
        None => None,
    }
}

/// The words of formats.
const FORMATS: &[(&str, BufWriteFormat)] = &[
    ("plain", BufWriteFormat::Plain),
    ("html", BufWriteFormat::Html),
];

pub(crate) fn format(session: &mut Session, case: &Value<'_>) -> BufWriteFormat {
    session.word_or(case, "format", FORMATS, BufWriteFormat::default())
}
