//! Locales of a case.

use crate::lists::ListItem;
use cases::{Session, Value};
use cite_styles::english;
use rendering_locale::Locale;

/// The locale of a value: that of English by its word, or a locale as data. No other word has one.
pub fn maybe_locale(
    session: &mut Session,
    given: &Value<'_>,
    name: &'static str,
) -> Option<Locale> {
    match given.as_str() {
        Some("english") => english_locale(session),
        Some(_) => {
            session.want(name, "a locale, or the word english");
            None
        }
        None => Some(Locale::given(session, given)),
    }
}

/// The locale of English; none where memory was refused.
pub fn english_locale(session: &mut Session) -> Option<Locale> {
    let made = english(session.alloc);
    session.allocated(made)
}

/// The files with locales; that of English alone where the case does not say them.
pub fn locale_files(session: &mut Session, case: &Value<'_>) -> Vec<Locale> {
    let mut files = Vec::new(session.alloc);
    let Some(items) = session.items(case, "locale_files") else {
        if let Some(locale) = english_locale(session) {
            session.push(&mut files, locale);
        }
        return files;
    };
    for item in items {
        if let Some(locale) = maybe_locale(session, item, "locale_files") {
            session.push(&mut files, locale);
        }
    }
    files
}
