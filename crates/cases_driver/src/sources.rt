//! What a document cites from: styles, files with locales, and the entries of a file.

use biblatex::Bibliography;
use cases::{Session, Value};
use cases_rendering::{accepted, bibliography_of, bridged, maybe_code, named, put_unknown_name};
use literature::{Entry, Library};
use rendering_locale::{Locale, LocaleCode};
use rendering_style::Style;

/// The entries of a file, by the names that it has for them.
#[derive(Clone, Copy)]
pub(crate) struct Entries<'s> {
    pub(crate) bibliography: &'s Bibliography,
    pub(crate) library: &'s Library,
}

impl<'s> Entries<'s> {
    /// The entry that a name means; where it means none, the answer says so.
    pub(crate) fn entry(self, session: &mut Session, name: &str) -> Option<&'s Entry> {
        let entry = named(self.bibliography, self.library, name);
        if entry.is_none() {
            put_unknown_name(session, name);
        }
        entry
    }
}

/// The entries of a case, and the library that they come to; none where either is refused, and the answer then says why.
pub(crate) fn read_library(
    session: &mut Session,
    case: &Value<'_>,
) -> Option<(Bibliography, Library)> {
    let bibliography = bibliography_of(session, case)?;
    let library = bridged(session, case, &bibliography)?;
    Some((bibliography, library))
}

/// What a document cites from.
#[derive(Clone, Copy)]
pub(crate) struct Sources<'s> {
    pub(crate) styles: &'s [Style],
    pub(crate) files: &'s [Locale],
    pub(crate) entries: Entries<'s>,
}

/// The style of a request: the first one of the styles, where it names none.
pub(crate) fn style_in<'s>(
    session: &mut Session,
    given: &Value<'_>,
    styles: &'s [Style],
) -> Option<&'s Style> {
    let style = styles.get(session.index_or_zero(given, "style"));
    if style.is_none() {
        session.want("style", "the place of a style");
    }
    style
}

/// The styles of a list in their order; none where one of them is refused, and the answer then says why.
pub(crate) fn read_styles(session: &mut Session, given: &[Value<'_>]) -> Option<Vec<Style>> {
    let mut styles = Vec::new(session.alloc);
    for item in given {
        let Some(style) = accepted(session, item) else {
            return None;
        };
        session.push(&mut styles, style);
    }
    Some(styles)
}

/// The language that a request asks for, or else that of the case.
pub(crate) fn language(
    session: &mut Session,
    case: &Value<'_>,
    given: &Value<'_>,
) -> Option<LocaleCode> {
    match maybe_code(session, given, "locale") {
        Some(code) => Some(code),
        None => maybe_code(session, case, "locale"),
    }
}
