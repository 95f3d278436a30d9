//! The style and the entry of a case.

use crate::citations::{put_citation, put_item};
use crate::properties::properties_of;
use crate::sources::read_library;
use crate::writing::put_writing;
use cases::{Refusal, Session, Value};
use cases_rendering::{locale_files, maybe_code, named, put_unknown_name, style_of};
use literature::Entry;
use rendering::StyleContext;
use rendering_locale::Locale;
use rendering_style::Style;

/// What is asked of a style.
#[derive(Clone, Copy)]
pub(crate) enum Wanted {
    Citation,
    Item,
    Writing,
}

/// The members of a case, of whichever of these kinds it is.
const MEMBERS: [&str; 16] = [
    "case",
    "name",
    "bib",
    "entries",
    "message",
    "style",
    "entry",
    "locale",
    "locale_files",
    "term_locale",
    "properties",
    "purpose",
    "verdict",
    "effort",
    "bibliography",
    "steps",
];

/// `citation`, `item`, `writing`: what the style of a case gives of its entry.
pub(crate) fn answer(session: &mut Session, case: &Value<'_>, wanted: Wanted) {
    session.only(case, &MEMBERS);
    let Some(style) = style_of(session, case) else {
        return;
    };
    let files = locale_files(session, case);
    let Some((bibliography, library)) = read_library(session, case) else {
        return;
    };
    let name = session.text(case, "entry");
    match named(&bibliography, &library, name) {
        Some(entry) => put_by_style(session, case, wanted, &style, files.as_slice(), entry),
        None => put_unknown_name(session, name),
    }
}

/// Writes what a style gives of an entry in the language of the case, over these files.
fn put_by_style(
    session: &mut Session,
    case: &Value<'_>,
    wanted: Wanted,
    style: &Style,
    files: &[Locale],
    entry: &Entry,
) {
    let code = maybe_code(session, case, "locale");
    let asked = code.as_ref();
    match StyleContext::new(session.alloc, style, asked, files) {
        Ok(context) => put_wanted(session, case, wanted, &context, entry),
        Err(_) => session.refuse(Refusal::Memory),
    }
}

/// Writes what is asked of a style where that is known of the cite which the case says.
fn put_wanted(
    session: &mut Session,
    case: &Value<'_>,
    wanted: Wanted,
    context: &StyleContext<'_>,
    entry: &Entry,
) {
    let properties = properties_of(session, case, context, entry);
    let code = maybe_code(session, case, "term_locale");
    let code = code.as_ref();
    match wanted {
        Wanted::Citation => put_citation(session, case, context, entry, &properties, code),
        Wanted::Item => put_item(session, case, context, entry, &properties, code),
        Wanted::Writing => put_writing(session, case, context, entry, &properties, code),
    }
}
