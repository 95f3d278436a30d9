//! Dates as styles print them.

use crate::lists::list_of;
use crate::printed::pages::{manner, put_characters, put_page_tree};
use cases::{Refusal, Session, Value, given};
use csl_words::DATE_PARTS;
use literature::Date;
use rendering_dates::{DateShape, DateStyle, push_years};
use rendering_locale::{AskedLocales, DatePart, Locale};
use rendering_page::Page;
use rendering_style::DatePartChange;
use rendering_taxonomy::DateParts;

/// The text of a member; one that is left out is empty.
pub(crate) fn text_or_none<'v>(
    session: &mut Session,
    case: &'v Value<'_>,
    name: &'static str,
) -> &'v str {
    match session.maybe_text(case, name) {
        Some(text) => text,
        None => "",
    }
}

/// The parts that a case prints, and what stands between them.
fn shape<'a>(
    session: &mut Session,
    case: &'a Value<'_>,
    parts: &'a [DatePart],
    changes: &'a [DatePartChange],
) -> DateShape<'a> {
    let cut = session.word_or(case, "parts", DATE_PARTS, DateParts::YearMonthDay);
    let delimiter = text_or_none(session, case, "delimiter");
    let merges_ranges = session.is_set(case, "merges_ranges");
    DateShape {
        parts,
        changes,
        cut,
        delimiter,
        merges_ranges,
    }
}

/// Writes what a page shows to which the date of a case was appended by these locales and in this shape, with the close quotes of the
/// case; its tree; and the years of the date as the member `years`.
fn put_dated<'s, 'a>(
    session: &mut Session,
    case: &'a Value<'_>,
    quotes: &'s [&'s str],
    locales: &'s AskedLocales<'a>,
    shape: DateShape<'a>,
) {
    let manner = manner(session, case);
    let style = DateStyle {
        alloc: session.alloc,
        quotes,
        locales,
        manner,
        shape,
    };
    let year_suffix = text_or_none(session, case, "letters");
    let date: Date = given(session, case, "date");
    let mut page = Page::new(session.alloc);
    session.check(style.push_date(&mut page, year_suffix, &date));
    put_characters(session, &page);
    put_page_tree(session, page);
    let mut years = String::new(session.alloc);
    session.check(push_years(&mut years, locales, &date));
    session.put_text("years", years.as_str());
}

/// Writes how the date of a case is printed by these locales and in this shape, with the close quotes of the case.
fn put_asked<'a>(
    session: &mut Session,
    case: &'a Value<'_>,
    own: &'a [Locale],
    files: &'a [Locale],
    shape: DateShape<'a>,
) {
    let quotes = session.texts(case, "quotes");
    let code = session.text(case, "code");
    match AskedLocales::new(session.alloc, code, own, files) {
        Ok(asked) => put_dated(session, case, quotes.as_slice(), &asked, shape),
        Err(_) => session.refuse(Refusal::Memory),
    }
}

/// Writes how the date of a case is printed by these locales.
fn put_listed(session: &mut Session, case: &Value<'_>, own: &[Locale], files: &[Locale]) {
    let parts: Vec<DatePart> = list_of(session, case, "date_parts");
    let changes: Vec<DatePartChange> = list_of(session, case, "part_changes");
    let shape = shape(session, case, parts.as_slice(), changes.as_slice());
    put_asked(session, case, own, files, shape);
}

/// The members of a case.
const MEMBERS: [&str; 17] = [
    "case",
    "name",
    "date",
    "date_parts",
    "part_changes",
    "parts",
    "delimiter",
    "merges_ranges",
    "letters",
    "formatting",
    "strips_periods",
    "text_case",
    "english",
    "quotes",
    "code",
    "own",
    "files",
];

/// `date`: what a page shows to which a date was appended, its tree, and the years of the date.
pub(crate) fn answer(session: &mut Session, case: &Value<'_>) {
    session.only(case, &MEMBERS);
    let own: Vec<Locale> = list_of(session, case, "own");
    let files: Vec<Locale> = list_of(session, case, "files");
    put_listed(session, case, own.as_slice(), files.as_slice());
}
