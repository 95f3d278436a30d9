//! What locales answer to requests for words, dates and endings.

use crate::lists::list_of;
use crate::styles::terms::term_of;
use cases::{Session, Value};
use csl_words::{DATE_FORMS, TERM_FORMS};
use rendering_locale::{AskedLocales, Locale};
use rendering_taxonomy::{DateForm, OtherTerm, TermForm};

/// Writes the text of the term of a case as the member of the name: as `term` null where there is none, else empty.
fn put_term(session: &mut Session, asked: &AskedLocales<'_>, case: &Value<'_>, name: &str) {
    let term = term_of(session, case, "term");
    let form = session.word_or(case, "form", TERM_FORMS, TermForm::Long);
    let plural = session.is_set(case, "plural");
    session.key(name);
    match name {
        "term" => session.string_or_null(asked.term(term, form, plural)),
        _ => session.string(asked.term_text(term, form, plural)),
    }
}

/// Writes the open quote and the close quotes.
fn put_quotes(session: &mut Session, asked: &AskedLocales<'_>) {
    session.put_text("open_quote", asked.quote_text(OtherTerm::OpenQuote));
    session.begin_list("close_quotes");
    let quotes = asked.close_quotes(session.alloc);
    if let Some(quotes) = session.allocated(quotes) {
        for quote in &quotes {
            session.string(*quote);
        }
    }
    session.end_array();
}

/// Writes the member of the name. As `date` that is the text between the parts of the dates of a form, and as `ordinals` the ending of
/// numbers that have none of their own, or null where no locale has such dates or endings.
fn put(session: &mut Session, asked: &AskedLocales<'_>, case: &Value<'_>, name: &str) {
    match name {
        "date" => {
            let form = session.word_or(case, "date_form", DATE_FORMS, DateForm::Text);
            session.key(name);
            match asked.date(form) {
                Some(date) => session.string(date.delimiter.as_str()),
                None => session.null(),
            }
        }
        "ordinals" => {
            session.key(name);
            match asked.ordinals() {
                Some(ordinals) => session.string(ordinals.default.as_str()),
                None => session.null(),
            }
        }
        "punctuates_in_quotes" => session.put_bool(name, asked.punctuates_in_quotes()),
        "quotes" => put_quotes(session, asked),
        _ => put_term(session, asked, case, name),
    }
}

/// What may be shown of asked locales.
const SHOWN: &[&str] = &[
    "term",
    "term_text",
    "date",
    "ordinals",
    "punctuates_in_quotes",
    "quotes",
];

/// Writes what is shown of asked locales.
fn put_shown(session: &mut Session, asked: &AskedLocales<'_>, case: &Value<'_>) {
    for name in SHOWN {
        if session.is_shown(case, *name, *name == "term") {
            put(session, asked, case, *name);
        }
    }
}

/// The members of a case.
const MEMBERS: [&str; 10] = [
    "case",
    "name",
    "code",
    "own",
    "files",
    "term",
    "form",
    "plural",
    "date_form",
    "show",
];

/// `asked_locales`: what a style's own locales and the locales of files answer to requests for a code.
pub(crate) fn answer(session: &mut Session, case: &Value<'_>) {
    session.only(case, &MEMBERS);
    session.only_shown(case, SHOWN);
    let own: Vec<Locale> = list_of(session, case, "own");
    let files: Vec<Locale> = list_of(session, case, "files");
    let code = session.text(case, "code");
    let asked = AskedLocales::new(session.alloc, code, own.as_slice(), files.as_slice());
    if let Some(asked) = session.allocated(asked) {
        put_shown(session, &asked, case);
    }
}
