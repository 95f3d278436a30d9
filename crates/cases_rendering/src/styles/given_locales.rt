//! Locales.

use crate::lists::{ListItem, list_of};
use crate::styles::terms::term_of;
use cases::{Session, Value, member};
use csl_words::{DATE_FORMS, TERM_FORMS};
use rendering_locale::{
    Locale, LocaleCode, LocalizedDate, LocalizedTerm, OrdinalEnding, Ordinals, Terms,
};
use rendering_taxonomy::{DateForm, TermForm};

/// The code of a member that may be left out.
pub fn maybe_code(
    session: &mut Session,
    object: &Value<'_>,
    name: &'static str,
) -> Option<LocaleCode> {
    match session.maybe_owned_text(object, name) {
        Some(text) => Some(LocaleCode(text)),
        None => None,
    }
}

/// A term in a form. Its text is that for one and for more than one.
impl ListItem for LocalizedTerm {
    fn given(session: &mut Session, item: &Value<'_>) -> LocalizedTerm {
        session.only(item, &["name", "form", "text", "single", "multiple"]);
        let (single, multiple) = match member(item, "text") {
            Some(_) => ("text", "text"),
            None => ("single", "multiple"),
        };
        LocalizedTerm {
            name: term_of(session, item, "name"),
            form: session.word_or(item, "form", TERM_FORMS, TermForm::Long),
            single: session.maybe_owned_text(item, single),
            multiple: session.maybe_owned_text(item, multiple),
            gender: None,
        }
    }
}

/// The terms of a locale.
fn terms(session: &mut Session, given: &Value<'_>) -> Terms {
    let listed: Vec<LocalizedTerm> = list_of(session, given, "terms");
    let terms = Terms::new(session.alloc, listed);
    match session.allocated(terms) {
        Some(terms) => terms,
        None => Terms::empty(session.alloc),
    }
}

/// A form of dates.
impl ListItem for LocalizedDate {
    fn given(session: &mut Session, item: &Value<'_>) -> LocalizedDate {
        session.only(item, &["form", "date_parts", "delimiter"]);
        let form = session.maybe_word(item, "form", DATE_FORMS);
        LocalizedDate {
            form: session.required(form, "form", "text or numeric", DateForm::Text),
            parts: list_of(session, item, "date_parts"),
            delimiter: session.text_or_empty(item, "delimiter"),
        }
    }
}

/// A number and its ending.
fn pair<'v>(given: &'v Value<'_>) -> Option<(u8, &'v str)> {
    let Value::Array(ends) = given else {
        return None;
    };
    let [number, ending] = ends.as_slice() else {
        return None;
    };
    let number = u8::try_from(number.as_i64()?).ok()?;
    Some((number, ending.as_str()?))
}

/// An ending of ordinal numbers.
impl ListItem for OrdinalEnding {
    fn given(session: &mut Session, item: &Value<'_>) -> OrdinalEnding {
        let what = "a list of pairs as [1,\"st\"]";
        let (number, ending) = session.required(pair(item), "endings", what, (0, ""));
        OrdinalEnding {
            number,
            ending: session.owned(ending),
            gender: None,
            only: None,
        }
    }
}

/// The endings of the member `ordinals`, which may be left out, and that of all other numbers.
pub fn maybe_ordinals(session: &mut Session, object: &Value<'_>) -> Option<Ordinals> {
    let Some(given) = member(object, "ordinals") else {
        return None;
    };
    session.only(given, &["endings", "default"]);
    Some(Ordinals {
        endings: list_of(session, given, "endings"),
        default: session.text_or_empty(given, "default"),
    })
}

/// A locale.
impl ListItem for Locale {
    fn given(session: &mut Session, item: &Value<'_>) -> Locale {
        session.only(
            item,
            &["lang", "terms", "dates", "ordinals", "punctuation_in_quote"],
        );
        Locale {
            lang: maybe_code(session, item, "lang"),
            terms: terms(session, item),
            dates: list_of(session, item, "dates"),
            ordinals: maybe_ordinals(session, item),
            punctuation_in_quote: session.maybe_bool(item, "punctuation_in_quote"),
            limit_day_ordinals_to_day_1: None,
        }
    }
}
