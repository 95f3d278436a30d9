//! Numbers as texts.

use crate::styles::{NUMBER_FORMS, maybe_ordinals};
use cases::{Refusal, Session, Value, given, member};
use literature::{MaybeTyped, Numeric};
use rendering_locale::Ordinals;
use rendering_numbers::{push_number, push_numeral_or_text, push_year_suffix, write_year};
use rendering_taxonomy::NumberForm;

/// `write_year`: a year, by the terms for the eras.
pub(crate) fn answer_year(session: &mut Session, case: &Value<'_>) {
    session.only(case, &["case", "name", "year", "short", "ad", "bc"]);
    let year = session.small_number(case, "year");
    let short = session.is_set(case, "short");
    let ad = session.text(case, "ad");
    let bc = session.text(case, "bc");
    let mut written = String::new(session.alloc);
    match write_year(year, short, &mut written, ad, bc) {
        Ok(()) => session.put_text("text", written.as_str()),
        Err(_) => session.refuse(Refusal::Memory),
    }
}

/// `suffix_letters`: the year suffix of an index from zero.
pub(crate) fn answer_year_suffix(session: &mut Session, case: &Value<'_>) {
    session.only(case, &["case", "name", "place"]);
    let Ok(index) = u16::try_from(session.number(case, "place")) else {
        return session.want("place", "an integer from 0 of 16 bits");
    };
    let mut written = String::new(session.alloc);
    session.check(push_year_suffix(&mut written, index));
    session.put_text("text", written.as_str());
}

/// Writes what is written of the number of a case in the form.
fn put_number(session: &mut Session, case: &Value<'_>, form: NumberForm, ordinals: &Ordinals) {
    let number = session.small_number(case, "number");
    let mut written = String::new(session.alloc);
    session.check(push_number(&mut written, ordinals, form, number));
    session.put_text("text", written.as_str());
}

/// Writes what is written of the number with letters, or of the text instead of it, of a case in the form.
fn put_numeral(session: &mut Session, case: &Value<'_>, form: NumberForm, ordinals: &Ordinals) {
    let numeral: MaybeTyped<Numeric> = given(session, case, "numeral");
    let mut written = String::new(session.alloc);
    session.check(push_numeral_or_text(&mut written, ordinals, form, &numeral));
    session.put_text("text", written.as_str());
}

/// The endings of ordinal numbers that a case gives; without any, numbers have no ending.
fn ordinals_of(session: &mut Session, case: &Value<'_>) -> Ordinals {
    match maybe_ordinals(session, case) {
        Some(ordinals) => ordinals,
        None => Ordinals {
            endings: Vec::new(session.alloc),
            default: String::new(session.alloc),
        },
    }
}

/// `write_number`: a number, or one with letters, or the text instead of it, in a form.
pub(crate) fn answer_number(session: &mut Session, case: &Value<'_>) {
    session.only(
        case,
        &["case", "name", "number", "numeral", "form", "ordinals"],
    );
    let ordinals = ordinals_of(session, case);
    let form = session.word_or(case, "form", NUMBER_FORMS, NumberForm::Numeric);
    match member(case, "numeral") {
        Some(_) => put_numeral(session, case, form, &ordinals),
        None => put_number(session, case, form, &ordinals),
    }
}
