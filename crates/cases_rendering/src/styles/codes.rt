//! Codes of languages.

use crate::styles::given_locales::maybe_code;
use cases::{Session, Value};
use rendering_locale::{LocaleCode, language};

/// Writes a code, its base language, and the code that stands for its language, or null.
fn put_code(session: &mut Session, code: &LocaleCode) {
    session.put_text("code", code.0.as_str());
    session.put_text("base", code.parse_base());
    session.key("fallback");
    let fallback = code.fallback(session.alloc);
    match session.allocated(fallback) {
        Some(Some(code)) => session.string(code.0.as_str()),
        _ => session.null(),
    }
}

/// Writes the code of `LocaleCode::en_us` with its base language and its fallback, or null.
fn put_own_code(session: &mut Session) {
    let code = LocaleCode::en_us(session.alloc);
    if let Some(code) = session.allocated(code) {
        put_code(session, &code);
    }
}

/// `locale_code`: the base language of a code, and the code that stands for its language; that of English where it is left out.
pub(crate) fn answer_code(session: &mut Session, case: &Value<'_>) {
    session.only(case, &["case", "name", "code"]);
    match maybe_code(session, case, "code") {
        Some(code) => put_code(session, &code),
        None => put_own_code(session),
    }
}

/// `language`: the language that is wanted of the one asked for and the style's own.
pub(crate) fn answer_language(session: &mut Session, case: &Value<'_>) {
    session.only(case, &["case", "name", "asked", "own"]);
    let asked = maybe_code(session, case, "asked");
    let own = maybe_code(session, case, "own");
    session.put_text("language", language(asked.as_ref(), own.as_ref()));
}
