//! Cases of styles and locales; styles, locales and their words as values of cases.

mod asking;
mod codes;
mod conditions;
mod date_words;
mod dates;
mod given_locales;
mod leaves;
mod looks;
mod members;
mod name_options;
mod names;
mod nodes;
mod parts;
mod styles;
mod terms;
mod variables;

use cases::{Session, Value};
pub use given_locales::{maybe_code, maybe_ordinals};
pub use leaves::NUMBER_FORMS;
pub use looks::{formatting, is_plain, put_formatting};
pub use styles::{PAGE_RULES, accepted, style_of};
pub use terms::{form_of, locator, locator_word};
pub use variables::variable_of;

/// Writes the members of the answer to a case of this kind; false where the kind is none of these.
pub fn answer(session: &mut Session, kind: &str, case: &Value<'_>) -> bool {
    match kind {
        "style" => styles::answer(session, case),
        "locale_code" => codes::answer_code(session, case),
        "language" => codes::answer_language(session, case),
        "asked_locales" => asking::answer(session, case),
        _ => return false,
    }
    true
}
