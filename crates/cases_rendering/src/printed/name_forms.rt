//! Forms of names that disambiguate cites.

use cases::{Session, Value, word_of};
use rendering_taxonomy::DisambiguatedNameForm;

/// The words of forms of names.
pub const NAME_FORMS: &[(&str, DisambiguatedNameForm)] = &[
    ("count", DisambiguatedNameForm::Count),
    ("short-initialized", DisambiguatedNameForm::ShortInitialized),
    ("short-full", DisambiguatedNameForm::ShortFull),
    ("long-initialized", DisambiguatedNameForm::LongInitialized),
    ("long-full", DisambiguatedNameForm::LongFull),
];

/// `name_form`: whether a form of names prints given names, and the next form that prints more of them, or null.
pub(crate) fn answer(session: &mut Session, case: &Value<'_>) {
    session.only(case, &["case", "name", "form", "full"]);
    let form = session.maybe_word(case, "form", NAME_FORMS);
    let form = session.required(
        form,
        "form",
        "a form of names",
        DisambiguatedNameForm::Count,
    );
    let full = session.is_set(case, "full");
    session.put_bool("is_long", form.is_long());
    session.key("disambiguated");
    match form.disambiguate(full) {
        Some(next) => session.string(word_of(NAME_FORMS, next)),
        None => session.null(),
    }
}
