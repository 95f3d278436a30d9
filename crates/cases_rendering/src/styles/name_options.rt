//! What is specified for names.

use crate::styles::members::maybe_count;
use cases::{Session, Value, member};
use csl_words::{ANDS, DELIMITERS, NAME_FORMS, SORT_ORDERS};
use rendering_style::NameOptions;

/// The members of options of names, and of a name, whose options stand beside them.
pub(crate) const NAME_MEMBERS: [&str; 19] = [
    "and",
    "delimiter",
    "delimiter_precedes_last",
    "et_al_min",
    "et_al_use_first",
    "et_al_subsequent_min",
    "et_al_subsequent_use_first",
    "et_al_use_last",
    "form",
    "initialize_with",
    "name_as_sort_order",
    "sort_separator",
    "demote",
    "delimiter_precedes_et_al",
    "initialize_with_hyphen",
    "names_delimiter",
    "formatting",
    "prefix",
    "suffix",
];

/// The options that the object has.
pub(crate) fn options(session: &mut Session, given: &Value<'_>) -> NameOptions {
    NameOptions {
        and: session.maybe_word(given, "and", ANDS),
        delimiter: session.maybe_owned_text(given, "delimiter"),
        delimiter_precedes_last: session.maybe_word(given, "delimiter_precedes_last", DELIMITERS),
        et_al_min: maybe_count(session, given, "et_al_min"),
        et_al_use_first: maybe_count(session, given, "et_al_use_first"),
        et_al_subsequent_min: maybe_count(session, given, "et_al_subsequent_min"),
        et_al_subsequent_use_first: maybe_count(session, given, "et_al_subsequent_use_first"),
        et_al_use_last: session.maybe_bool(given, "et_al_use_last"),
        form: session.maybe_word(given, "form", NAME_FORMS),
        initialize_with: session.maybe_owned_text(given, "initialize_with"),
        name_as_sort_order: session.maybe_word(given, "name_as_sort_order", SORT_ORDERS),
        sort_separator: session.maybe_owned_text(given, "sort_separator"),
        demote_non_dropping_particle: session.maybe_bool(given, "demote"),
        delimiter_precedes_et_al: session.maybe_word(given, "delimiter_precedes_et_al", DELIMITERS),
        initialize: None,
        initialize_with_hyphen: session.maybe_bool(given, "initialize_with_hyphen"),
        splits_initials: None,
        names_delimiter: session.maybe_owned_text(given, "names_delimiter"),
    }
}

/// The options of the member `name_options`; none where it is left out.
pub(crate) fn name_options(session: &mut Session, object: &Value<'_>) -> NameOptions {
    let Some(given) = member(object, "name_options") else {
        return NameOptions::default();
    };
    session.only(given, &NAME_MEMBERS[..16]);
    options(session, given)
}
