//! Cases of styles and locales, of what entries answer to styles, and of what is printed: texts, pages and trees. Also what cases of
//! citations have in common.
#![tactic(auto)]

mod lists;
mod printed;
mod sources;
mod styles;
mod works;

use cases::{Session, Value};
pub use printed::{NAME_FORMS, put_written, put_written_tree};
pub use sources::{
    PURPOSES, bibliography_of, bridged, english_locale, locale_files, maybe_locale, maybe_locator,
    named, put_bridge_error, put_effort, put_faults, put_unknown, put_unknown_name, read_source,
};
pub use styles::{accepted, locator_word, maybe_code, style_of};

/// Writes the members of the answer to a case of this kind; false where the kind is none of these.
pub fn answer(session: &mut Session, kind: &str, case: &Value<'_>) -> bool {
    styles::answer(session, kind, case)
        || works::answer(session, kind, case)
        || printed::answer(session, kind, case)
}
