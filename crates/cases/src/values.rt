//! Values of both libraries in cases and in answers, and cases of values of fields: what contents are read as, how values are
//! written, genders, and dates of their parts.

mod case_value;
mod dates;
mod genders;
mod maybe_typed;
mod people;
mod reading;
mod values;
mod work_dates;
mod work_numbers;
mod work_pages;
mod work_people;
mod work_sources;
mod work_texts;

use crate::{Session, Value};
pub use case_value::{CaseValue, given, maybe_given, put_list, put_maybe, put_member, put_or_null};
pub use reading::type_error_name;

/// Writes the members of the answer to a case of this kind; false where the kind is none of these.
pub fn answer(session: &mut Session, kind: &str, case: &Value<'_>) -> bool {
    match kind {
        "value" => reading::answer(session, case),
        "gender" => genders::answer(session, case),
        "coalesce_genders" => genders::answer_together(session, case),
        "date_from_parts" => dates::answer_of_parts(session, case),
        "date_without_time" => dates::answer_without_time(session, case),
        _ => return false,
    }
    true
}
