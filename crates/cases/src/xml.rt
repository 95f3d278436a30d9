//! Cases of texts of XML.

mod faults;
mod tokens;

use crate::{Session, Value};
pub(crate) use faults::fault_name;

/// Writes the members of the answer to a case of this kind; false where the kind is none of these.
pub fn answer(session: &mut Session, kind: &str, case: &Value<'_>) -> bool {
    match kind {
        "xml_tokens" => tokens::answer(session, case),
        _ => return false,
    }
    true
}
