//! Cases of what entries answer to styles.

mod answers;
mod kinds;

use cases::{Session, Value};

/// Writes the members of the answer to a case of this kind; false where the kind is none of these.
pub fn answer(session: &mut Session, kind: &str, case: &Value<'_>) -> bool {
    match kind {
        "answer" => answers::answer(session, case),
        "entry_kinds" => kinds::answer(session, case),
        _ => return false,
    }
    true
}
