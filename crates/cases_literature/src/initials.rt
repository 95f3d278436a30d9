//! The initials of given names.

use cases::{Refusal, Session, Value};
use literature::Person;

/// `initials`: the initials of a person of a given name.
pub(crate) fn initials(session: &mut Session, case: &Value<'_>) {
    session.only(case, &["case", "name", "given_name", "delimiter", "hyphen"]);
    let person = Person {
        name: String::new(session.alloc),
        given_name: session.maybe_owned_text(case, "given_name"),
        prefix: None,
        suffix: None,
    };
    let delimiter = session.maybe_text(case, "delimiter");
    let with_hyphen = session.is_set(case, "hyphen");
    let mut written = String::new(session.alloc);
    match person.initials(&mut written, delimiter, with_hyphen) {
        Ok(()) => session.put_text("text", written.as_str()),
        Err(_) => session.refuse(Refusal::Memory),
    }
}
