//! People, as JSON.

use crate::values::case_value::CaseValue;
use crate::{Session, Value};
use literature::Person;

/// A person: `name`, and `given_name`, `prefix` and `suffix` where they are set.
impl CaseValue for Person {
    fn given(session: &mut Session, value: &Value<'_>) -> Person {
        session.only(value, &["name", "given_name", "prefix", "suffix"]);
        Person {
            name: session.owned_text(value, "name"),
            given_name: session.maybe_owned_text(value, "given_name"),
            prefix: session.maybe_owned_text(value, "prefix"),
            suffix: session.maybe_owned_text(value, "suffix"),
        }
    }

    fn put(&self, session: &mut Session) {
        session.begin_object();
        session.put_text("name", self.name.as_str());
        session.put_maybe_text("given_name", self.given_name.as_deref());
        session.put_maybe_text("prefix", self.prefix.as_deref());
        session.put_maybe_text("suffix", self.suffix.as_deref());
        session.end_object();
    }
}
