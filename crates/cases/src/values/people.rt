//! People in cases and in answers.

use crate::values::case_value::CaseValue;
use crate::{Session, Value};
use biblatex::Person;

/// Writes a part of a name, if it is not empty.
fn put_part(session: &mut Session, name: &str, text: &str) {
    if !text.is_empty() {
        session.put_text(name, text);
    }
}

/// A person; parts of the name that are empty may be left out, and are not written but for the name.
impl CaseValue for Person {
    fn given(session: &mut Session, value: &Value<'_>) -> Person {
        session.only(value, &["name", "given_name", "prefix", "suffix"]);
        Person {
            name: session.text_or_empty(value, "name"),
            given_name: session.text_or_empty(value, "given_name"),
            prefix: session.text_or_empty(value, "prefix"),
            suffix: session.text_or_empty(value, "suffix"),
        }
    }

    fn put(&self, session: &mut Session) {
        session.begin_object();
        session.put_text("name", self.name.as_str());
        put_part(session, "given_name", self.given_name.as_str());
        put_part(session, "prefix", self.prefix.as_str());
        put_part(session, "suffix", self.suffix.as_str());
        session.end_object();
    }
}
