//! Which members of an answer a case asks for, by its list `show`.

use crate::members::is_among;
use crate::session::Session;
use json::Value;
use std::fmt::Display;

impl Session {
    /// Refuses a list `show` that has others than the names.
    pub fn only_shown(&mut self, case: &Value<'_>, names: &[&str]) {
        let Some(items) = self.items(case, "show") else {
            return;
        };
        for item in items {
            let is_known = match item.as_str() {
                Some(name) => is_among(names, name),
                None => false,
            };
            if !is_known {
                self.want("show", "a list of members of the answer");
            }
        }
    }

    /// Whether the answer is to have the member: where there is a list, by the list.
    pub fn is_shown(&mut self, case: &Value<'_>, name: &str, is_usual: bool) -> bool {
        let Some(items) = self.items(case, "show") else {
            return is_usual;
        };
        for item in items {
            if item.as_str() == Some(name) {
                return true;
            }
        }
        false
    }

    /// Writes what is printed of a refusal, where the case asks for it.
    pub fn put_message<E: Display>(&mut self, case: &Value<'_>, error: &E) {
        if self.is_set(case, "message") {
            self.put_printed("message", error);
        }
    }

    /// Writes what is printed of a value as the member of the name.
    pub fn put_printed<T: Display>(&mut self, name: &str, value: &T) {
        let printed = value.to_string(self.alloc);
        if let Some(text) = self.allocated(printed) {
            self.put_text(name, text.as_str());
        }
    }
}
