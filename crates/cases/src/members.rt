//! The members of an object, by their names. A member that is `null` is as one that is left out.

use crate::refusal::Refusal;
use crate::session::Session;
use json::Value;

/// The value of a member, where there is one that is not `null`.
pub fn member<'v, 'a>(object: &'v Value<'a>, name: &str) -> Option<&'v Value<'a>> {
    match object.get(name) {
        None | Some(Value::Null) => None,
        Some(value) => Some(value),
    }
}

/// Whether the name is one of the names.
pub(crate) fn is_among(names: &[&str], wanted: &str) -> bool {
    for name in names {
        if *name == wanted {
            return true;
        }
    }
    false
}

impl Session {
    /// Refuses what is no object, and members that are not among the names.
    pub fn only(&mut self, object: &Value<'_>, names: &[&str]) {
        let Value::Object(members) = object else {
            self.refuse(Refusal::NoObject);
            return;
        };
        for member in members {
            if !is_among(names, member.0) {
                let name = self.owned(member.0);
                self.refuse(Refusal::UnknownMember(name));
            }
        }
    }

    /// The text of a member that may be left out.
    pub fn maybe_text<'a>(&mut self, object: &Value<'a>, name: &'static str) -> Option<&'a str> {
        match object.get(name) {
            None | Some(Value::Null) => None,
            Some(Value::String(text)) => Some(*text),
            Some(_) => {
                self.want(name, "a text");
                None
            }
        }
    }

    /// The text of a member.
    pub fn text<'a>(&mut self, object: &Value<'a>, name: &'static str) -> &'a str {
        match object.get(name) {
            Some(Value::String(text)) => *text,
            _ => {
                self.want(name, "a text");
                ""
            }
        }
    }

    /// Whether a member is true, where it is not left out.
    pub fn maybe_bool(&mut self, object: &Value<'_>, name: &'static str) -> Option<bool> {
        match object.get(name) {
            None | Some(Value::Null) => None,
            Some(Value::Bool(is_true)) => Some(*is_true),
            Some(_) => {
                self.want(name, "true or false");
                None
            }
        }
    }

    /// Whether a member is true; one that is left out is not.
    pub fn is_set(&mut self, object: &Value<'_>, name: &'static str) -> bool {
        self.maybe_bool(object, name).unwrap_or(false)
    }

    /// The number of a member that may be left out.
    pub fn maybe_number(&mut self, object: &Value<'_>, name: &'static str) -> Option<i64> {
        match object.get(name) {
            None | Some(Value::Null) => None,
            Some(value) => {
                let number = value.as_i64();
                if number.is_none() {
                    self.want(name, "an integer");
                }
                number
            }
        }
    }

    /// The number of a member.
    pub fn number(&mut self, object: &Value<'_>, name: &'static str) -> i64 {
        match self.maybe_number(object, name) {
            Some(number) => number,
            None => {
                self.want(name, "an integer");
                0
            }
        }
    }

    /// The number of a member, which has 32 bits.
    pub fn small_number(&mut self, object: &Value<'_>, name: &'static str) -> i32 {
        match i32::try_from(self.number(object, name)) {
            Ok(number) => number,
            Err(_) => {
                self.want(name, "an integer of 32 bits");
                0
            }
        }
    }

    /// The number of a member that is between 0 and 255, where there is one.
    pub fn maybe_byte(&mut self, object: &Value<'_>, name: &'static str) -> Option<u8> {
        let Some(number) = self.maybe_number(object, name) else {
            return None;
        };
        match u8::try_from(number) {
            Ok(number) => Some(number),
            Err(_) => {
                self.want(name, "an integer from 0 to 255");
                None
            }
        }
    }

    /// The number of a member that is between 0 and 255; one that is left out is 0.
    pub fn byte(&mut self, object: &Value<'_>, name: &'static str) -> u8 {
        self.maybe_byte(object, name).unwrap_or(0)
    }

    /// The number of a member that counts from 0.
    pub fn count(&mut self, object: &Value<'_>, name: &'static str) -> usize {
        match usize::try_from(self.number(object, name)) {
            Ok(number) => number,
            Err(_) => {
                self.want(name, "an integer from 0");
                0
            }
        }
    }

    /// The number of a member that counts from 0, where it is not left out.
    pub fn maybe_count(&mut self, object: &Value<'_>, name: &'static str) -> Option<usize> {
        match member(object, name) {
            Some(_) => Some(self.count(object, name)),
            None => None,
        }
    }

    /// The number of a member that counts from 0, as an index; one that is left out is 0.
    pub fn index_or_zero(&mut self, object: &Value<'_>, name: &'static str) -> usize {
        self.maybe_count(object, name).unwrap_or(0)
    }

    /// The items of a list that may be left out.
    pub fn items<'v, 'a>(
        &mut self,
        object: &'v Value<'a>,
        name: &'static str,
    ) -> Option<&'v Vec<Value<'a>>> {
        match object.get(name) {
            None => None,
            Some(Value::Array(items)) => Some(items),
            Some(_) => {
                self.want(name, "a list");
                None
            }
        }
    }

    /// The texts of a list; one that is left out is empty.
    pub fn texts<'a>(&mut self, object: &Value<'a>, name: &'static str) -> Vec<&'a str> {
        let mut texts = Vec::new(self.alloc);
        let Some(items) = self.items(object, name) else {
            return texts;
        };
        for item in items {
            match item.as_str() {
                Some(text) => self.push(&mut texts, text),
                None => self.want(name, "a list of texts"),
            }
        }
        texts
    }

    /// A copy of the text of a member.
    pub fn owned_text(&mut self, object: &Value<'_>, name: &'static str) -> String {
        let text = self.text(object, name);
        self.owned(text)
    }

    /// A copy of the text of a member that may be left out.
    pub fn maybe_owned_text(&mut self, object: &Value<'_>, name: &'static str) -> Option<String> {
        match self.maybe_text(object, name) {
            Some(text) => Some(self.owned(text)),
            None => None,
        }
    }

    /// A copy of the text of a member; empty where it is left out.
    pub fn text_or_empty(&mut self, object: &Value<'_>, name: &'static str) -> String {
        match self.maybe_text(object, name) {
            Some(text) => self.owned(text),
            None => String::new(self.alloc),
        }
    }
}
