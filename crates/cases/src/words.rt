//! Words, each with the value that it stands for.

use crate::session::Session;
use json::Value;

/// The value of a word in a table of words.
pub fn value_of<T: Copy>(words: &[(&str, T)], wanted: &str) -> Option<T> {
    for word in words {
        if word.0 == wanted {
            return Some(word.1);
        }
    }
    None
}

/// The word of a value in a table of words; empty where the table does not have it.
pub fn word_of<T: Copy + PartialEq>(words: &[(&'static str, T)], wanted: T) -> &'static str {
    for word in words {
        if word.1 == wanted {
            return word.0;
        }
    }
    ""
}

impl Session {
    /// The value of the word of a member that may be left out.
    pub fn maybe_word<T: Copy>(
        &mut self,
        object: &Value<'_>,
        name: &'static str,
        words: &[(&str, T)],
    ) -> Option<T> {
        let Some(word) = self.maybe_text(object, name) else {
            return None;
        };
        let value = value_of(words, word);
        if value.is_none() {
            self.want(name, "one of its words");
        }
        value
    }

    /// The value of the word of a member; the usual one where it is left out.
    pub fn word_or<T: Copy>(
        &mut self,
        object: &Value<'_>,
        name: &'static str,
        words: &[(&str, T)],
        usual: T,
    ) -> T {
        self.maybe_word(object, name, words).unwrap_or(usual)
    }

    /// The values of the words of a list; one that is left out is empty.
    pub fn words<T: Copy>(
        &mut self,
        object: &Value<'_>,
        name: &'static str,
        words: &[(&str, T)],
    ) -> Vec<T> {
        let mut values = Vec::new(self.alloc);
        let Some(items) = self.items(object, name) else {
            return values;
        };
        for item in items {
            match value_of(words, item.as_str().unwrap_or("")) {
                Some(value) => self.push(&mut values, value),
                None => self.want(name, "a list of its words"),
            }
        }
        values
    }

    /// The value that was found for a member. Where there is none, the member is not what it has to be, and the other value is of no use.
    pub fn required<T: Copy>(
        &mut self,
        found: Option<T>,
        name: &'static str,
        what: &'static str,
        other: T,
    ) -> T {
        match found {
            Some(value) => value,
            None => {
                self.want(name, what);
                other
            }
        }
    }
}
