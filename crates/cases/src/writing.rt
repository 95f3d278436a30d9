//! What is written of an answer: values, and members with their names.

use crate::session::Session;

impl Session {
    /// Writes the name of a member.
    pub fn key(&mut self, name: &str) {
        let done = self.out.key(name);
        self.check(done);
    }

    /// Begins an object.
    pub fn begin_object(&mut self) {
        let done = self.out.begin_object();
        self.check(done);
    }

    /// Ends an object.
    pub fn end_object(&mut self) {
        let done = self.out.end_object();
        self.check(done);
    }

    /// Begins a list.
    pub fn begin_array(&mut self) {
        let done = self.out.begin_array();
        self.check(done);
    }

    /// Ends a list.
    pub fn end_array(&mut self) {
        let done = self.out.end_array();
        self.check(done);
    }

    /// Writes null.
    pub fn null(&mut self) {
        let done = self.out.null();
        self.check(done);
    }

    /// Writes a text.
    pub fn string(&mut self, text: &str) {
        let done = self.out.string(text);
        self.check(done);
    }

    /// Writes true or false.
    pub fn boolean(&mut self, is_true: bool) {
        let done = self.out.boolean(is_true);
        self.check(done);
    }

    /// Writes a number.
    pub fn integer(&mut self, number: i64) {
        let done = self.out.i64(number);
        self.check(done);
    }

    /// Writes a number that counts from 0.
    pub fn unsigned(&mut self, number: u64) {
        let done = self.out.u64(number);
        self.check(done);
    }

    /// Writes a text, or null.
    pub fn string_or_null(&mut self, text: Option<&str>) {
        match text {
            Some(text) => self.string(text),
            None => self.null(),
        }
    }

    /// Begins a member that is a list.
    pub fn begin_list(&mut self, name: &str) {
        self.key(name);
        self.begin_array();
    }

    /// Writes a text as the member of the name.
    pub fn put_text(&mut self, name: &str, text: &str) {
        self.key(name);
        self.string(text);
    }

    /// Writes a text as the member of the name, where there is one.
    pub fn put_maybe_text(&mut self, name: &str, text: Option<&str>) {
        if let Some(text) = text {
            self.put_text(name, text);
        }
    }

    /// Writes true or false as the member of the name.
    pub fn put_bool(&mut self, name: &str, is_true: bool) {
        self.key(name);
        self.boolean(is_true);
    }

    /// Writes a member that is true, where it is.
    pub fn put_if_set(&mut self, name: &str, is_set: bool) {
        if is_set {
            self.put_bool(name, true);
        }
    }

    /// Writes a number as the member of the name.
    pub fn put_number(&mut self, name: &str, number: i64) {
        self.key(name);
        self.integer(number);
    }

    /// Writes how many there are of something, or an index, as the member of the name.
    pub fn put_count(&mut self, name: &str, count: usize) {
        self.key(name);
        self.unsigned(count as u64);
    }

    /// Writes a number as the member of the name, where there is one.
    pub fn put_maybe_byte(&mut self, name: &str, number: Option<u8>) {
        if let Some(number) = number {
            self.put_number(name, i64::from(number));
        }
    }

    /// Writes the name of a refusal.
    pub fn put_refused(&mut self, name: &str) {
        self.put_text("refused", name);
    }
}
