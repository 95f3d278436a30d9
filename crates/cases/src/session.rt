//! The state in which a case is read and answered.

use crate::refusal::Refusal;
use json::Writer;
use std::alloc::{AllocError, Global};

/// Reads the members of a case and writes those of its answer. It keeps the first reason for which the line has no answer, so that the
/// calls return none: after it, what is read and written is of no use.
#[derive(Drop)]
pub struct Session {
    /// The allocator of all that is read and written.
    pub alloc: Global,
    pub(crate) out: Writer,
    refusal: Option<Refusal>,
}

impl Session {
    /// A session that has read and written nothing.
    pub fn new(alloc: Global) -> Session {
        Session {
            alloc,
            out: Writer::new(Vec::new(alloc)),
            refusal: None,
        }
    }

    /// What was written, unless there is a reason for no answer.
    pub fn finish(self) -> Result<Vec<u8>, Refusal> {
        let Session {
            alloc: _,
            out,
            refusal,
        } = self;
        match refusal {
            None => Ok(out.into_inner()),
            Some(refusal) => Err(refusal),
        }
    }

    /// The line has no answer for this reason, unless there was another one before.
    pub fn refuse(&mut self, refusal: Refusal) {
        if self.refusal.is_none() {
            self.refusal = Some(refusal);
        }
    }

    /// The line has no answer, since a member is not what it has to be.
    pub fn want(&mut self, name: &'static str, what: &'static str) {
        self.refuse(Refusal::Wanted(name, what));
    }

    /// The line has no answer where memory was refused.
    pub fn check(&mut self, done: Result<(), AllocError>) {
        if done.is_err() {
            self.refuse(Refusal::Memory);
        }
    }

    /// What a call gave, if memory was not refused to it.
    pub fn allocated<T: Drop>(&mut self, given: Result<T, AllocError>) -> Option<T> {
        match given {
            Ok(value) => Some(value),
            Err(_) => {
                self.refuse(Refusal::Memory);
                None
            }
        }
    }

    /// A copy of a text.
    pub fn owned(&mut self, text: &str) -> String {
        match String::from_str(self.alloc, text) {
            Ok(text) => text,
            Err(_) => {
                self.refuse(Refusal::Memory);
                String::new(self.alloc)
            }
        }
    }

    /// Appends an item to a list.
    pub fn push<T: Drop>(&mut self, list: &mut Vec<T>, item: T) {
        if list.push(item).is_err() {
            self.refuse(Refusal::Memory);
        }
    }
}
