//! What sinks took, and what those did that did not take all.

use crate::{Session, Taker};
use sinks::SinkFault;

/// Writes the bytes that a writer took as the member of the name: a text where they are UTF-8, and else a list of numbers.
pub fn put_taken(session: &mut Session, name: &str, taker: &Taker) {
    session.key(name);
    match str::from_utf8(&taker.taken) {
        Ok(text) => session.string(text),
        Err(_) => put_numbers(session, &taker.taken),
    }
}

fn put_numbers(session: &mut Session, bytes: &[u8]) {
    session.begin_array();
    for byte in bytes {
        session.unsigned(u64::from(*byte));
    }
    session.end_array();
}

/// Writes what a sink did that did not take all.
pub fn put_write_error(session: &mut Session, fault: SinkFault) {
    session.put_refused("Write");
    match fault {
        SinkFault::Failed => session.put_text("fault", "Failed"),
        SinkFault::TookNothing => session.put_text("fault", "TookNothing"),
    }
}
