//! The sinks of a case.

use crate::taker::{Limits, Taker};
use crate::{Session, Value};

/// The writer below the sink that a member describes; where it is left out, one that takes all.
pub fn read_taker(session: &mut Session, case: &Value<'_>, name: &'static str) -> Taker {
    let limits = match case.get(name) {
        None | Some(Value::Null) => Limits {
            bytes_a_call: None,
            calls_before_error: None,
            calls_before_nothing: None,
        },
        Some(sink) => read_limits(session, sink),
    };
    Taker::new(session.alloc, limits)
}

/// What limits a writer.
fn read_limits(session: &mut Session, sink: &Value<'_>) -> Limits {
    session.only(sink, &["bytes_a_call", "fails_at", "takes_nothing_at"]);
    Limits {
        bytes_a_call: session.maybe_count(sink, "bytes_a_call"),
        calls_before_error: calls_before(session, sink, "fails_at"),
        calls_before_nothing: calls_before(session, sink, "takes_nothing_at"),
    }
}

/// How many calls come before the one that a member names, which counts from one.
fn calls_before(session: &mut Session, sink: &Value<'_>, name: &'static str) -> Option<u64> {
    let Some(number) = session.maybe_number(sink, name) else {
        return None;
    };
    match u64::try_from(number) {
        Ok(number) if number > 0 => Some(number - 1),
        _ => {
            session.want(name, "a number from 1");
            None
        }
    }
}
