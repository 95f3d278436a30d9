//! Spans in a source: the first byte, and the one after the last.

use crate::session::Session;
use json::Value;
use std::ops::Range;

/// Writes a span as the member of the name.
pub fn put_span_as(session: &mut Session, name: &str, span: &Range<usize>) {
    session.begin_list(name);
    session.unsigned(span.start as u64);
    session.unsigned(span.end as u64);
    session.end_array();
}

/// Writes the member `at`, unless the span is of no source.
pub fn put_span(session: &mut Session, span: &Range<usize>) {
    if span.start != usize::MAX {
        put_span_as(session, "at", span);
    }
}

/// The span that the member `at` says, which may be left out.
pub fn maybe_span(session: &mut Session, object: &Value<'_>) -> Option<Range<usize>> {
    let ends = session.items(object, "at")?;
    let span = span(ends.as_slice());
    if span.is_none() {
        session.want("at", "a list of two numbers");
    }
    span
}

/// The span from one byte to another.
fn span(ends: &[Value<'_>]) -> Option<Range<usize>> {
    let [start, end] = ends else {
        return None;
    };
    Some(byte(start)?..byte(end)?)
}

/// The number of a byte.
fn byte(value: &Value<'_>) -> Option<usize> {
    usize::try_from(value.as_u64()?).ok()
}
