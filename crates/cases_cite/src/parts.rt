//! The calls by which `cite` hands its output to a sink.

use crate::refusals::put_cite_error;
use crate::setting::{english, format, style};
use cases::{Refusal, Session, Value};
use cite::{CiteError, Tap, cite};
use std::alloc::AllocError;
use std::io;
use std::io::{ErrorKind, Write};
use std::mem::replace;

/// A writer that takes all of each call. A call with a line feed alone ends a part.
#[derive(Drop)]
struct Parts {
    ended: Vec<Vec<u8>>,
    last: Vec<u8>,
}

impl Parts {
    /// Takes what a call has.
    fn take(&mut self, bytes: &[u8]) -> Result<(), AllocError> {
        if bytes == b"\n".as_slice() {
            let empty = Vec::new(*self.last.allocator());
            self.ended.push(replace(&mut self.last, empty))?;
        } else {
            self.last.extend_from_slice(bytes)?;
        }
        Ok(())
    }
}

impl Write for Parts {
    fn write(&mut self, bytes: &[u8]) -> io::Result<usize> {
        match self.take(bytes) {
            Ok(()) => Ok(bytes.len()),
            Err(_) => Err(io::Error::from(ErrorKind::OutOfMemory)),
        }
    }

    fn flush(&mut self) -> io::Result<()> {
        Ok(())
    }
}

/// `cite_parts`: the output of a document, cut at the calls of a sink that have a line feed alone, or why the document was refused. The sink
/// fails only where there is no memory, which has no answer.
pub(crate) fn answer_parts(session: &mut Session, case: &Value<'_>) {
    session.only(
        case,
        &[
            "case", "name", "bib", "document", "style", "format", "sections", "message",
        ],
    );
    let Some(style) = style(session, case, "numeric") else {
        return;
    };
    let Some(locale) = english(session) else {
        return;
    };
    let mut sink = Tap::new(Parts {
        ended: Vec::new(session.alloc),
        last: Vec::new(session.alloc),
    });
    let cited = cite(
        session.alloc,
        session.text(case, "bib").as_bytes(),
        session.text(case, "document").as_bytes(),
        &style,
        &locale,
        &session.texts(case, "sections"),
        format(session, case),
        &mut sink,
    );
    match cited {
        Ok(()) => put_parts(session, &sink.into_inner()),
        Err(CiteError::Write(_)) => session.refuse(Refusal::Memory),
        Err(error) => put_cite_error(session, case, &error),
    }
}

/// Writes the parts, the last one also where it is empty.
fn put_parts(session: &mut Session, parts: &Parts) {
    session.begin_list("parts");
    for part in &parts.ended {
        session.string_or_null(str::from_utf8(part).ok());
    }
    session.string_or_null(str::from_utf8(&parts.last).ok());
    session.end_array();
}
