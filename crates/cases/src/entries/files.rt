//! Bibliographies as files.

use crate::{Refusal, Session, Taker, Value, member, put_taken, put_write_error, read_taker};
use biblatex::Bibliography;
use sinks::{SinkFault, Tap};

/// Shows what a case asks for of the bibliography as a file.
pub(crate) fn show_written(session: &mut Session, case: &Value<'_>, bibliography: &Bibliography) {
    if session.is_shown(case, "settled", false) {
        session.put_bool("settled", bibliography.is_settled());
    }
    if session.is_shown(case, "written", false) {
        match member(case, "sink") {
            Some(_) => put_into_sink(session, case, bibliography),
            None => put_text(session, bibliography),
        }
    }
}

/// Writes the file as a text.
fn put_text(session: &mut Session, bibliography: &Bibliography) {
    let written = bibliography.to_biblatex_string(session.alloc);
    if let Some(text) = session.allocated(written) {
        session.put_text("written", text.as_str());
    }
}

/// Writes the file into the sink of the case, and what came of it.
fn put_into_sink(session: &mut Session, case: &Value<'_>, bibliography: &Bibliography) {
    let mut taker = read_taker(session, case, "sink");
    let outcome = into_sink(bibliography, &mut taker);
    if taker.lacks_memory {
        session.refuse(Refusal::Memory);
    }
    match outcome {
        Ok(()) => put_taken(session, "written", &taker),
        Err(fault) => {
            put_write_error(session, fault);
            put_taken(session, "taken", &taker);
        }
    }
}

/// Writes the file into a writer.
fn into_sink(bibliography: &Bibliography, taker: &mut Taker) -> Result<(), SinkFault> {
    bibliography.write_biblatex(&mut Tap::new(taker))
}
