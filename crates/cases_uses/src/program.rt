//! Runs of the programs over files in memory.

use crate::csl_program::run_csl;
use crate::files::{are_refused, read_files};
use cases::{Refusal, Session, Taker, Value, put_taken, read_taker};
use programs::FileRead;
use sinks::Tap;

/// The members of a case.
const MEMBERS: [&str; 8] = [
    "case",
    "name",
    "program",
    "words",
    "files",
    "no_memory_for",
    "out_sink",
    "err_sink",
];

/// Writes the status of a run, and what its two writers took.
pub(crate) fn answer_program(session: &mut Session, case: &Value<'_>) {
    session.only(case, &MEMBERS);
    let files = read_files(session, case);
    let mut first = read_taker(session, case, "out_sink");
    let mut second = read_taker(session, case, "err_sink");
    let status = run(session, case, &files, &mut first, &mut second);
    let lacks_memory = first.lacks_memory || second.lacks_memory;
    if lacks_memory || (says_no_memory(&second.taken) && !are_refused(&files)) {
        session.refuse(Refusal::Memory);
    }
    session.put_number("status", i64::from(status));
    put_taken(session, "out", &first);
    put_taken(session, "err", &second);
}

/// Runs the program of a case, and returns its status.
fn run(
    session: &mut Session,
    case: &Value<'_>,
    files: &[FileRead<'_>],
    first: &mut Taker,
    second: &mut Taker,
) -> u8 {
    let words = session.texts(case, "words");
    let alloc = session.alloc;
    match session.text(case, "program") {
        "cite" => cite_command::run(
            alloc,
            &words,
            files,
            &mut Tap::new(first),
            &mut Tap::new(second),
        ),
        "bib_show" => {
            bib_show::run(
                alloc,
                &words,
                files,
                &mut Tap::new(first),
                &mut Tap::new(second),
            )
        }
        "cite_csl" => run_csl(session, case, files, first, second),
        _ => {
            session.want("program", "cite, bib_show or cite_csl");
            0
        }
    }
}

/// Whether the line of a program says that memory ran out.
fn says_no_memory(message: &[u8]) -> bool {
    message == b"cite: out of memory\n".as_slice()
        || message == b"bib_show: out of memory\n".as_slice()
        || message == b"cite_csl: out of memory\n".as_slice()
}
