//! Runs of `cite_csl` over files in memory, and the files that its words name.

use crate::files::read_files;
use cases::{Refusal, Session, Taker, Value};
use cite_csl::{paths, run};
use cite_csl_command::{Asked, CommandFault, asked_by};
use cite_csl_styles::{found_in, parent_paths};
use clap::error::ErrorKind;
use programs::FileRead;
use sinks::Tap;

/// The members of a case of files.
const MEMBERS: [&str; 4] = ["case", "name", "words", "files"];

/// The words of a case, the name of the program first.
fn csl_words<'c>(session: &mut Session, case: &Value<'c>) -> Vec<&'c str> {
    let mut words = Vec::new(session.alloc);
    session.push(&mut words, "cite_csl");
    for word in session.texts(case, "words") {
        session.push(&mut words, word);
    }
    words
}

/// The name of the kind of an error of words.
fn kind_name(kind: ErrorKind) -> &'static str {
    match kind {
        ErrorKind::DisplayHelp => "DisplayHelp",
        ErrorKind::DisplayVersion => "DisplayVersion",
        ErrorKind::MissingRequiredArgument => "MissingRequiredArgument",
        ErrorKind::UnknownArgument => "UnknownArgument",
        ErrorKind::ArgumentConflict => "ArgumentConflict",
        ErrorKind::InvalidValue => "InvalidValue",
        _ => "another",
    }
}

/// Writes why words ask for nothing.
fn put_fault(session: &mut Session, fault: &CommandFault) {
    match fault {
        CommandFault::Memory => session.refuse(Refusal::Memory),
        CommandFault::Format(line) => session.put_text("refused", line.as_str()),
        CommandFault::Words(error) => match error.kind() {
            ErrorKind::OutOfMemory => session.refuse(Refusal::Memory),
            kind => session.put_text("refused", kind_name(kind)),
        },
    }
}

/// Runs the program with words, its name first, and returns its status.
fn run_words(
    session: &mut Session,
    words: &[&str],
    files: &[FileRead<'_>],
    first: &mut Taker,
    second: &mut Taker,
) -> u8 {
    let alloc = session.alloc;
    let asked = match asked_by(alloc, words) {
        Ok(asked) => asked,
        Err(fault) => {
            put_fault(session, &fault);
            return 2;
        }
    };
    let found = found_in(alloc, files, asked.style);
    let mut out = Tap::new(first);
    let mut err = Tap::new(second);
    run(alloc, &asked, files, found, &mut out, &mut err)
}

/// Runs the program with the words of a case, and returns its status.
pub(crate) fn run_csl(
    session: &mut Session,
    case: &Value<'_>,
    files: &[FileRead<'_>],
    first: &mut Taker,
    second: &mut Taker,
) -> u8 {
    let words = csl_words(session, case);
    run_words(session, &words, files, first, second)
}

/// Writes the paths of the files that are asked for.
fn put_paths(session: &mut Session, asked: &Asked<'_>) {
    let paths = paths(session.alloc, asked);
    let Some(paths) = session.allocated(paths) else {
        return;
    };
    session.begin_list("paths");
    for path in paths {
        session.string(path);
    }
    session.end_array();
}

/// Writes the paths at which the parent of the style may lie, if it has one.
fn put_parents(session: &mut Session, asked: &Asked<'_>, files: &[FileRead<'_>]) {
    let parents = parent_paths(session.alloc, asked.style, files);
    if let Some(Some(parents)) = session.allocated(parents) {
        session.put_text("beside", parents.beside.as_str());
        session.put_text("above", parents.above.as_str());
    }
}

/// Writes which files the words of a case name.
pub(crate) fn answer_files(session: &mut Session, case: &Value<'_>) {
    session.only(case, &MEMBERS);
    let words = csl_words(session, case);
    let files = read_files(session, case);
    match asked_by(session.alloc, &words) {
        Ok(asked) => {
            put_paths(session, &asked);
            put_parents(session, &asked, &files);
        }
        Err(fault) => put_fault(session, &fault),
    }
}
