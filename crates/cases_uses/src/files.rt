//! Files in memory.

use cases::{Session, Value, member};
use cases_cite::bytes_of;
use programs::{FileRead, ReadFault};

/// The files of a case: the paths in `no_memory_for`, and then `files` by their paths.
pub(crate) fn read_files<'c>(session: &mut Session, case: &Value<'c>) -> Vec<FileRead<'c>> {
    let mut files = Vec::new(session.alloc);
    for path in session.texts(case, "no_memory_for") {
        session.push(&mut files, refused_at(path));
    }
    push_files(session, case, &mut files);
    files
}

/// Whether for one of the files there was no memory.
pub(crate) fn are_refused(files: &[FileRead<'_>]) -> bool {
    for file in files {
        if matches!(file.bytes, Err(ReadFault::Memory)) {
            return true;
        }
    }
    false
}

/// A file for which there is no memory.
fn refused_at(path: &str) -> FileRead<'_> {
    FileRead {
        path,
        bytes: Err(ReadFault::Memory),
    }
}

/// Appends the files that have bytes.
fn push_files<'c>(session: &mut Session, case: &Value<'c>, files: &mut Vec<FileRead<'c>>) {
    let Some(object) = member(case, "files") else {
        return;
    };
    let Value::Object(members) = object else {
        return session.want("files", "an object");
    };
    for member in members {
        let file = FileRead {
            path: member.0,
            bytes: Ok(bytes_of(session, &member.1, "files")),
        };
        session.push(files, file);
    }
}
