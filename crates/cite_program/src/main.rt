//! The program `cite`: real words, files and streams for `cite_command::run`. Without words it shows one stored run.
#![tactic(auto)]

use cite::{CiteError, SinkFault, Tap};
use cite_command::{paths, run};
use programs::{FileRead, borrowed, read_files, words_given};
use std::alloc::AllocError;
use std::io;
use std::io::{BufWriter, ErrorKind, Write};
use std::process::ExitCode;

/// The words of the stored run.
const STORED_WORDS: [&str; 4] = ["numeric", "plain", "a.bib", "a.txt"];

/// Its two files.
fn stored_files(rt: &HostRuntime) -> Result<Vec<FileRead<'static>>, AllocError> {
    let mut files = Vec::new(rt.alloc());
    files.push(stored_file(rt, "a.bib", "@book{a, title={A}, date={2001}}")?)?;
    files.push(stored_file(rt, "a.txt", "See [@a].")?)?;
    Ok(files)
}

/// A file with this text.
fn stored_file(
    rt: &HostRuntime,
    path: &'static str,
    text: &str,
) -> Result<FileRead<'static>, AllocError> {
    let bytes = text.as_bytes().to_vec(rt.alloc())?;
    Ok(FileRead {
        path,
        bytes: Ok(bytes),
    })
}

/// Runs the program with the words over files that were read. The output goes through a buffer, so that its small pieces are no writes of
/// their own.
fn run_over(rt: &HostRuntime, words: &[&str], files: &[FileRead<'_>]) -> io::Result<u8> {
    let mut out = Tap::new(BufWriter::new(rt.alloc(), rt.stdout())?);
    let mut err = Tap::new(rt.stderr());
    let status = run(rt.alloc(), words, files, &mut out, &mut err);
    match finish(out.into_inner(), status) {
        Ok(()) => Ok(status),
        Err(_) => Ok(say(rt, &CiteError::Write(SinkFault::Failed))),
    }
}

/// Writes what is left in the buffer after status 0. Else a write failed or there is nothing: what is left is dropped, and no write is
/// tried again.
fn finish<W: Write + Drop>(mut buffer: BufWriter<W>, status: u8) -> io::Result<()> {
    let flushed = if status == 0 { buffer.flush() } else { Ok(()) };
    let (_writer, _unwritten) = buffer.into_parts();
    flushed
}

/// Writes the line that says why the program ends, and gives its status.
fn say(rt: &HostRuntime, error: &CiteError) -> u8 {
    let _ = writeln!(rt.stderr(), "cite: {error}");
    1
}

/// Runs the program with the words.
fn run_words(rt: &HostRuntime, given: &[String]) -> io::Result<u8> {
    let words = borrowed(rt.alloc(), given)?;
    let files = read_files(rt, paths(&words))?;
    run_over(rt, &words, &files)
}

/// Runs the program: the stored run where there are no words. A word that is not UTF-8 gives the usage line.
fn start(rt: &HostRuntime) -> io::Result<u8> {
    match words_given(rt) {
        Ok(words) if words.is_empty() => run_over(rt, &STORED_WORDS, &stored_files(rt)?),
        Ok(words) => run_words(rt, &words),
        Err(error) if error.kind() == ErrorKind::InvalidData => run_words(rt, &[]),
        Err(error) => Err(error),
    }
}

fn main(rt: HostRuntime) -> ExitCode {
    match start(&rt) {
        Ok(status) => ExitCode::from(status),
        Err(_) => ExitCode::from(say(&rt, &CiteError::Memory)),
    }
}
