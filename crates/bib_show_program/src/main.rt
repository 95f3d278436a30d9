//! The program `bib_show`: real words, files and streams for `bib_show::run`. Without words it shows one stored run.
#![tactic(auto)]

use bib_show::{paths, run};
use programs::{FileRead, borrowed, read_files, words_given};
use sinks::Tap;
use std::io;
use std::io::{ErrorKind, Write};
use std::process::ExitCode;

/// The path of the stored run.
const STORED_PATH: &str = "a.bib";

/// The text at that path.
const STORED_TEXT: &str =
    "@inbook{a, title={On $x$ in {NASA}}, crossref={b}}\n@book{b, title={B}, date={2001}}";

/// Runs the program with the words.
fn run_words(rt: &HostRuntime, given: &[String]) -> io::Result<u8> {
    let words = borrowed(rt.alloc(), given)?;
    let files = read_files(rt, paths(&words))?;
    Ok(run_over(rt, &words, &files))
}

/// Runs the program with the words over files that were read.
fn run_over(rt: &HostRuntime, words: &[&str], files: &[FileRead<'_>]) -> u8 {
    let mut out = Tap::new(rt.stdout());
    let mut err = Tap::new(rt.stderr());
    run(rt.alloc(), words, files, &mut out, &mut err)
}

/// Shows the stored text.
fn run_stored(rt: &HostRuntime) -> io::Result<u8> {
    let file = FileRead {
        path: STORED_PATH,
        bytes: Ok(STORED_TEXT.as_bytes().to_vec(rt.alloc())?),
    };
    Ok(run_over(rt, &[STORED_PATH], &[file]))
}

/// Runs the program: the stored run where there are no words. A word that is not UTF-8 gives the usage line.
fn start(rt: &HostRuntime) -> io::Result<u8> {
    match words_given(rt) {
        Ok(words) if words.is_empty() => run_stored(rt),
        Ok(words) => run_words(rt, &words),
        Err(error) if error.kind() == ErrorKind::InvalidData => run_words(rt, &[]),
        Err(error) => Err(error),
    }
}

fn main(rt: HostRuntime) -> ExitCode {
    match start(&rt) {
        Ok(status) => ExitCode::from(status),
        Err(_) => {
            let _ = writeln!(rt.stderr(), "bib_show: out of memory");
            ExitCode::from(1)
        }
    }
}
