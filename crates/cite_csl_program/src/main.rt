//! The program `cite_csl`: real words, files and streams for `cite_csl::run`. Without words it runs over small files of its own.
#![tactic(auto)]

use cite_csl::{paths, run};
use cite_csl_command::{Asked, CommandFault, asked_by};
use cite_csl_styles::{Found, ParentPaths, Stop, found_in, paths_for};
use clap::Error;
use clap::error::ErrorKind;
use programs::{FileRead, ReadFault, borrowed, read_files};
use sinks::Tap;
use std::alloc::AllocError;
use std::io::{BufWriter, ErrorKind as IoErrorKind, Read, Write};
use std::process::ExitCode;
use std::{env, io};

/// The status for a command line that is refused.
const COMMAND_REFUSED: u8 = 2;

/// The words of the stored run.
const STORED_WORDS: [&str; 6] = ["cite_csl", "--style", "a.csl", "--bib", "a.bib", "a.txt"];

/// Its style.
const STORED_STYLE: &str =
    "<style xmlns=\"http://purl.org/net/xbiblio/csl\" class=\"in-text\" version=\"1.0\">
<info><title>Small</title><id>small</id><updated>2026-01-01T00:00:00Z</updated></info>
<citation><layout prefix=\"(\" suffix=\")\" delimiter=\"; \"><text variable=\"title\"/></layout></citation>
</style>";

/// A file with this text.
fn stored_file(
    rt: &HostRuntime,
    path: &'static str,
    text: &str,
) -> Result<FileRead<'static>, AllocError> {
    Ok(FileRead {
        path,
        bytes: Ok(text.as_bytes().to_vec(rt.alloc())?),
    })
}

/// The files of the stored run.
fn stored_files(rt: &HostRuntime) -> Result<Vec<FileRead<'static>>, AllocError> {
    let mut files = Vec::new(rt.alloc());
    files.push(stored_file(rt, "a.csl", STORED_STYLE)?)?;
    files.push(stored_file(rt, "a.bib", "@book{a, title={A}, date={2001}}")?)?;
    files.push(stored_file(rt, "a.txt", "See [@a].\n")?)?;
    Ok(files)
}

/// How a run over the files that its words name ends.
#[derive(Drop)]
enum Ended {
    /// With a status.
    Run(u8),
    /// The style is a dependent one, and its parent has to be read, which may lie at these paths.
    Parents(ParentPaths),
}

/// All of standard input.
fn read_input(rt: &HostRuntime) -> Result<Vec<u8>, ReadFault> {
    let mut bytes = Vec::new(rt.alloc());
    match rt.reader().read_to_end(&mut bytes) {
        Ok(_) => Ok(bytes),
        Err(error) if error.kind() == IoErrorKind::OutOfMemory => Err(ReadFault::Memory),
        Err(_) => Err(ReadFault::Unreadable),
    }
}

/// Reads the files at the paths; `-` is standard input.
fn read_asked<'w>(rt: &HostRuntime, asked: &Asked<'w>) -> Result<Vec<FileRead<'w>>, AllocError> {
    let mut files = Vec::new(rt.alloc());
    if asked.document == "-" {
        files.push(FileRead {
            path: "-",
            bytes: read_input(rt),
        })?;
    }
    let paths = paths(rt.alloc(), asked)?;
    for file in read_files(rt, paths.as_slice())? {
        files.push(file)?;
    }
    Ok(files)
}

/// Runs the program over files that were read. The output goes through a buffer, so that its small pieces are no writes of their own.
fn run_over(rt: &HostRuntime, asked: &Asked<'_>, files: &[FileRead<'_>]) -> io::Result<u8> {
    let found = found_in(rt.alloc(), files, asked.style);
    let mut out = Tap::new(BufWriter::new(rt.alloc(), rt.stdout())?);
    let mut err = Tap::new(rt.stderr());
    let status = run(rt.alloc(), asked, files, found, &mut out, &mut err);
    Ok(end_output(rt, out, status))
}

/// Where the parent of what was found may lie: nothing where that is no dependent style, or is refused.
fn parents_of(
    rt: &HostRuntime,
    found: &Result<Found<'_>, Stop>,
) -> Result<Option<ParentPaths>, AllocError> {
    match found {
        Ok(found) => paths_for(rt.alloc(), found),
        Err(_) => Ok(None),
    }
}

/// Runs the program over the files that its words name, unless the parent of their style has to be read.
fn run_alone(rt: &HostRuntime, asked: &Asked<'_>, files: &[FileRead<'_>]) -> io::Result<Ended> {
    let found = found_in(rt.alloc(), files, asked.style);
    if let Some(parents) = parents_of(rt, &found)? {
        return Ok(Ended::Parents(parents));
    }
    let mut out = Tap::new(BufWriter::new(rt.alloc(), rt.stdout())?);
    let mut err = Tap::new(rt.stderr());
    let status = run(rt.alloc(), asked, files, found, &mut out, &mut err);
    Ok(Ended::Run(end_output(rt, out, status)))
}

/// Writes what is left of the output, and gives the status.
fn end_output<W: Write + Drop>(rt: &HostRuntime, out: Tap<BufWriter<W>>, status: u8) -> u8 {
    match finish(out.into_inner(), status) {
        Ok(()) => status,
        Err(_) => say(rt, "write failed"),
    }
}

/// Writes what is left in the buffer after status 0. Else a write failed or there is nothing: what is left is dropped, and no write is
/// tried again.
fn finish<W: Write + Drop>(mut buffer: BufWriter<W>, status: u8) -> io::Result<()> {
    let flushed = if status == 0 { buffer.flush() } else { Ok(()) };
    let (_writer, _unwritten) = buffer.into_parts();
    flushed
}

/// Writes the line that says why the program ends, and gives its status.
fn say(rt: &HostRuntime, message: &str) -> u8 {
    let _ = writeln!(rt.stderr(), "cite_csl: {message}");
    1
}

/// Writes what clap says of the words, and gives the status.
fn say_error(rt: &HostRuntime, error: &Error) -> u8 {
    if error.kind() == ErrorKind::OutOfMemory {
        return say(rt, "out of memory");
    }
    if error.print(rt).is_err() {
        return say(rt, "write failed");
    }
    if error.use_stderr() {
        COMMAND_REFUSED
    } else {
        0
    }
}

/// Says why words ask for nothing, and gives the status.
fn say_fault(rt: &HostRuntime, fault: &CommandFault) -> u8 {
    match fault {
        CommandFault::Words(error) => say_error(rt, error),
        CommandFault::Format(line) => {
            let _ = rt.stderr().write_all(line.as_bytes());
            COMMAND_REFUSED
        }
        CommandFault::Memory => say(rt, "out of memory"),
    }
}

/// Runs the program over files that were read and the files at which the parent of a dependent style may lie.
fn run_with_parents<'p>(
    rt: &HostRuntime,
    asked: &Asked<'_>,
    files: Vec<FileRead<'p>>,
    parents: &'p ParentPaths,
) -> io::Result<u8> {
    let mut all = files;
    for file in read_files(rt, &[parents.beside.as_str(), parents.above.as_str()])? {
        all.push(file)?;
    }
    run_over(rt, asked, all.as_slice())
}

/// Runs the program for what its words ask for.
fn run_asked(rt: &HostRuntime, asked: &Asked<'_>) -> io::Result<u8> {
    let files = read_asked(rt, asked)?;
    match run_alone(rt, asked, files.as_slice())? {
        Ended::Run(status) => Ok(status),
        Ended::Parents(parents) => run_with_parents(rt, asked, files, &parents),
    }
}

/// Runs the program with words, the name of the program first.
fn run_words(rt: &HostRuntime, given: &[String]) -> io::Result<u8> {
    let words = borrowed(rt.alloc(), given)?;
    match asked_by(rt.alloc(), words.as_slice()) {
        Ok(asked) => run_asked(rt, &asked),
        Err(fault) => Ok(say_fault(rt, &fault)),
    }
}

/// Runs the stored run.
fn run_stored(rt: &HostRuntime) -> io::Result<u8> {
    let files = stored_files(rt)?;
    match asked_by(rt.alloc(), &STORED_WORDS) {
        Ok(asked) => run_over(rt, &asked, files.as_slice()),
        Err(fault) => Ok(say_fault(rt, &fault)),
    }
}

/// Runs the program: the stored run where there are no words after its name.
fn start(rt: &HostRuntime) -> io::Result<u8> {
    let given: Vec<String> = env::args(rt)?.collect(rt.alloc())?;
    if given.len() < 2 {
        return run_stored(rt);
    }
    run_words(rt, given.as_slice())
}

fn main(rt: HostRuntime) -> ExitCode {
    match start(&rt) {
        Ok(status) => ExitCode::from(status),
        Err(error) if error.kind() == IoErrorKind::InvalidData => {
            let _ = writeln!(rt.stderr(), "cite_csl: a word is not UTF-8");
            ExitCode::from(COMMAND_REFUSED)
        }
        Err(_) => ExitCode::from(say(&rt, "out of memory")),
    }
}
