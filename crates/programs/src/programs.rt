//! What programs have in common: their words, the files that these name, and lines for the second sink.

ghost use Rattle.std.specs.Prelude.{◌≡◌, ◌++◌, map, IfOk, string_bytes};
ghost use Rattle.programs.specs.Programs.{line, Says};
ghost use Rattle.programs.specs.declared.files.FileRead.{FileRead};

use crate::files::{FileRead, ReadFault};
use sinks::{Sink, write_all};
use std::alloc::{AllocError, Global};
use std::io::ErrorKind;
use std::{env, fs, io};

/// The words that a program was started with, without its own name. What they are is known to no contract.
pub fn words_given(rt: &HostRuntime) -> io::Result<Vec<String>> {
    let mut words = Vec::new(rt.alloc());
    for word in env::args(rt)?.skip(1) {
        words.push(word)?;
    }
    Ok(words)
}

/// The words, borrowed.
pub fn borrowed(alloc: Global, words: &[String]) -> Result<Vec<&str>, AllocError>
    ensures { IfOk result (λ v. map (λ word. word.now) v.items ≡ map string_bytes words.now) }
{
    let mut all = Vec::with_capacity(alloc, words.len())?;
    for word in words {
        all.push(word.as_str())?;
    }
    Ok(all)
}

/// Reads the files at the paths, each once. What a file has is known to no contract.
pub fn read_files<'p>(rt: &HostRuntime, paths: &[&'p str]) -> Result<Vec<FileRead<'p>>, AllocError>
    ensures { IfOk result (λ v. map (λ (f : FileRead). f.path) v.items ≡ paths.now) }
{
    let mut files = Vec::new(rt.alloc());
    for path in paths {
        files.push(read_file(rt, path))?;
    }
    Ok(files)
}

/// Reads the file at the path.
fn read_file<'p>(rt: &HostRuntime, path: &'p str) -> FileRead<'p>
    ensures { result.path ≡ path.entry }
{
    FileRead {
        path,
        bytes: read(rt, path),
    }
}

/// The bytes of the file at the path.
fn read(rt: &HostRuntime, path: &str) -> Result<Vec<u8>, ReadFault> {
    match fs::read(rt, path) {
        Ok(bytes) => Ok(bytes),
        Err(error) if error.kind() == ErrorKind::OutOfMemory => Err(ReadFault::Memory),
        Err(_) => Err(ReadFault::Unreadable),
    }
}

/// The line of a program that says this of something.
pub fn line_of(alloc: Global, program: &str, message: &str, of: &str) -> Result<String, AllocError>
    ensures { IfOk result (λ s. string_bytes s ≡ line program.now (message.now ++ of.now)) }
{
    let mut line = String::new(alloc);
    line.push_str(program)?;
    line.push_str(": ")?;
    line.push_str(message)?;
    line.push_str(of)?;
    line.push('\n')?;
    Ok(line)
}

/// Writes what a program says. A fault of the sink is passed over.
pub fn say<E: Sink>(message: &[u8], err: &mut E)
    ensures { Says (λ bytes. bytes ≡ message.now) (E.contents err.old)
        (E.contents err.new) (E.failures err.old) (E.failures err.new) }
{
    let _ = write_all(err, message);
}
