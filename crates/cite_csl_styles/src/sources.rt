//! Files that were read, and lines that say why a text is refused at one of its bytes.

ghost use Rattle.std.specs.Prelude.{◌≡◌, ◌++◌, ◌-◌, ℕ, List, [], false, is_some, IfOk, IfSome, OnOk, string_bytes};
ghost use Rattle.std.specs.List.{list_any};
ghost use Rattle.laws.specs.Borrowed.{borrowed};
ghost use Rattle.programs.specs.Files.{read_at};
ghost use Rattle.fault_lines.specs.Messages as messages;
ghost use Rattle.fault_lines.specs.Views.{IsIn, lines_view};
ghost use Rattle.cite_csl_styles.specs.Answers.{IsRefusal};
ghost use Rattle.cite_csl_styles.specs.Sources as specs;
ghost use Rattle.cite_csl_styles.specs.Sources.{bytes_in, files_at, lacks_memory, unread_line, unread_lines};
ghost use Rattle.cite_csl_styles.specs.Views.{source_view, sources_view};

use crate::joined_faults::JoinedFaults;
use crate::stop::Stop;
use fault_lines::{FaultLines, fault_lines};
use programs::{FileRead, ReadFault, bytes_at, line_of};
use std::alloc::{AllocError, Global};

/// A path and the bytes of its file.
#[derive(Clone, Copy)]
pub struct SourceFile<'f> {
    pub path: &'f str,
    pub bytes: &'f [u8],
}

/// A line of the program.
pub fn line(alloc: Global, message: &str, of: &str) -> Result<String, AllocError>
    ensures { IfOk result (λ s. string_bytes s ≡ specs.line (message.now ++ of.now)) }
{
    line_of(alloc, "cite_csl", message, of)
}

/// Appends the line for a path that cannot be read.
fn push_unread(
    alloc: Global,
    files: &[FileRead<'_>],
    path: &str,
    lines: &mut String,
) -> Result<(), AllocError>
    ensures lines { OnOk result (string_bytes lines.new
        ≡ string_bytes lines.old ++ unread_line (read_at files.now) path.now) }
    ensures memory { OnOk result (lacks_memory (read_at files.now path.now) ≡ false) }
{
    match bytes_at(files, path) {
        Ok(_) => Ok(()),
        Err(ReadFault::Unreadable) => {
            let said = line(alloc, "cannot read ", path)?;
            lines.push_str(said.as_str())
        }
        Err(ReadFault::Memory) => Err(AllocError),
    }
}

/// A line for each path that cannot be read.
pub fn unread_lines(
    alloc: Global,
    files: &[FileRead<'_>],
    paths: &[&str],
) -> Result<String, AllocError>
    ensures lines { IfOk result (λ s. string_bytes s
        ≡ unread_lines (read_at files.now) (borrowed paths.now)) }
    ensures memory { OnOk result (list_any (λ p. lacks_memory (read_at files.now p))
        (borrowed paths.now) ≡ false) }
{
    let mut lines = String::new(alloc);
    for path in paths {
        push_unread(alloc, files, *path, &mut lines)?;
    }
    Ok(lines)
}

/// The bytes of the file at a path; none where it cannot be read.
fn bytes_or_none<'f>(files: &'f [FileRead<'_>], path: &str) -> &'f [u8]
    ensures { result.now ≡ bytes_in (read_at files.entry.now path.now) }
{
    match bytes_at(files, path) {
        Ok(bytes) => bytes,
        Err(_) => &[],
    }
}

/// The path as it stands among the files, if its file can be read.
pub fn path_at<'f>(files: &'f [FileRead<'_>], path: &str) -> Result<Option<&'f str>, AllocError>
    ensures path { IfOk result (λ p. IfSome p (λ s. s.now ≡ path.now)) }
    ensures found { IfOk result (λ p.
        specs.IsReadable (read_at files.entry.now path.now) (is_some p)) }
{
    for file in files {
        if file.path == path {
            return match file.bytes() {
                Ok(_) => Ok(Some(file.path)),
                Err(ReadFault::Unreadable) => Ok(None),
                Err(ReadFault::Memory) => Err(AllocError),
            };
        }
    }
    Ok(None)
}

/// The file at a path.
pub fn file_at<'f>(files: &'f [FileRead<'_>], path: &'f str) -> SourceFile<'f>
    ensures { source_view result ≡ specs.file_at (read_at files.entry.now) path.entry.now }
{
    SourceFile {
        path,
        bytes: bytes_or_none(files, path),
    }
}

/// The files at paths.
pub fn files_at<'f>(
    alloc: Global,
    files: &'f [FileRead<'_>],
    paths: &[&'f str],
) -> Result<Vec<SourceFile<'f>>, AllocError>
    ensures { IfOk result (λ v. sources_view v.items
        ≡ files_at (read_at files.entry.now) (borrowed paths.now)) }
{
    let mut found = Vec::with_capacity(alloc, paths.len())?;
    for path in paths {
        found.push(file_at(files, *path))?;
    }
    Ok(found)
}

/// The stop with these lines.
pub fn refused(lines: Result<String, AllocError>) -> Stop
    ensures { (wanted : List ℕ) → IfOk lines (λ s. string_bytes s ≡ wanted)
        → IsRefusal result wanted }
{
    match lines {
        Ok(lines) => Stop::Refused(lines),
        Err(_) => Stop::Memory,
    }
}

/// The lines that say why a file is refused where so many of its bytes are left.
fn lines_left(
    alloc: Global,
    file: SourceFile<'_>,
    left: usize,
    why: &str,
) -> Result<String, AllocError>
    ensures { IfOk result (λ s. string_bytes s
        ≡ specs.lines_left (source_view file.entry) left why.now) }
{
    let at = file.bytes.len().saturating_sub(left);
    fault_lines(alloc, file.path, file.bytes, at, why)
}

/// Appends the lines that say why a file is refused where so many of its bytes are left.
pub fn push_lines_left(
    alloc: Global,
    file: SourceFile<'_>,
    left: usize,
    why: &str,
    lines: &mut FaultLines,
) -> Result<(), AllocError>
    requires { IsIn file.bytes.now lines.old }
    ensures lines { OnOk result (lines_view lines.new
        ≡ lines_view lines.old ++ specs.lines_left (source_view file.entry) left why.now) }
    ensures place { OnOk result (IsIn file.entry.bytes.now lines.new) }
{
    let at = file.bytes.len().saturating_sub(left);
    lines.push(alloc, file.path, file.bytes, at, why)
}

/// The stop for a file that is refused at a byte.
pub fn refused_at(alloc: Global, file: SourceFile<'_>, at: usize, why: &str) -> Stop
    ensures { IsRefusal result
        (messages.fault_lines file.entry.path.now file.entry.bytes.now at why.now) }
{
    match fault_lines(alloc, file.path, file.bytes, at, why) {
        Ok(lines) => Stop::Refused(lines),
        Err(_) => Stop::Memory,
    }
}

/// The stop for a file that is refused where so many of its bytes are left.
pub fn refused_left(alloc: Global, file: SourceFile<'_>, left: usize, why: &str) -> Stop
    ensures { IsRefusal result (specs.lines_left (source_view file.entry) left why.now) }
{
    match lines_left(alloc, file, left, why) {
        Ok(lines) => Stop::Refused(lines),
        Err(_) => Stop::Memory,
    }
}

/// The bytes of files one after the other, with a line feed between.
pub fn joined(alloc: Global, files: &[SourceFile<'_>]) -> Result<Vec<u8>, AllocError>
    ensures { IfOk result (λ v. v.items ≡ specs.joined (sources_view files.now)) }
{
    let mut bytes = Vec::new(alloc);
    let mut rest = files;
    while let [file, others @ ..] = rest {
        push_file(&mut bytes, *file, !others.is_empty())?;
        rest = others;
    }
    Ok(bytes)
}

/// Appends the bytes of a file, and a line feed where another one follows.
fn push_file(bytes: &mut Vec<u8>, file: SourceFile<'_>, goes_on: bool) -> Result<(), AllocError>
    ensures { OnOk result (bytes.new.items
        ≡ bytes.old.items ++ specs.part_of (source_view file.entry) goes_on) }
{
    bytes.extend_from_slice(file.bytes)?;
    if goes_on {
        bytes.push(b'\n')?;
    }
    Ok(())
}

/// The lines that say why files, which are read as one, are refused at a byte.
pub fn lines_at(
    alloc: Global,
    files: &[SourceFile<'_>],
    at: usize,
    why: &str,
) -> Result<String, AllocError>
    ensures { IfOk result (λ s. string_bytes s
        ≡ specs.lines_at (sources_view files.now) at why.now) }
{
    let mut faults = JoinedFaults::new(alloc);
    faults.push(alloc, files, at, why)?;
    Ok(faults.into_string())
}
