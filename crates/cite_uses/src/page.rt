//! A sink of one's own.

ghost use Rattle.std.specs.Prelude.{◌≡◌, ◌≤◌, [], length, Ok, IfErr, IfOk};
ghost use Rattle.rendering_output.specs.declared.writing.BufWriteFormat.TheVariants.{Html};
ghost use Rattle.cite_requests.specs.Answers.{IsRefusalUnlessWrite, OnWrite, Writes};
ghost use Rattle.cite.specs.Verdict.{IsVerdict};
ghost use Rattle.cite.specs.Views.{task_of};
ghost use Rattle.cite_uses.specs.Pages.{page_error};

use cite::{BufWriteFormat, CiteError, Locale, Style, Tap, cite};
use std::alloc::Global;
use std::io;
use std::io::{ErrorKind, Write};

/// A page: a writer into memory that takes what fits on it, and then nothing.
#[derive(Debug, Drop)]
struct Page {
    bytes: Vec<u8>,
    room: usize,
}

impl Write for Page {
    ghost use Rattle.std.specs.Prelude.{◌≡◌, true, is_ok, length, min, Some};
    ghost use Rattle.std.specs.Io.{WritesAtMost};
    ghost use Rattle.std.specs.Io.KnownBytes.{Keeps, WriteAppends};
    ghost use Rattle.std.specs.IoError.{error_kind};
    ghost use Rattle.std.specs.declared.io.ErrorKind.TheVariants.{OutOfMemory};

    ghost contents = { λ page. Some page.bytes.items };

    fn write(&mut self, bytes: &[u8]) -> io::Result<usize>
        ensures bound { WritesAtMost result bytes.now }
        ensures bytes { WriteAppends (Some self.old.bytes.items) (Some self.new.bytes.items)
            result bytes.now }
        // It takes all that fits, unless memory runs out.
        ensures count { IfOk result (λ n. n ≡ min (length bytes.now) self.old.room) }
        ensures memory { IfErr result (λ e. error_kind e ≡ OutOfMemory) }
    {
        let count = bytes.len().min(self.room);
        match self.bytes.extend_from_slice(&bytes[..count]) {
            Ok(()) => {
                self.room -= count;
                Ok(count)
            }
            Err(_) => Err(io::Error::from(ErrorKind::OutOfMemory)),
        }
    }

    fn flush(&mut self) -> io::Result<()>
        ensures bytes { Keeps (Some self.old.bytes.items) (Some self.new.bytes.items) }
        ensures ok { is_ok result ≡ true }
    {
        Ok(())
    }
}

/// The output of `cite` in HTML, on a page with room for so many bytes.
///
/// # Errors
/// Those of `cite`: `Write` where the output does not fit, and `Memory` where there is no memory for the page.
pub fn cited_on_page(
    alloc: Global,
    bib: &[u8],
    document: &[u8],
    style: &Style,
    locale: &Locale,
    room: usize,
) -> Result<Vec<u8>, CiteError>
    // What stands on the page is exactly the output that is defined for this task.
    ensures whole { IfOk result (λ bytes.
        IsVerdict bib.now (task_of document.now style.now locale.now [] Html) (Ok bytes.items)) }
    // An error is the first refusal, with its fault, but for a failed write.
    ensures refused { IfErr result (λ e. IsRefusalUnlessWrite e
        (IsVerdict bib.now (task_of document.now style.now locale.now [] Html))) }
    // A write fails only where the output has no fewer bytes than the page has room for.
    ensures full { IfErr result (λ e. OnWrite e
        (Writes (IsVerdict bib.now (task_of document.now style.now locale.now [] Html))
        (λ output. room ≤ length output))) }
{
    let mut sink = Tap::new(Page {
        bytes: Vec::new(alloc),
        room,
    });
    let done = cite(
        alloc,
        bib,
        document,
        style,
        locale,
        &[],
        BufWriteFormat::Html,
        &mut sink,
    );
    let page = sink.into_inner();
    match done {
        Ok(()) => Ok(page.bytes),
        Err(error) => Err(page_error(page.bytes.len() < room, error)),
    }
}

/// The error of a page. Where it has room left, a write failed only since there was no memory.
fn page_error(has_room: bool, error: CiteError) -> CiteError
    ensures { result ≡ page_error has_room error }
{
    if !has_room {
        return error;
    }
    match error {
        CiteError::Write(_) => CiteError::Memory,
        error => error,
    }
}
