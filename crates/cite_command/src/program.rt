//! The program over files that were read and any writers: words in, output and fault lines out.

ghost use Rattle.std.specs.Prelude.{◌≡◌, ◌≤◌, ◌++◌, Some, Ok, IfOk, IfErr, OnOk, OnErr, is_some, map, string_bytes, ◌⊎◌};
ghost use Rattle.std.specs.Io.KnownBytes.{Appends};
ghost use lib.Chars.{codes};
ghost use Rattle.cite_command.specs.Jobs.{IsJob, job_view};
ghost use Rattle.cite_command.specs.declared.program.RunFault.TheVariants as faults;
ghost use Rattle.programs.specs.Files.{read_at};
ghost use Rattle.programs.specs.Programs.{IsUntouched, Says, no_memory};
ghost use Rattle.interop.specs.Views.{fault_view};
ghost use Rattle.std.specs.Option.{option_map};
ghost use Rattle.rendering_style.specs.StyleViews.{style_view};
ghost use Rattle.cite_command.specs.Program.{asked, job_of, ServesJob, IsJobFault, Serves, CannotRead, IsFault, IsReason, line, fault_message, fault_lines, fault_text, error_message, message_of, said, format_named, style_named};
ghost use Rattle.cite_requests.specs.Refusals.{error_text};

use cite::cite_at_exit;
use cite_requests::CiteError;
use cite_styles::{author_date, english, note, numeric};
use interop::FieldFault;
use programs::{FileRead, ReadFault, bytes_at};
use rendering_output::BufWriteFormat;
use rendering_style::Style;
use sinks::Sink;
use std::alloc::{AllocError, Global};
use std::fmt;

/// The line where there is no memory to say more.
const NO_MEMORY: &str = "cite: out of memory\n";

/// Why the program ends with status 1 before it calls `cite`.
#[derive(Debug, Drop)]
enum RunFault<'w> {
    Usage,
    Style(&'w str),
    Format(&'w str),
    Path(&'w str),
    Memory,
}

impl From<AllocError> for RunFault<'_> {
    ghost from_gives = { λ _ f. f ≡ faults.Memory };

    fn from(_error: AllocError) -> Self {
        RunFault::Memory
    }
}

/// The message for the fault.
impl fmt::Display for RunFault<'_> {
    ghost output = { λ f. Some (fault_text f) };

    fn fmt<W: fmt::Write>(&self, f: &mut fmt::Formatter<W>) -> fmt::Result {
        match self {
            RunFault::Usage => f.write_str("usage: cite STYLE FORMAT BIB DOC [SECTION ..]"),
            RunFault::Style(style) => write!(f, "unknown style {style}"),
            RunFault::Format(format) => write!(f, "unknown format {format}"),
            RunFault::Path(path) => write!(f, "cannot read {path}"),
            RunFault::Memory => f.write_str("out of memory"),
        }
    }
}

/// The paths of the files that the words ask for: BIB and DOC, where style and format are known.
pub fn paths<'s, 'w>(words: &'s [&'w str]) -> &'s [&'w str]
    ensures { result.now ≡ asked words.now }
{
    match words {
        [style, format, _bib, _document, ..] if is_style(style) && format_named(format).is_some() =>
            { &words[2..4] }
        _ => &[],
    }
}

/// Runs the program: `STYLE FORMAT BIB DOC [SECTION ..]`, where STYLE is `numeric`, `author-date` or `note`, and FORMAT is `plain` or `html`. The output
/// goes to `out`, and the status is 0; or a line that begins `cite: ` and says why not goes to `err`, and the status is 1.
/// `files` are what was read of the paths that `paths` names; one that is missing cannot be read. Words, style and format are
/// looked at first, then the bib text's file, the document's, and then `cite` is called. A fault of `err` is passed over. It is the last
/// thing that a process does: most of what it took of memory is not given back.
pub fn run<O: Sink, E: Sink>(
    alloc: Global,
    words: &[&str],
    files: &[FileRead<'_>],
    out: &mut O,
    err: &mut E,
) -> u8
    ensures status { result ≤ 1 }
    // After the status 0 `out` has taken exactly the output of the files.
    ensures served { result ≡ 0 → Serves (read_at files.now) words.now (λ output.
        Appends (O.contents out.old) (O.contents out.new) output) }
    // After the status 1 `out` is as it was; or a write of the output failed, and a prefix of it stands.
    ensures untouched { result ≡ 1
        → IsUntouched (Serves (read_at files.now) words.now) out.old out.new
        (O.contents out.old) (O.contents out.new) (O.failures out.old) (O.failures out.new) }
    // Then `err` has taken the lines that say the first fault, or that memory ran out or the write failed; or it failed itself.
    ensures message { result ≡ 1 → Says (IsReason (IsFault (read_at files.now) words.now)
        (Serves (read_at files.now) words.now) (O.failures out.old) (O.failures out.new))
        (E.contents err.old) (E.contents err.new) (E.failures err.old) (E.failures err.new) }
    // After the status 0 `err` is as it was.
    ensures silent { result ≡ 0 → err.new ≡ err.old }
{
    match serve(alloc, words, files, out) {
        Ok(Ok(())) => 0,
        Ok(Err(error)) => {
            say(error_lines(alloc, &error), err);
            1
        }
        Err(fault) => {
            say(fault_line(alloc, &fault), err);
            1
        }
    }
}

/// Writes the lines that report the fault, or that there was no memory for them. A fault of `err` is ignored.
fn say<E: Sink>(lines: Result<String, AllocError>, err: &mut E)
    ensures { Says (λ message. message ≡ said lines)
        (E.contents err.old) (E.contents err.new) (E.failures err.old) (E.failures err.new) }
{
    match lines {
        Ok(text) => programs::say(text.as_bytes(), err),
        Err(_) => programs::say(NO_MEMORY.as_bytes(), err),
    }
}

/// The lines that report the error of `cite`: one for each field that cannot be read, of other errors one.
fn error_lines(alloc: Global, error: &CiteError) -> Result<String, AllocError>
    ensures { IfOk result (λ s. string_bytes s ≡ error_message error.now) }
{
    match error {
        CiteError::Fields(found) => field_lines(alloc, found),
        _ => error_line(alloc, error),
    }
}

/// A line for each field that cannot be read.
fn field_lines(alloc: Global, found: &[FieldFault]) -> Result<String, AllocError>
    ensures { IfOk result (λ s. string_bytes s ≡ fault_lines (map fault_view found.now)) }
{
    let mut written = String::new(alloc);
    for field in found {
        push_fault(&mut written, field)?;
    }
    Ok(written)
}

/// Appends the line of a field that cannot be read.
fn push_fault(written: &mut String, found: &FieldFault) -> Result<(), AllocError>
    ensures { OnOk result (string_bytes written.new
        ≡ string_bytes written.old ++ line (fault_message (fault_view found.now))) }
{
    written.push_str("cite: ")?;
    push_message(written, found)?;
    written.push('\n')
}

/// Appends the message for a field that cannot be read.
fn push_message(written: &mut String, found: &FieldFault) -> Result<(), AllocError>
    ensures { OnOk result (string_bytes written.new
        ≡ string_bytes written.old ++ fault_message (fault_view found.now)) }
{
    written.push_str("fields: ")?;
    written.push_str(found.key.as_str())?;
    written.push_str(": ")?;
    written.push_str(found.field.name())
}

/// The line that reports the error of `cite`.
fn error_line(alloc: Global, error: &CiteError) -> Result<String, AllocError>
    ensures { IfOk result (λ s. string_bytes s ≡ line (error_text error.now)) }
{
    let text = error.to_string(alloc)?;
    programs::line_of(alloc, "cite", text.as_str(), "")
}

/// The line that reports why `cite` was not called.
fn fault_line(alloc: Global, fault: &RunFault<'_>) -> Result<String, AllocError>
    ensures { IfOk result (λ s. string_bytes s ≡ message_of fault.now) }
{
    let text = fault.to_string(alloc)?;
    programs::line_of(alloc, "cite", text.as_str(), "")
}

/// What words ask for.
#[derive(Drop)]
struct Job<'w, 's> {
    style: Style,
    format: BufWriteFormat,
    bib: &'w str,
    document: &'w str,
    sections: &'s [&'w str],
}

/// What the words ask for, or why they ask for nothing.
fn read_words<'w, 's>(alloc: Global, words: &'s [&'w str]) -> Result<Job<'w, 's>, RunFault<'w>>
    ensures { IsJob result (job_of words.now) }
{
    let [style, format, bib, document, sections @ ..] = words else {
        return Err(RunFault::Usage);
    };
    let Some(known) = style_named(alloc, style)? else {
        return Err(RunFault::Style(style));
    };
    let Some(format) = format_named(format) else {
        return Err(RunFault::Format(format));
    };
    Ok(Job {
        style: known,
        format,
        bib,
        document,
        sections,
    })
}

/// What `cite` returns for the words, or why it is not called.
fn serve<'w, O: Sink>(
    alloc: Global,
    words: &[&'w str],
    files: &[FileRead<'_>],
    out: &mut O,
) -> Result<Result<(), CiteError>, RunFault<'w>>
    ensures served { IfOk result (λ cited.
        OnOk cited (Serves (read_at files.now) words.now (λ output.
        Appends (O.contents out.old) (O.contents out.new) output))) }
    ensures untouched { IfOk result (λ cited. OnErr cited
        (IsUntouched (Serves (read_at files.now) words.now) out.old out.new
        (O.contents out.old) (O.contents out.new) (O.failures out.old) (O.failures out.new))) }
    ensures refused { IfOk result (λ cited. IfErr cited (λ e.
        IsReason (IsFault (read_at files.now) words.now) (Serves (read_at files.now) words.now)
        (O.failures out.old) (O.failures out.new) (error_message e))) }
    ensures unused { OnErr result (out.new ≡ out.old) }
    ensures fault { IfErr result (λ f. IsFault (read_at files.now) words.now (message_of f)
        ⊎ (message_of f ≡ no_memory (codes "cite"))) }
{
    let job = read_words(alloc, words)?;
    cite_files(alloc, &job, files, out)
}

/// What `cite` returns for the files of a job, or why it is not called. Most of what it took of memory is not given back.
fn cite_files<'w, O: Sink>(
    alloc: Global,
    job: &Job<'w, '_>,
    files: &[FileRead<'_>],
    out: &mut O,
) -> Result<Result<(), CiteError>, RunFault<'w>>
    ensures served { IfOk result (λ cited. OnOk cited
        (ServesJob (read_at files.now) (Ok (job_view job.now)) (λ output.
        Appends (O.contents out.old) (O.contents out.new) output))) }
    ensures untouched { IfOk result (λ cited. OnErr cited
        (IsUntouched (ServesJob (read_at files.now) (Ok (job_view job.now))) out.old out.new
        (O.contents out.old) (O.contents out.new) (O.failures out.old) (O.failures out.new))) }
    ensures refused { IfOk result (λ cited. IfErr cited (λ e.
        IsReason (IsJobFault (read_at files.now) (Ok (job_view job.now)))
        (ServesJob (read_at files.now) (Ok (job_view job.now)))
        (O.failures out.old) (O.failures out.new) (error_message e))) }
    ensures unused { OnErr result (out.new ≡ out.old) }
    ensures fault { IfErr result (λ f.
        IsJobFault (read_at files.now) (Ok (job_view job.now)) (message_of f)
        ⊎ (message_of f ≡ no_memory (codes "cite"))) }
{
    let bib = read(files, job.bib)?;
    let document = read(files, job.document)?;
    let locale = english(alloc)?;
    Ok(cite_at_exit(
        alloc,
        bib,
        document,
        &job.style,
        &locale,
        job.sections,
        job.format,
        out,
    ))
}

fn is_style(name: &str) -> bool
    ensures { result ≡ is_some (style_named name.now) }
{
    matches!(name, "numeric" | "author-date" | "note")
}

fn style_named(alloc: Global, name: &str) -> Result<Option<Style>, AllocError>
    ensures { IfOk result (λ s. option_map style_view s ≡ style_named name.now) }
{
    match name {
        "numeric" => Ok(Some(numeric(alloc)?)),
        "author-date" => Ok(Some(author_date(alloc)?)),
        "note" => Ok(Some(note(alloc)?)),
        _ => Ok(None),
    }
}

fn format_named(name: &str) -> Option<BufWriteFormat>
    ensures { result ≡ format_named name.now }
{
    match name {
        "plain" => Some(BufWriteFormat::Plain),
        "html" => Some(BufWriteFormat::Html),
        _ => None,
    }
}

/// The bytes that were read at the path.
fn read<'f, 'w>(files: &'f [FileRead<'_>], path: &'w str) -> Result<&'f [u8], RunFault<'w>>
    ensures bytes { IfOk result (λ bytes. read_at files.now path.now ≡ Ok bytes.now) }
    ensures fault { IfErr result (λ f. CannotRead (read_at files.now path.now) path.now
        (message_of f) ⊎ (message_of f ≡ no_memory (codes "cite"))) }
{
    match bytes_at(files, path) {
        Ok(bytes) => Ok(bytes),
        Err(ReadFault::Memory) => Err(RunFault::Memory),
        Err(ReadFault::Unreadable) => Err(RunFault::Path(path)),
    }
}
