//! The program over files that were read and any writers.

ghost use Rattle.std.specs.Prelude.{◌≡◌, ◌≤◌, ℕ, List, Err, codes, is_ok, true, map, string_bytes, IfErr, IfOk, OnOk};
ghost use Rattle.std.specs.Io.KnownBytes.{Appends};
ghost use Rattle.programs.specs.Files.{read_at};
ghost use Rattle.programs.specs.Programs.{IsUntouched, IsReason, Says, no_memory, not_written};
ghost use Rattle.laws.specs.Text.{spelled};
ghost use Rattle.sinks.specs.Sinks.{HasFailed, AppendsPrefix};
ghost use Rattle.cite_requests.specs.Answers as refusals;
ghost use Rattle.cite_requests.specs.Stages.{section_stage};
ghost use Rattle.cite_csl_styles.specs.Answers.{Answers, IsStop, stop_message, stop_status};
ghost use Rattle.cite_csl_styles.specs.Sheets.{IsCslRead};
ghost use Rattle.cite_csl_styles.specs.Sources.{file_at};
ghost use Rattle.cite_csl_styles.specs.Views.{found_view};
ghost use Rattle.cite_csl.specs.Run.{Serves, ServesOutput, IsCiteOutput, IsCommandFault, IsFault, sections_in};
ghost use Rattle.cite_csl_command.specs.Views.{asked_view};
ghost use Rattle.cite_csl.specs.Views.{made_view};

use crate::making::{Made, make};
use cite_csl_command::Asked;
use cite_csl_styles::{Found, Stop, line, refused};
use cite_requests::{CiteError, selectors};
use programs::{FileRead, say};
use sinks::Sink;
use std::alloc::{AllocError, Global};
use std::mem;

/// The line where there is no memory to say more.
const NO_MEMORY: &str = "cite_csl: out of memory\n";

/// The line where the output was not taken whole.
const NOT_WRITTEN: &str = "cite_csl: write failed\n";

/// The line for sections that are refused with this error.
fn section_line(alloc: Global, error: &CiteError) -> Result<String, AllocError>
    ensures { (sections : List (List ℕ))
        → refusals.IsRefusal error.now (λ a. section_stage sections ≡ a)
        → IfOk result (λ s. sections_in sections ≡ Err (string_bytes s)) }
{
    match error {
        CiteError::Memory => Err(AllocError),
        _ => {
            let why = error.to_string(alloc)?;
            line(alloc, why.as_str(), "")
        }
    }
}

/// The sections are selectors, or the line for the first that is none.
fn check_sections(alloc: Global, sections: &[&str]) -> Result<(), Stop>
    ensures ok { OnOk result (is_ok (sections_in (map spelled sections.now)) ≡ true) }
    ensures stop { IfErr result (λ e.
        IsStop e (λ answer. sections_in (map spelled sections.now) ≡ answer)) }
{
    match selectors(alloc, sections) {
        Ok(_) => Ok(()),
        Err(error) => Err(refused(section_line(alloc, &error))),
    }
}

/// Says that memory ran out.
fn say_memory<E: Sink>(err: &mut E)
    ensures { Says (λ message. message ≡ no_memory (codes "cite_csl")) (E.contents err.old)
        (E.contents err.new) (E.failures err.old) (E.failures err.new) }
{
    say(NO_MEMORY.as_bytes(), err);
}

/// Says why a run comes to nothing, and gives its status: 1 where memory ran out, else this one.
fn say_stop<E: Sink>(stop: &Stop, status: u8, err: &mut E) -> u8
    ensures status { result ≡ stop_status status stop.now }
    ensures said { Says (λ message. message ≡ stop_message stop.now) (E.contents err.old)
        (E.contents err.new) (E.failures err.old) (E.failures err.new) }
{
    match stop {
        Stop::Refused(lines) => {
            say(lines.as_bytes(), err);
            status
        }
        Stop::Memory => {
            say_memory(err);
            1
        }
    }
}

/// Writes what a run came to, and says what is not carried out and which terms no locale has.
fn write<O: Sink, E: Sink>(made: &Made<'_>, out: &mut O, err: &mut E) -> u8
    ensures status { result ≤ 1 }
    ensures served { result ≡ 0 → (Appends (O.contents out.old) (O.contents out.new)
        (made_view made.now).output) × (Says (λ message. message ≡ (made_view made.now).told)
        (E.contents err.old) (E.contents err.new) (E.failures err.old) (E.failures err.new)) }
    ensures cut_short { result ≡ 1 → (HasFailed (O.failures out.old) (O.failures out.new))
        × (AppendsPrefix (O.contents out.old) (O.contents out.new) (made_view made.now).output) }
    ensures message { result ≡ 1 → Says (λ message. message ≡ not_written (codes "cite_csl"))
        (E.contents err.old) (E.contents err.new) (E.failures err.old) (E.failures err.new) }
{
    match made.output.write_to(out) {
        Ok(()) => {
            say(made.told.as_bytes(), err);
            0
        }
        Err(_) => {
            say(NOT_WRITTEN.as_bytes(), err);
            1
        }
    }
}

/// Writes what a run came to as the last thing before the process ends: its memory is not given back.
fn write_last<O: Sink, E: Sink>(made: Made<'_>, out: &mut O, err: &mut E) -> u8
    ensures status { result ≤ 1 }
    ensures served { result ≡ 0 → (Appends (O.contents out.old) (O.contents out.new)
        (made_view made.entry).output) × (Says (λ message. message ≡ (made_view made.entry).told)
        (E.contents err.old) (E.contents err.new) (E.failures err.old) (E.failures err.new)) }
    ensures cut_short { result ≡ 1 → (HasFailed (O.failures out.old) (O.failures out.new))
        × (AppendsPrefix (O.contents out.old) (O.contents out.new) (made_view made.entry).output) }
    ensures message { result ≡ 1 → Says (λ message. message ≡ not_written (codes "cite_csl"))
        (E.contents err.old) (E.contents err.new) (E.failures err.old) (E.failures err.new) }
{
    let status = write(&made, out, err);
    mem::forget(made);
    status
}

/// Runs the program for what words ask for. The output goes to `out`, and the status is 0; then `err` takes a line for each thing that the style
/// asks for and is not carried out, and then for each term that it prints and no locale has. Or lines that say why there is no output go to `err`:
/// the status is 2 where a section is no selector, else 1.
/// `files` are what was read of the paths that `paths` and `paths_for` name; one that is missing cannot be read. `found` is what `found_in` gives for
/// the style among them: a caller who looks there for its parent reads the style once. A fault of `err` is passed over. It is the last thing
/// that a process does: most of what it took of memory is not given back.
pub fn run<'f, O: Sink, E: Sink>(
    alloc: Global,
    asked: &Asked<'f>,
    files: &'f [FileRead<'_>],
    found: Result<Found<'f>, Stop>,
    out: &mut O,
    err: &mut E,
) -> u8
    requires { Answers found_view found
        (IsCslRead (file_at (read_at files.now) (asked_view asked.now).style)) }
    ensures status { result ≤ 2 }
    // After the status 0 `out` has taken exactly the output, and `err` what is said besides.
    ensures served { result ≡ 0 → Serves (read_at files.entry.now) (asked_view asked.now)
        (λ made. (Appends (O.contents out.old) (O.contents out.new) made.output)
        × (Says (λ message. message ≡ made.told) (E.contents err.old) (E.contents err.new)
        (E.failures err.old) (E.failures err.new))) }
    // In a style without sort keys that output is the one of `cite` for the entries of the bib texts as one, with their texts as LaTeX prints
    // them, in the style and with the locales of the files; and the one for the bib texts where their texts are so already.
    ensures as_cite { result ≡ 0 → Serves (read_at files.entry.now) (asked_view asked.now)
        (λ made. (Appends (O.contents out.old) (O.contents out.new) made.output)
        × (IsCiteOutput (read_at files.entry.now) (asked_view asked.now) made.output)) }
    // After the status 1 `err` has taken exactly the lines of the faults, or that memory ran out or the write failed.
    ensures message { result ≡ 1 → Says (IsReason (codes "cite_csl")
        (IsFault (read_at files.entry.now) (asked_view asked.now))
        (ServesOutput (read_at files.entry.now) (asked_view asked.now))
        (O.failures out.old) (O.failures out.new))
        (E.contents err.old) (E.contents err.new) (E.failures err.old) (E.failures err.new) }
    // After the status 2 it has taken the line for the section.
    ensures command { result ≡ 2 → Says (IsCommandFault (asked_view asked.now))
        (E.contents err.old) (E.contents err.new) (E.failures err.old) (E.failures err.new) }
    // Then `out` is as it was; after the status 1 it is, or a write of the output failed, and a prefix of it stands.
    ensures untouched { result ≡ 1
        → IsUntouched (ServesOutput (read_at files.entry.now) (asked_view asked.now))
        out.old out.new (O.contents out.old) (O.contents out.new)
        (O.failures out.old) (O.failures out.new) }
    ensures unused { result ≡ 2 → out.new ≡ out.old }
{
    if let Err(stop) = check_sections(alloc, asked.sections.as_slice()) {
        return say_stop(&stop, 2, err);
    }
    match make(alloc, asked, files, found) {
        Ok(made) => write_last(made, out, err),
        Err(stop) => say_stop(&stop, 1, err),
    }
}
