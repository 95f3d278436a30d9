//! The program over files that were read and any writers: words in, entries or a fault out.

ghost use Rattle.std.specs.Prelude.{◌≡◌, ◌≤◌, ◌++◌, None, Ok, IfOk, IfErr, OnOk, OnErr, string_bytes, codes, ◌⊎◌};
ghost use Rattle.std.specs.Option.{option_copied};
ghost use Rattle.std.specs.Str.{chars};
ghost use Rattle.std.specs.Io.KnownBytes.{Appends};
ghost use Rattle.programs.specs.Files.{read_at};
ghost use Rattle.programs.specs.Programs.{line, no_memory, IsUntouched, IsReason, Says};
ghost use Rattle.biblatex.specs.Errors.{reason_view, reason_text};
ghost use Rattle.biblatex.specs.Bibliographies.{listed_view};
ghost use Rattle.biblatex.specs.Entries.{source_view};
ghost use Rattle.biblatex.specs.Resolved.{TextMeans};
ghost use Rattle.biblatex_writing.specs.Flat.{flat};
ghost use Rattle.biblatex_writing.specs.Written.{written_file};
ghost use Rattle.source_positions.specs.Messages.{refusal_lines};
ghost use Rattle.bib_show.specs.Unsettled.{first_unsettled, unsettled_lines, IsFirstUnsettled};
ghost use Rattle.bib_show.specs.Program.{information, is_flat, is_option, asked, IsOutputOf, IsFileOutput, IsWordOutput, IsLoneOutput, IsFlatOutput, IsOutput, Serves, IsFaultOf, IsFileFault, IsWordFault, IsLoneFault, IsFlatFault, IsFault, message_of};
ghost use Rattle.bib_show.specs.declared.program.RunFault.TheVariants.{Memory};

use crate::shown::show;
use crate::unsettled::{first_unsettled, key_start, unsettled_reason};
use biblatex::{Bibliography, Entry, ParseError, ParseErrorKind};
use programs::{FileRead, ReadFault, bytes_at, line_of, say};
use sinks::{Sink, write_all};
use source_positions::refusal_lines;
use std::alloc::{AllocError, Global};

/// The name of the program.
const PROGRAM: &str = "bib_show";

/// The text of `--help`.
const HELP: &str = "\
usage: bib_show [--flat] FILE
       bib_show --help | --version

Shows the entries of the BibLaTeX file FILE, their references resolved: for each
entry a line with its type and its key, and a line for each of its fields. With
--flat it writes them as a BibLaTeX file without crossref and xdata, if none has
aliases (ids) and each field reads back. Of a file that is refused it shows the
line and the column of the first fault.

Exit status: 0 if everything was written to standard output, else 1; then
standard error says why.
";

/// The text of `--version`.
const VERSION: &str = "bib_show 0.1.0\n";

/// The line where there is no memory to say more.
const NO_MEMORY: &str = "bib_show: out of memory\n";

/// What is written of the entries of a file.
#[derive(Clone, Copy)]
enum Form {
    /// A line for each entry and each field.
    Shown,
    /// A BibLaTeX file without references.
    Flat,
}

/// Why the program ends with status 1.
#[derive(Drop)]
enum RunFault<'w> {
    Usage,
    Path(&'w str),
    Memory,
    Write,
    /// The source is refused, or its entries would not read back, of which these lines are the message.
    Refused(String),
}

impl From<AllocError> for RunFault<'_> {
    ghost from_gives = { λ _ e. e ≡ Memory };

    fn from(_error: AllocError) -> Self {
        RunFault::Memory
    }
}

/// The paths of the files that the words ask for: the one word, unless it is an option; or the one after `--flat`.
pub fn paths<'s, 'w>(words: &'s [&'w str]) -> &'s [&'w str]
    ensures { result.now ≡ asked words.now }
{
    match words {
        [word] => { if is_option(word) { &[] } else { words } }
        [word, _] => { if is_flat(word) { &words[1..] } else { &[] } }
        _ => &[],
    }
}

/// Whether the word is an option.
fn is_option(word: &str) -> bool
    ensures { result ≡ is_option word.now }
{
    is_flat(word) || information(word).is_some()
}

/// Whether the word is `--flat`.
fn is_flat(word: &str) -> bool
    ensures { result ≡ is_flat word.now }
{
    word == "--flat"
}

/// Runs the program: `FILE`, `--flat FILE`, `--help` or `--version`. The entries of the file, their references resolved, shown or as a
/// BibLaTeX file, or the text of the option go to `out`, and the status is 0; or lines that say why not go to `err`, and the status is 1:
/// of a file that is refused, or whose entries would not read back, `FILE:LINE:COLUMN:` and why, the line, and a caret below the position,
/// else one line that begins `bib_show: `. `files` are what was read of the paths that `paths` names; one that is missing cannot be read.
/// A fault of `err` is passed over.
pub fn run<O: Sink, E: Sink>(
    alloc: Global,
    words: &[&str],
    files: &[FileRead<'_>],
    out: &mut O,
    err: &mut E,
) -> u8
    // After the status 0 `err` is as it was.
    ensures silent { result ≡ 0 → err.new ≡ err.old }
    // After the status 1 `err` has taken the message for the fault, or that memory ran out or the write failed; or it failed itself.
    ensures message { result ≡ 1
        → Says (IsReason (codes "bib_show") (IsFault (read_at files.now) words.now)
        (Serves (read_at files.now) words.now) (O.failures out.old) (O.failures out.new))
        (E.contents err.old) (E.contents err.new) (E.failures err.old) (E.failures err.new) }
    // Then `out` is as it was; or a write of the output failed, and a prefix of it stands.
    ensures untouched { result ≡ 1
        → IsUntouched (Serves (read_at files.now) words.now) out.old out.new
        (O.contents out.old) (O.contents out.new) (O.failures out.old) (O.failures out.new) }
    // After the status 0 `out` has taken exactly the text of the option, or what is shown or written of the entries that the file means.
    ensures served { result ≡ 0 → Serves (read_at files.now) words.now (λ output.
        Appends (O.contents out.old) (O.contents out.new) output) }
    ensures status { result ≤ 1 }
{
    match serve(alloc, words, files, out) {
        Ok(()) => 0,
        Err(fault) => {
            say_fault(alloc, fault, err);
            1
        }
    }
}

/// Writes the message for the fault to `err`. A fault of `err` is ignored.
fn say_fault<E: Sink>(alloc: Global, fault: RunFault<'_>, err: &mut E)
    ensures { Says
        (λ message. (message ≡ message_of fault.entry) ⊎ (message ≡ no_memory (codes "bib_show")))
        (E.contents err.old) (E.contents err.new) (E.failures err.old) (E.failures err.new) }
{
    match lines_of(alloc, fault) {
        Ok(lines) => say(lines.as_bytes(), err),
        Err(_) => say(NO_MEMORY.as_bytes(), err),
    }
}

/// The message for a fault.
fn lines_of(alloc: Global, fault: RunFault<'_>) -> Result<String, AllocError>
    ensures { IfOk result (λ lines. string_bytes lines ≡ message_of fault.entry) }
{
    match fault {
        RunFault::Usage => line_of(alloc, PROGRAM, "usage: bib_show [--flat] FILE", ""),
        RunFault::Path(path) => line_of(alloc, PROGRAM, "cannot read ", path),
        RunFault::Memory => line_of(alloc, PROGRAM, "out of memory", ""),
        RunFault::Write => line_of(alloc, PROGRAM, "write failed", ""),
        RunFault::Refused(lines) => Ok(lines),
    }
}

/// Writes the output, or returns the fault.
fn serve<'w, O: Sink>(
    alloc: Global,
    words: &[&'w str],
    files: &[FileRead<'_>],
    out: &mut O,
) -> Result<(), RunFault<'w>>
    ensures fault { IfErr result (λ f. IsReason (codes "bib_show")
        (IsFault (read_at files.now) words.now) (Serves (read_at files.now) words.now)
        (O.failures out.old) (O.failures out.new) (message_of f)) }
    ensures served { OnOk result (Serves (read_at files.now) words.now (λ output.
        Appends (O.contents out.old) (O.contents out.new) output)) }
    ensures untouched { OnErr result
        (IsUntouched (Serves (read_at files.now) words.now) out.old out.new
        (O.contents out.old) (O.contents out.new) (O.failures out.old) (O.failures out.new)) }
{
    let output = output_of(alloc, words, files)?;
    match write_all(out, output.as_bytes()) {
        Ok(()) => Ok(()),
        Err(_) => Err(RunFault::Write),
    }
}

/// What is to be written for the words.
fn output_of<'w>(
    alloc: Global,
    words: &[&'w str],
    files: &[FileRead<'_>],
) -> Result<String, RunFault<'w>>
    ensures output { IfOk result (λ s. IsOutput (read_at files.now) words.now (string_bytes s)) }
    ensures fault { IfErr result (λ f. IsFault (read_at files.now) words.now (message_of f)
        ⊎ (message_of f ≡ no_memory (codes "bib_show"))) }
{
    match words {
        [word] => lone_output(alloc, word, files),
        [word, path] => flat_output(alloc, word, path, files),
        _ => Err(RunFault::Usage),
    }
}

/// What is to be written for one word.
fn lone_output<'w>(
    alloc: Global,
    word: &'w str,
    files: &[FileRead<'_>],
) -> Result<String, RunFault<'w>>
    ensures output { IfOk result (λ s. IsLoneOutput (is_flat word.now)
        (information word.now) (read_at files.now word.now) (string_bytes s)) }
    ensures fault { IfErr result (λ f. IsLoneFault (is_flat word.now)
        (information word.now) word.now (read_at files.now word.now) (message_of f)
        ⊎ (message_of f ≡ no_memory (codes "bib_show"))) }
{
    if is_flat(word) {
        return Err(RunFault::Usage);
    }
    word_output(alloc, word, files)
}

/// What is to be written for a word and a path.
fn flat_output<'w>(
    alloc: Global,
    word: &str,
    path: &'w str,
    files: &[FileRead<'_>],
) -> Result<String, RunFault<'w>>
    ensures output { IfOk result (λ s.
        IsFlatOutput (is_flat word.now) (read_at files.now path.now) (string_bytes s)) }
    ensures fault { IfErr result (λ f. IsFlatFault (is_flat word.now)
        path.now (read_at files.now path.now) (message_of f)
        ⊎ (message_of f ≡ no_memory (codes "bib_show"))) }
{
    if is_flat(word) {
        file_output(alloc, Form::Flat, path, files)
    } else {
        Err(RunFault::Usage)
    }
}

/// What is to be written for a word that is not `--flat`.
fn word_output<'w>(
    alloc: Global,
    word: &'w str,
    files: &[FileRead<'_>],
) -> Result<String, RunFault<'w>>
    ensures output { IfOk result (λ s.
        IsWordOutput (information word.now) (read_at files.now word.now) (string_bytes s)) }
    ensures fault { IfErr result (λ f.
        IsWordFault (information word.now) word.now (read_at files.now word.now) (message_of f)
        ⊎ (message_of f ≡ no_memory (codes "bib_show"))) }
{
    match information(word) {
        Some(text) => Ok(String::from_str(alloc, text)?),
        None => file_output(alloc, Form::Shown, word, files),
    }
}

/// The text that the word asks for, if it is an option.
fn information(word: &str) -> Option<&'static str>
    ensures { option_copied result ≡ information word.now }
{
    match word {
        "--help" => Some(HELP),
        "--version" => Some(VERSION),
        _ => None,
    }
}

/// What is written of the file at the path.
fn file_output<'w>(
    alloc: Global,
    form: Form,
    path: &'w str,
    files: &[FileRead<'_>],
) -> Result<String, RunFault<'w>>
    ensures output { IfOk result (λ s.
        IsFileOutput form (read_at files.now path.now) (string_bytes s)) }
    ensures fault { IfErr result (λ f. IsFileFault form path.now (read_at files.now path.now)
        (message_of f) ⊎ (message_of f ≡ no_memory (codes "bib_show"))) }
{
    match bytes_at(files, path) {
        Ok(source) => source_output(alloc, form, path, source),
        Err(ReadFault::Memory) => Err(RunFault::Memory),
        Err(ReadFault::Unreadable) => Err(RunFault::Path(path)),
    }
}

/// What is written of a source.
fn source_output<'w>(
    alloc: Global,
    form: Form,
    path: &str,
    source: &[u8],
) -> Result<String, RunFault<'w>>
    ensures output { IfOk result (λ s. IsOutputOf form source.now (string_bytes s)) }
    ensures fault { IfErr result (λ f. IsFaultOf form path.now source.now (message_of f)
        ⊎ (message_of f ≡ no_memory (codes "bib_show"))) }
{
    match str::from_utf8(source) {
        Ok(text) => text_output(alloc, form, path, text),
        Err(error) => Err(refused(alloc, path, source, error.valid_up_to(), "not UTF-8")),
    }
}

/// What is written of a text.
fn text_output<'w>(
    alloc: Global,
    form: Form,
    path: &str,
    text: &str,
) -> Result<String, RunFault<'w>>
    ensures output { IfOk result (λ s. IsOutputOf form text.now (string_bytes s)) }
    ensures fault { IfErr result (λ f. IsFaultOf form path.now text.now (message_of f)
        ⊎ (message_of f ≡ no_memory (codes "bib_show"))) }
{
    match Bibliography::parse(alloc, text) {
        Ok(bibliography) => entries_output(alloc, form, path, text, bibliography),
        Err(ParseError::Memory) => Err(RunFault::Memory),
        Err(ParseError::Refused { kind, span }) => {
            Err(text_fault(alloc, path, text, &kind, span.start))
        }
    }
}

/// What is written of the entries that a text means.
fn entries_output<'w>(
    alloc: Global,
    form: Form,
    path: &str,
    text: &str,
    bibliography: Bibliography,
) -> Result<String, RunFault<'w>>
    requires { TextMeans (chars text.now) (Ok (listed_view bibliography)) }
    ensures output { IfOk result (λ s. IsOutputOf form text.now (string_bytes s)) }
    ensures fault { IfErr result (λ f. IsFaultOf form path.now text.now (message_of f)
        ⊎ (message_of f ≡ no_memory (codes "bib_show"))) }
{
    match form {
        Form::Shown => Ok(show(alloc, &bibliography)?),
        Form::Flat => flat_file(alloc, path, text, bibliography),
    }
}

/// The entries of a text without references, as a file.
fn flat_file<'w>(
    alloc: Global,
    path: &str,
    text: &str,
    bibliography: Bibliography,
) -> Result<String, RunFault<'w>>
    ensures settled { OnOk result (first_unsettled 0 (flat bibliography.entries) ≡ None) }
    ensures written { IfOk result (λ s. string_bytes s ≡ written_file (flat bibliography.entries)) }
    ensures fault { IfErr result (λ f. IsFirstUnsettled path.now text.now
        (flat bibliography.entries) (message_of f)
        ⊎ (message_of f ≡ no_memory (codes "bib_show"))) }
{
    let mut flattened = bibliography;
    flattened.flatten();
    match first_unsettled(flattened.entries()) {
        Some((index, entry)) => Err(unsettled(alloc, path, text, index, entry)?),
        None => Ok(flattened.to_biblatex_string(alloc)?),
    }
}

/// The fault for the entry of the text at the index, which does not read back.
fn unsettled<'w>(
    alloc: Global,
    path: &str,
    text: &str,
    index: usize,
    entry: &Entry,
) -> Result<RunFault<'w>, AllocError>
    ensures { IfOk result (λ f. (message_of f
        ≡ unsettled_lines path.now text.now index (source_view entry.now))
        ⊎ (message_of f ≡ no_memory (codes "bib_show"))) }
{
    let at = key_start(alloc, text, index)?;
    let why = unsettled_reason(alloc, entry)?;
    Ok(refused(alloc, path, text.as_bytes(), at, why.as_str()))
}

/// The fault for a text that is refused with this error at a position.
fn text_fault<'w>(
    alloc: Global,
    path: &str,
    text: &str,
    kind: &ParseErrorKind,
    at: usize,
) -> RunFault<'w>
    ensures { (message_of result
        ≡ refusal_lines path.now text.now at (reason_text (reason_view kind.now)))
        ⊎ (message_of result ≡ no_memory (codes "bib_show")) }
{
    match kind.to_string(alloc) {
        Ok(why) => refused(alloc, path, text.as_bytes(), at, why.as_str()),
        Err(_) => RunFault::Memory,
    }
}

/// The fault for a source that is refused at a position.
fn refused<'w>(alloc: Global, path: &str, source: &[u8], at: usize, why: &str) -> RunFault<'w>
    ensures { (message_of result ≡ refusal_lines path.now source.now at why.now)
        ⊎ (message_of result ≡ no_memory (codes "bib_show")) }
{
    match refusal_lines(alloc, path, source, at, why) {
        Ok(lines) => RunFault::Refused(lines),
        Err(_) => RunFault::Memory,
    }
}
