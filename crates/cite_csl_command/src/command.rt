//! The command line: which options there are.

ghost use Rattle.std.specs.Prelude.{◌≡◌, codes, false, IfOk};
ghost use Rattle.clap.specs.Words.{app_of, rule_of};
ghost use Rattle.cite_csl_command.specs.Command.{cite_csl_app, document, flag, needed, repeated, shown, valued, with_choices, with_files};

use clap::{Arg, ArgAction, Command};
use std::alloc::{AllocError, Global};

/// An option with a value.
fn valued<'a>(alloc: Global, name: &'a str, value: &'a str, help: &'a str) -> Arg<'a>
    ensures rule { rule_of result ≡ shown (valued name.entry.now) }
    ensures local { result.global ≡ false }
{
    Arg::new(alloc, name)
        .long(name)
        .value_name(value)
        .help(help)
        .action(ArgAction::Set)
}

/// An option with a value that may be given several times.
fn repeated<'a>(alloc: Global, name: &'a str, value: &'a str, help: &'a str) -> Arg<'a>
    ensures rule { rule_of result ≡ shown (repeated name.entry.now) }
    ensures local { result.global ≡ false }
{
    Arg::new(alloc, name)
        .long(name)
        .value_name(value)
        .help(help)
        .action(ArgAction::Append)
}

/// The flag `--strict`.
fn strict<'a>(alloc: Global) -> Arg<'a>
    ensures rule { rule_of result ≡ flag (codes "strict") }
    ensures local { result.global ≡ false }
{
    Arg::new(alloc, "strict")
        .long("strict")
        .help("Refuse a style that asks for what is not carried out")
        .action(ArgAction::SetTrue)
}

/// The path of the document.
fn document<'a>(alloc: Global) -> Arg<'a>
    ensures rule { rule_of result ≡ document }
    ensures local { result.global ≡ false }
{
    Arg::new(alloc, "document")
        .value_name("DOC")
        .help("The document, a text with markers such as [@a; @b page 3]; - is standard input")
        .required(true)
        .action(ArgAction::Set)
}

/// The path of the style.
fn style<'a>(alloc: Global) -> Arg<'a>
    ensures rule { rule_of result ≡ needed (shown (valued (codes "style"))) }
    ensures local { result.global ≡ false }
{
    valued(
        alloc,
        "style",
        "STYLE.csl",
        "The style; of a dependent one the parent lies beside it or one folder up",
    )
    .required(true)
}

/// The paths of bib texts.
fn bibs<'a>(alloc: Global) -> Arg<'a>
    ensures rule { rule_of result ≡ needed (shown (repeated (codes "bib"))) }
    ensures local { result.global ≡ false }
{
    repeated(
        alloc,
        "bib",
        "FILE.bib",
        "A BibLaTeX file; several are read as one",
    )
    .required(true)
}

/// Adds the options that name files to the command.
fn with_files<'a>(alloc: Global, command: Command<'a>) -> Result<Command<'a>, AllocError>
    ensures app { IfOk result (λ c. app_of c ≡ with_files (app_of command.entry)) }
{
    let locale = repeated(
        alloc,
        "locale",
        "LOCALE.xml",
        "A locale; English where none is given",
    );
    command
        .arg(style(alloc))?
        .arg(locale)?
        .arg(bibs(alloc))?
        .arg(document(alloc))
}

/// Adds the options that say what is written to the command.
fn with_choices<'a>(alloc: Global, command: Command<'a>) -> Result<Command<'a>, AllocError>
    ensures app { IfOk result (λ c. app_of c ≡ with_choices (app_of command.entry)) }
{
    let lang = valued(
        alloc,
        "lang",
        "CODE",
        "The language, such as de-DE; that of the style where none is given",
    );
    let format = valued(
        alloc,
        "to",
        "FORMAT",
        "plain or html; plain where none is given",
    );
    let section = repeated(
        alloc,
        "section",
        "SELECTOR",
        "Which of the cited entries come first in the bibliography",
    );
    command
        .arg(lang)?
        .arg(format)?
        .arg(section)?
        .arg(strict(alloc))
}

/// The command with its options.
///
/// # Errors
/// Where a request for memory was refused.
pub(crate) fn command<'a>(alloc: Global) -> Result<Command<'a>, AllocError>
    ensures app { IfOk result (λ c. app_of c ≡ cite_csl_app) }
{
    let command = Command::new(alloc, "cite_csl").version("0.1.0").about(
        "Replaces the markers of a document by citations in the style of a CSL file, and writes the bibliography",
    );
    with_choices(alloc, with_files(alloc, command)?)
}
