//! What the words of a command line ask for.

ghost use Rattle.std.specs.Prelude.{◌≡◌, codes, Some, IfOk};
ghost use Rattle.laws.specs.Borrowed.{borrowed};
ghost use Rattle.clap.specs.Words.{first_of, found_of, rows_of};
ghost use Rattle.cite_csl_command.specs.Command as specs;
ghost use Rattle.cite_csl_command.specs.declared.asked.CommandFault.TheVariants as faults;
ghost use Rattle.cite_csl_command.specs.Views.{IsAskedBy, IsAskedIn, IsFormatOf};

use crate::command::command;
use clap::{ArgMatches, Error};
use programs::line_of;
use rendering_output::BufWriteFormat;
use std::alloc::{AllocError, Global};

/// What words ask for.
#[derive(Drop)]
pub struct Asked<'w> {
    /// The path of the style.
    pub style: &'w str,
    /// The paths of locales.
    pub locales: Vec<&'w str>,
    /// The code of the language that is asked for.
    pub lang: Option<&'w str>,
    pub format: BufWriteFormat,
    /// The paths of bib texts.
    pub bibs: Vec<&'w str>,
    /// Selectors: the entries that each chooses come first in the bibliography.
    pub sections: Vec<&'w str>,
    /// Whether a style is refused that asks for what is not carried out.
    pub is_strict: bool,
    /// The path of the document.
    pub document: &'w str,
}

/// Why words ask for nothing.
#[derive(Drop)]
pub enum CommandFault {
    /// They are not those of the command; or they ask for its help or its version.
    Words(Error),
    /// The format is another one; this line says so.
    Format(String),
    /// A request for memory was refused.
    Memory,
}

impl From<AllocError> for CommandFault {
    ghost from_gives = { λ _ e. e ≡ faults.Memory };

    fn from(_error: AllocError) -> CommandFault {
        CommandFault::Memory
    }
}

/// The format of a name.
fn format_named(name: &str) -> Option<BufWriteFormat>
    ensures { result ≡ specs.format_named name.now }
{
    match name {
        "plain" => Some(BufWriteFormat::Plain),
        "html" => Some(BufWriteFormat::Html),
        _ => None,
    }
}

/// The format of a name, or the line that says that there is none.
fn known_format(alloc: Global, name: &str) -> Result<BufWriteFormat, CommandFault>
    ensures { IsFormatOf result (Some name.now) }
{
    match format_named(name) {
        Some(format) => Ok(format),
        None => {
            let line = line_of(alloc, "cite_csl", "unknown format ", name)?;
            Err(CommandFault::Format(line))
        }
    }
}

/// The format that is asked for; plain where none is.
fn format_in(alloc: Global, matches: &ArgMatches<'_>) -> Result<BufWriteFormat, CommandFault>
    ensures { IsFormatOf result (first_of (codes "to") (rows_of (found_of matches.now))) }
{
    match matches.get_str("to") {
        Some(name) => known_format(alloc, name),
        None => Ok(BufWriteFormat::Plain),
    }
}

/// The value of an option that is there.
fn value<'w>(matches: &ArgMatches<'w>, name: &str) -> &'w str
    ensures { result.now ≡ specs.value name.now (rows_of (found_of matches.now)) }
{
    match matches.get_str(name) {
        Some(value) => value,
        None => "",
    }
}

/// The values of an option.
fn values<'w>(
    alloc: Global,
    matches: &ArgMatches<'w>,
    name: &str,
) -> Result<Vec<&'w str>, AllocError>
    ensures { IfOk result (λ v. borrowed v.items
        ≡ specs.values name.now (rows_of (found_of matches.now))) }
{
    match matches.get_strs(name) {
        Some(given) => given.to_vec(alloc),
        None => Ok(Vec::new(alloc)),
    }
}

/// Whether a flag is given.
fn is_given(matches: &ArgMatches<'_>, name: &str) -> bool
    ensures { result ≡ specs.is_given name.now (rows_of (found_of matches.now)) }
{
    match matches.get_one::<bool>(name) {
        Some(given) => given,
        None => false,
    }
}

/// What the matches of the command ask for.
fn asked_in<'w>(alloc: Global, matches: &ArgMatches<'w>) -> Result<Asked<'w>, CommandFault>
    ensures { IsAskedIn result (rows_of (found_of matches.now)) }
{
    let format = format_in(alloc, matches)?;
    let locales = values(alloc, matches, "locale")?;
    let bibs = values(alloc, matches, "bib")?;
    let sections = values(alloc, matches, "section")?;
    Ok(Asked {
        style: value(matches, "style"),
        locales,
        lang: matches.get_str("lang"),
        format,
        bibs,
        sections,
        is_strict: is_given(matches, "strict"),
        document: value(matches, "document"),
    })
}

/// What the words of a command line ask for, the name of the program first.
///
/// # Errors
/// `Words` where they are not those of the command, or ask for its help or version; `Format` where the format is another one; `Memory`.
pub fn asked_by<'w>(alloc: Global, words: &'w [&'w str]) -> Result<Asked<'w>, CommandFault>
    ensures { IsAskedBy result (borrowed words.entry.now) }
{
    let command = command(alloc)?;
    match command.try_get_matches_from(words) {
        Ok(matches) => asked_in(alloc, &matches),
        Err(error) => Err(CommandFault::Words(error)),
    }
}
