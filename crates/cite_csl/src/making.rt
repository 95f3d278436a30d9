//! What a run comes to.

ghost use Rattle.std.specs.Prelude.{◌≡◌, map, Ok, IfOk, string_bytes};
ghost use Rattle.std.specs.Option.{option_map, option_or};
ghost use Rattle.programs.specs.Files.{read_at};
ghost use Rattle.laws.specs.Borrowed.{borrowed};
ghost use Rattle.cite_csl_styles.specs.Answers.{Answers, Returns};
ghost use Rattle.rendering_locale.specs.Views.{locale_view};
ghost use Rattle.rendering_style.specs.StyleViews.{style_view};
ghost use Rattle.cite_csl.specs.Run as run;
ghost use Rattle.cite_csl.specs.Run.{IsMade, IsMadeOf, IsMadeIn, IsOutput, IsOutputIn, output_for, strict, told_of};
ghost use Rattle.cite_csl_styles.specs.FeatureLines.{feature_lines};
ghost use Rattle.cite_csl_styles.specs.Sheets.{IsCslRead, IsFound, IsSheetOf, sorting_of};
ghost use Rattle.cite_csl_styles.specs.Sources as sources;
ghost use Rattle.cite_csl_styles.specs.Sources.{AreRead};
ghost use Rattle.cite_csl_command.specs.Views.{asked_view};
ghost use Rattle.cite_csl.specs.Views.{made_view, works_view};
ghost use Rattle.cite_csl_styles.specs.Views.{found_view, sheet_view, source_view};
ghost use Rattle.cite_markers.specs.Views.{document_view};
ghost use Rattle.cite_order.specs.Views.{setting_view};
ghost use Rattle.cite_output.specs.Pieces.{output_of};

use crate::bib::entries_of;
use crate::document::{ReadDocument, read_document};
use crate::engine::render;
use crate::entries::Entries;
use cite_csl_command::Asked;
use cite_csl_styles::{
    Found, Sheet, Stop, feature_lines, file_at, files_at, locales_of, paths_for, sheet_of,
    term_lines, unread_lines,
};
use cite_order::SortedSetting;
use cite_output::Output;
use programs::FileRead;
use rendering_locale::Locale;
use std::alloc::{AllocError, Global};

/// What a run writes, and what it says besides.
#[derive(Drop)]
pub(crate) struct Made<'d> {
    pub(crate) output: Output<'d>,
    pub(crate) told: String,
}

/// The paths of the files that are asked for: the style, the locales, the bib texts, the document.
///
/// # Errors
/// Where a request for memory was refused.
pub fn paths<'w>(alloc: Global, asked: &Asked<'w>) -> Result<Vec<&'w str>, AllocError>
    ensures { IfOk result (λ v. borrowed v.items ≡ run.paths (asked_view asked.now)) }
{
    let mut all = Vec::new(alloc);
    all.push(asked.style)?;
    all.extend_from_slice(asked.locales.as_slice())?;
    all.extend_from_slice(asked.bibs.as_slice())?;
    all.push(asked.document)?;
    Ok(all)
}

/// All files that are asked for were read, or it is said which were not.
fn read_check(alloc: Global, asked: &Asked<'_>, files: &[FileRead<'_>]) -> Result<(), Stop>
    ensures { Answers (λ _. tt) result (AreRead (read_at files.now)
        (run.paths (asked_view asked.now))) }
{
    let paths = paths(alloc, asked)?;
    let unread = unread_lines(alloc, files, paths.as_slice())?;
    if unread.is_empty() {
        Ok(())
    } else {
        Err(Stop::Refused(unread))
    }
}

/// The lines for what a style asks for and is not carried out; where that is refused they are why.
fn strict(alloc: Global, is_strict: bool, sheet: &Sheet<'_>) -> Result<String, Stop>
    ensures lines { IfOk result (λ s. string_bytes s ≡ feature_lines (sheet_view sheet.now)) }
    ensures stop { Returns (λ _. sheet_view sheet.now) result
        (strict is_strict (sheet_view sheet.now)) }
{
    let lines = feature_lines(alloc, sheet)?;
    if is_strict && !lines.is_empty() {
        return Err(Stop::Refused(lines));
    }
    Ok(lines)
}

/// The language that is asked for, or else that of a dependent style.
fn lang_of<'a>(asked: Option<&'a str>, sheet: &'a Sheet<'_>) -> Option<&'a str>
    ensures { option_map (λ s. s.now) result
        ≡ option_or (option_map (λ s. s.now) asked.entry) (sheet_view sheet.entry.now).lang }
{
    match (asked, &sheet.lang) {
        (Some(code), _) => Some(code),
        (None, Some(code)) => Some(code.0.as_str()),
        (None, None) => None,
    }
}

/// What is said of a style besides: these lines, for what is not carried out, and then those for the terms that it prints and no locale has.
fn told_of(
    alloc: Global,
    asked: &Asked<'_>,
    sheet: &Sheet<'_>,
    locales: &[Locale],
    mut lines: String,
) -> Result<String, AllocError>
    requires { string_bytes lines ≡ feature_lines (sheet_view sheet.now) }
    ensures { IfOk result (λ s. string_bytes s ≡ told_of (asked_view asked.now)
        (sheet_view sheet.now) (map locale_view locales.now)) }
{
    let terms = term_lines(alloc, sheet, lang_of(asked.lang, sheet), locales)?;
    lines.push_str(terms.as_str())?;
    Ok(lines)
}

/// The output for a document that is read.
fn output_of<'d>(
    alloc: Global,
    read: ReadDocument<'d>,
    entries: &Entries,
    setting: SortedSetting<'_>,
    asked: &Asked<'_>,
) -> Result<Output<'d>, Stop>
    ensures { Returns output_of result (output_for (asked_view asked.now)
        (source_view read.entry.file) (setting_view setting.entry) (works_view entries.now)
        (document_view read.entry.document)) }
{
    let rendered = render(alloc, entries, setting, &read, asked.sections.as_slice())?;
    Ok(Output {
        document: read.document,
        rendered,
        format: asked.format,
    })
}

/// The output for the document that is asked for, by the entries of the bib texts.
fn document_output<'f>(
    alloc: Global,
    asked: &Asked<'f>,
    files: &'f [FileRead<'_>],
    entries: &Entries,
    setting: SortedSetting<'_>,
) -> Result<Output<'f>, Stop>
    ensures { Returns output_of result (run.output_of (asked_view asked.now)
        (sources.file_at (read_at files.entry.now) (asked_view asked.now).document)
        (setting_view setting.entry) (works_view entries.now)) }
{
    let read = read_document(alloc, file_at(files, asked.document))?;
    output_of(alloc, read, entries, setting, asked)
}

/// The output in a style and with locales.
fn output_with<'f>(
    alloc: Global,
    asked: &Asked<'f>,
    files: &'f [FileRead<'_>],
    setting: SortedSetting<'_>,
) -> Result<Output<'f>, Stop>
    ensures { Answers output_of result (IsOutputIn (read_at files.entry.now)
        (asked_view asked.now) (setting_view setting.entry)) }
{
    let bibs = files_at(alloc, files, asked.bibs.as_slice())?;
    let entries = entries_of(alloc, bibs.as_slice())?;
    document_output(alloc, asked, files, &entries, setting)
}

/// The output in a style, whose locales are read first, and what is said besides; these lines are for what is not carried out.
fn output_in<'f>(
    alloc: Global,
    asked: &Asked<'f>,
    files: &'f [FileRead<'_>],
    sheet: &Sheet<'_>,
    lines: String,
) -> Result<Made<'f>, Stop>
    requires sorting { style_view sheet.now.sorting ≡ sorting_of (sheet_view sheet.now) }
    requires lines { string_bytes lines ≡ feature_lines (sheet_view sheet.now) }
    ensures { Answers made_view result (IsOutput (read_at files.entry.now)
        (asked_view asked.now) (sheet_view sheet.now)) }
{
    let locale_files = files_at(alloc, files, asked.locales.as_slice())?;
    let locales = locales_of(alloc, &sheet.words, locale_files.as_slice())?;
    let setting = SortedSetting {
        style: &sheet.style,
        sorting: &sheet.sorting,
        lang: lang_of(asked.lang, sheet),
        locales: locales.as_slice(),
    };
    let output = output_with(alloc, asked, files, setting)?;
    let told = told_of(alloc, asked, sheet, locales.as_slice(), lines)?;
    Ok(Made { output, told })
}

/// What a run comes to in a style that is found.
fn make_in<'f>(
    alloc: Global,
    asked: &Asked<'f>,
    files: &'f [FileRead<'_>],
    sheet: &Sheet<'_>,
) -> Result<Made<'f>, Stop>
    requires { style_view sheet.now.sorting ≡ sorting_of (sheet_view sheet.now) }
    ensures { Answers made_view result (IsMadeIn (read_at files.entry.now)
        (asked_view asked.now) (sheet_view sheet.now)) }
{
    let told = strict(alloc, asked.is_strict, sheet)?;
    output_in(alloc, asked, files, sheet, told)
}

/// The style of a file: its own, or that of its parent among the files.
fn sheet_in<'f>(
    alloc: Global,
    files: &'f [FileRead<'_>],
    found: Found<'f>,
) -> Result<Sheet<'f>, Stop>
    requires { IsFound (found_view found) }
    ensures sheet { Answers sheet_view result (IsSheetOf (read_at files.entry.now)
        (found_view found.entry) (found_view found.entry).means) }
    ensures sorting { IfOk result (λ s. style_view s.sorting ≡ sorting_of (sheet_view s)) }
{
    let parents = paths_for(alloc, &found)?;
    sheet_of(alloc, files, found, &parents)
}

/// What a run comes to whose files are read, by what the file of its style was found to be.
fn make_of<'f>(
    alloc: Global,
    asked: &Asked<'f>,
    files: &'f [FileRead<'_>],
    found: Found<'f>,
) -> Result<Made<'f>, Stop>
    requires { IsCslRead (sources.file_at (read_at files.now) (asked_view asked.now).style)
        (Ok (found_view found)) }
    ensures { Answers made_view result
        (IsMadeOf (read_at files.entry.now) (asked_view asked.now)) }
{
    let sheet = sheet_in(alloc, files, found)?;
    make_in(alloc, asked, files, &sheet)
}

/// What a run comes to. What the file of the style was found to be is given.
pub(crate) fn make<'f>(
    alloc: Global,
    asked: &Asked<'f>,
    files: &'f [FileRead<'_>],
    found: Result<Found<'f>, Stop>,
) -> Result<Made<'f>, Stop>
    requires { Answers found_view found
        (IsCslRead (sources.file_at (read_at files.now) (asked_view asked.now).style)) }
    ensures { Answers made_view result (IsMade (read_at files.entry.now) (asked_view asked.now)) }
{
    read_check(alloc, asked, files)?;
    match found {
        Ok(found) => make_of(alloc, asked, files, found),
        Err(stop) => Err(stop),
    }
}
