//! Locales that are asked for.

ghost use Rattle.std.specs.Prelude.{map, Ok, OnOk, string_bytes};
ghost use Rattle.rendering_locale.specs.Views.{locale_view};
ghost use Rattle.xml_tree.specs.Views.{element_view};
ghost use Rattle.csl_nodes.specs.Views.{words_view};
ghost use Rattle.csl_locales.specs.Locales.{locale};
ghost use Rattle.cite_csl_styles.specs.Answers.{Answers, Returns};
ghost use Rattle.cite_csl_styles.specs.Sheets.{AreLocales, IsLocale};
ghost use Rattle.cite_csl_styles.specs.Stages.{Adds, Each};
ghost use Rattle.cite_csl_styles.specs.Views.{source_view, sources_view};

use crate::sheets::{found_at, root_at};
use crate::sources::{SourceFile, refused_left};
use crate::stop::Stop;
use cite_styles::english;
use csl_nodes::Words;
use csl_styles::Csl;
use csl_words::is_called;
use rendering_locale::Locale;
use std::alloc::{AllocError, Global};
use xml_tree::Element;

/// The locale of a root, by the words of a style.
fn localized(alloc: Global, words: &Words, root: &Element<'_>) -> Result<Locale, Stop>
    ensures { Returns locale_view result
        (Ok (locale (words_view words.now) (element_view root.now))) }
{
    Ok(csl_locales::locale(alloc, words, root)?)
}

/// The locale that a file is, by the words of a style. What it means by its own words is not made.
fn locale_of(alloc: Global, words: &Words, file: SourceFile<'_>) -> Result<Locale, Stop>
    ensures { Answers locale_view result
        (IsLocale (words_view words.now) (source_view file.entry)) }
{
    let root = root_at(alloc, file)?;
    if is_called("locale", &root) {
        return localized(alloc, words, &root);
    }
    locale_by_meaning(alloc, words, file)
}

/// The same, by what the file means.
fn locale_by_meaning(alloc: Global, words: &Words, file: SourceFile<'_>) -> Result<Locale, Stop>
    ensures { Answers locale_view result
        (IsLocale (words_view words.now) (source_view file.entry)) }
{
    let found = found_at(alloc, file)?;
    match &found.means {
        Csl::Localized { .. } => Ok(csl_locales::locale(alloc, words, &found.root)?),
        _ => Err(refused_left(alloc, found.file, found.root.left, "a style is no locale")),
    }
}

/// Appends the locale that a file is, or the lines that say why it is none.
fn push_locale(
    alloc: Global,
    words: &Words,
    file: SourceFile<'_>,
    locales: &mut Vec<Locale>,
    refused: &mut String,
) -> Result<(), AllocError>
    ensures { OnOk result (Adds (IsLocale (words_view words.now) (source_view file.entry))
        (map locale_view locales.old.items) (map locale_view locales.new.items)
        (string_bytes refused.old) (string_bytes refused.new)) }
{
    match locale_of(alloc, words, file) {
        Ok(locale) => Ok(locales.push(locale)?),
        Err(Stop::Refused(lines)) => refused.push_str(lines.as_str()),
        Err(Stop::Memory) => Err(AllocError),
    }
}

/// The locales that files are, by the words of a style.
fn all_locales(alloc: Global, words: &Words, files: &[SourceFile<'_>]) -> Result<Vec<Locale>, Stop>
    ensures { Answers (λ v. map locale_view v.items) result
        (Each (IsLocale (words_view words.now)) (sources_view files.now)) }
{
    let mut locales = Vec::new(alloc);
    let mut refused = String::new(alloc);
    for file in files {
        push_locale(alloc, words, *file, &mut locales, &mut refused)?;
    }
    if refused.is_empty() {
        Ok(locales)
    } else {
        Err(Stop::Refused(refused))
    }
}

/// The locales that files are, by the words of a style; English where there are none.
pub fn locales_of(
    alloc: Global,
    words: &Words,
    files: &[SourceFile<'_>],
) -> Result<Vec<Locale>, Stop>
    ensures { Answers (λ v. map locale_view v.items) result
        (AreLocales (words_view words.now) (sources_view files.now)) }
{
    if !files.is_empty() {
        return all_locales(alloc, words, files);
    }
    let mut locales = Vec::new(alloc);
    locales.push(english(alloc)?)?;
    Ok(locales)
}
