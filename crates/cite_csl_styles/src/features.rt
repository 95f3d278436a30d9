//! Lines for what a style asks for and is not carried out, and for the terms that it prints and no locale has.

ghost use Rattle.std.specs.Prelude.{◌≡◌, ◌++◌, map, IfOk, OnOk, string_bytes};
ghost use Rattle.std.specs.Option.{option_map};
ghost use Rattle.fault_lines.specs.Views.{IsIn, lines_view};
ghost use Rattle.rendering_locale.specs.Lookup.{language};
ghost use Rattle.rendering_locale.specs.Views.{locale_view};
ghost use Rattle.rendering_style.specs.StyleViews.{style_view};
ghost use Rattle.rendering_style.specs.Views.{style_parts_view};
ghost use Rattle.csl_features.specs.Views.{feature_view};
ghost use Rattle.cite_csl_styles.specs.FeatureLines as specs;
ghost use Rattle.cite_csl_styles.specs.FeatureLines.{asked_by, line_for, lines_for};
ghost use Rattle.cite_csl_styles.specs.Views.{sheet_view, source_view};

use crate::csl_texts::text_of;
use crate::sheets::Sheet;
use crate::sources::SourceFile;
use csl_features::{Feature, features, missing_terms};
use fault_lines::FaultLines;
use rendering_locale::{AskedLocales, Locale, language};
use rendering_style::{Style, StyleParts};
use std::alloc::{AllocError, Global};

/// Appends the line for what an element of a file asks for: these words, and its name.
fn push_feature(
    alloc: Global,
    file: SourceFile<'_>,
    words: &str,
    feature: &Feature<'_>,
    lines: &mut FaultLines,
) -> Result<(), AllocError>
    requires { IsIn file.bytes.now lines.old }
    ensures lines { OnOk result (lines_view lines.new ≡ lines_view lines.old
        ++ line_for (source_view file.entry) words.now (feature_view feature.now)) }
    ensures place { OnOk result (IsIn file.entry.bytes.now lines.new) }
{
    let at = file.bytes.len().saturating_sub(feature.left);
    let why = text_of(alloc, words, feature.name)?;
    lines.push_line(file.path, file.bytes, at, why.as_str())
}

/// The lines for what elements of a file ask for, with these words in each.
fn lines_of(
    alloc: Global,
    file: SourceFile<'_>,
    words: &str,
    asked: &[Feature<'_>],
) -> Result<String, AllocError>
    ensures { IfOk result (λ s. string_bytes s
        ≡ lines_for (source_view file.entry) words.now (map feature_view asked.now)) }
{
    let mut lines = FaultLines::new(alloc);
    for feature in asked {
        push_feature(alloc, file, words, feature, &mut lines)?;
    }
    Ok(lines.into_string())
}

/// The lines for all features that a style asks for and are not carried out.
pub fn feature_lines(alloc: Global, sheet: &Sheet<'_>) -> Result<String, AllocError>
    ensures { IfOk result (λ s. string_bytes s ≡ specs.feature_lines (sheet_view sheet.now)) }
{
    let asked = features(alloc, &sheet.root)?;
    lines_of(alloc, sheet.file, "not carried out: ", asked.as_slice())
}

/// The code of a language, or else that of a style, or else `en-US`.
fn code_of<'a>(lang: Option<&'a str>, style: &'a StyleParts) -> &'a str
    ensures { result.now ≡ language (option_map (λ c. c.now) lang.entry)
        (style_parts_view style.now).default_locale }
{
    match lang {
        Some(code) => code,
        None => language(None, style.default_locale.as_ref()),
    }
}

/// The locales that a style asks in a language, or else in its own: its own and those of files.
fn asked_by<'a>(
    alloc: Global,
    lang: Option<&str>,
    style: &'a Style,
    files: &'a [Locale],
) -> Result<AskedLocales<'a>, AllocError>
    ensures { IfOk result (λ a. a ≡ asked_by (style_view style.now)
        (option_map (λ c. c.now) lang.entry) (map locale_view files.now)) }
{
    let parts = style.parts();
    AskedLocales::new(alloc, code_of(lang, parts), &parts.locales, files)
}

/// The lines for all terms that a style prints and none of the locales has that it asks, its own and those of files.
pub fn term_lines(
    alloc: Global,
    sheet: &Sheet<'_>,
    lang: Option<&str>,
    files: &[Locale],
) -> Result<String, AllocError>
    ensures { IfOk result (λ s. string_bytes s ≡ specs.term_lines (sheet_view sheet.now)
        (option_map (λ c. c.now) lang.entry) (map locale_view files.now)) }
{
    let locales = asked_by(alloc, lang, &sheet.style, files)?;
    let terms = missing_terms(alloc, &sheet.words, &locales, &sheet.root)?;
    lines_of(
        alloc,
        sheet.file,
        "no locale that is asked has the term ",
        terms.as_slice(),
    )
}
