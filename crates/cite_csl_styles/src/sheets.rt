//! The style that is asked for.

ghost use Rattle.std.specs.Prelude.{◌≡◌, true, IfErr, IfNone, IfOk, IfSome};
ghost use Rattle.std.specs.Option.{option_map};
ghost use Rattle.std.specs.Str.{IsUtf8};
ghost use Rattle.programs.specs.Files.{read_at};
ghost use Rattle.rendering_locale.specs.CodeViews.{code_view};
ghost use Rattle.rendering_style.specs.StyleViews.{style_view};
ghost use Rattle.sorting_styles.specs.Styles.{sorting_style};
ghost use Rattle.xml_tree.specs.Views.{element_view};
ghost use Rattle.csl_nodes.specs.Views.{words_view};
ghost use Rattle.csl_styles.specs.Files.{meaning};
ghost use Rattle.csl_styles.specs.Styles as styles;
ghost use Rattle.csl_styles.specs.Views.{csl_view, refusal_of};
ghost use Rattle.cite_csl_styles.specs.Answers.{Answers, IsRefusal, IsStop, Returns};
ghost use Rattle.cite_csl_styles.specs.CslLines as said;
ghost use Rattle.cite_csl_styles.specs.Sheets as specs;
ghost use Rattle.cite_csl_styles.specs.Sheets.{IsCslRead, IsRootOf, IsSheetOf, demotes, orphan_lines, parents_of, readable};
ghost use Rattle.cite_csl_styles.specs.Sources as sources;
ghost use Rattle.cite_csl_styles.specs.Views.{found_view, sheet_view, source_view, paths_view};
ghost use Rattle.cite_csl_styles.specs.declared.stop.Stop.TheVariants.{Memory};

use crate::csl_texts::refusal_text;
use crate::parents::{ParentPaths, parent_left};
use crate::sources::{SourceFile, file_at, path_at, refused_at, refused_left};
use crate::stop::Stop;
use csl_nodes::Words;
use csl_styles::{Csl, CslError, read_tree, sound_tree};
use csl_words::says;
use programs::FileRead;
use rendering_locale::LocaleCode;
use rendering_style::Style;
use sorting_styles::sorting_style;
use std::alloc::{AllocError, Global};
use xml_tree::Element;

/// What a file of CSL was found to be.
#[derive(Drop)]
pub struct Found<'f> {
    pub file: SourceFile<'f>,
    pub root: Element<'f>,
    pub means: Csl,
}

/// A style that is found.
#[derive(Drop)]
pub struct Sheet<'f> {
    /// Where it was read, which is the parent of a dependent style.
    pub file: SourceFile<'f>,
    pub root: Element<'f>,
    /// The words of terms that no list has.
    pub words: Words,
    pub style: Style,
    /// The style by which the keys of the style print.
    pub sorting: Style,
    /// The language that a dependent style is for.
    pub lang: Option<LocaleCode>,
}

/// The stop for a text that is refused.
fn text_refused(alloc: Global, file: SourceFile<'_>, error: CslError<'_>) -> Stop
    ensures refusal { IfSome (refusal_of error.entry) (λ r. IsRefusal result (sources.lines_left
        (source_view file.entry) (said.refusal_left r) (said.refusal_text r))) }
    ensures memory { IfNone (refusal_of error.entry) (result ≡ Memory) }
{
    match refusal_text(alloc, error) {
        Ok((why, left)) => refused_left(alloc, file, left, why.as_str()),
        Err(_) => Stop::Memory,
    }
}

/// The text of a file.
fn text_at<'f>(alloc: Global, file: SourceFile<'f>) -> Result<&'f str, Stop>
    ensures text { IfOk result (λ t. t.now ≡ file.entry.bytes.now) }
    ensures utf8 { IfOk result (λ t. IsUtf8 t.now) }
    ensures stop { IfErr result (λ e. IsStop e (IsCslRead (source_view file.entry))) }
{
    match str::from_utf8(file.bytes) {
        Ok(text) => Ok(text),
        Err(error) => Err(refused_at(alloc, file, error.valid_up_to(), "not UTF-8")),
    }
}

/// What a file is, as one of CSL.
pub fn found_at<'f>(alloc: Global, file: SourceFile<'f>) -> Result<Found<'f>, Stop>
    ensures { Answers found_view result (IsCslRead (source_view file.entry)) }
{
    let text = text_at(alloc, file)?;
    match read_tree(alloc, text) {
        Ok((root, means)) => Ok(Found { file, root, means }),
        Err(error) => Err(text_refused(alloc, file, error)),
    }
}

/// The root of a file, whatever that means.
pub(crate) fn root_at<'f>(alloc: Global, file: SourceFile<'f>) -> Result<Element<'f>, Stop>
    ensures { Answers element_view result (IsRootOf (source_view file.entry)) }
{
    let text = text_at(alloc, file)?;
    match sound_tree(alloc, text) {
        Ok(root) => Ok(root),
        Err(error) => Err(text_refused(alloc, file, error)),
    }
}

/// What the file at a path is, as one of CSL.
pub fn found_in<'f>(
    alloc: Global,
    files: &'f [FileRead<'_>],
    path: &'f str,
) -> Result<Found<'f>, Stop>
    ensures { Answers found_view result
        (IsCslRead (sources.file_at (read_at files.entry.now) path.entry.now)) }
{
    found_at(alloc, file_at(files, path))
}

/// Whether the particles of names go behind given names where names are sorted.
fn demotes(root: &Element<'_>) -> bool
    ensures { result ≡ demotes (element_view root.now) }
{
    !says("demote-non-dropping-particle", "never", root)
}

/// The style by which the keys of the style of a root print.
fn sorting_of(
    alloc: Global,
    words: &Words,
    root: &Element<'_>,
    style: &Style,
) -> Result<Style, AllocError>
    requires { styles.style (words_view words.now) (element_view root.now) ≡ style_view style.now }
    ensures { IfOk result (λ s. style_view s
        ≡ sorting_style (demotes (element_view root.now)) (style_view style.now)) }
{
    // A style is one whose parts are not refused.
    let _facts = style.parts();
    let parts = csl_styles::style(alloc, words, root)?;
    sorting_style(alloc, parts, demotes(root))
}

/// The style of a file that has one by itself, for the language of a dependent style, if there is one.
fn own_sheet<'f>(
    alloc: Global,
    lang: Option<LocaleCode>,
    found: Found<'f>,
) -> Result<Sheet<'f>, Stop>
    requires { meaning (element_view found.root) ≡ csl_view found.means }
    ensures sheet { Returns sheet_view result (specs.own_sheet (option_map code_view lang)
        (found_view found.entry) (csl_view found.entry.means)) }
    ensures sorting { IfOk result (λ s. style_view s.sorting ≡ specs.sorting_of (sheet_view s)) }
{
    let Found { file, root, means } = found;
    match means {
        Csl::Independent { words, style } => {
            let sorting = sorting_of(alloc, &words, &root, &style)?;
            Ok(Sheet {
                file,
                root,
                words,
                style,
                sorting,
                lang,
            })
        }
        Csl::Dependent { .. } => {
            Err(refused_left(alloc, file, root.left, "a dependent style is no parent"))
        }
        Csl::Localized { .. } => Err(refused_left(alloc, file, root.left, "a locale is no style")),
    }
}

/// The stop for a dependent style whose parent is not there.
fn orphan(alloc: Global, file: SourceFile<'_>, root: &Element<'_>, name: &str) -> Stop
    ensures { IsRefusal result
        (orphan_lines (source_view file.entry) (element_view root.now) name.now) }
{
    let left = parent_left(root);
    match format!(in alloc; "the parent style {name} is neither beside it nor one folder up") {
        Ok(why) => refused_left(alloc, file, left, why.as_str()),
        Err(_) => Stop::Memory,
    }
}

/// The first of the paths at which a parent may lie that can be read, as it stands among the files.
fn readable<'f>(
    files: &'f [FileRead<'_>],
    paths: &ParentPaths,
) -> Result<Option<&'f str>, AllocError>
    ensures path { IfOk result (λ p. option_map (λ s. s.now) p
        ≡ readable (read_at files.entry.now) (paths_view paths.now)) }
    ensures memory { IfOk result (λ p. IfSome p (λ s.
        sources.IsReadable (read_at files.entry.now s.now) true)) }
{
    if let Some(path) = path_at(files, paths.beside.as_str())? {
        return Ok(Some(path));
    }
    if let Some(path) = path_at(files, paths.above.as_str())? {
        return Ok(Some(path));
    }
    Ok(None)
}

/// The style of the parent of a file, whose name is this.
fn parent_sheet<'f>(
    alloc: Global,
    files: &'f [FileRead<'_>],
    paths: &ParentPaths,
    lang: Option<LocaleCode>,
    child: (SourceFile<'_>, &Element<'_>, &str),
) -> Result<Sheet<'f>, Stop>
    ensures sheet { Answers sheet_view result (specs.IsParentAt (read_at files.entry.now)
        (source_view child.entry.0) (element_view child.entry.1.now) child.entry.2.now
        (option_map code_view lang) (readable (read_at files.entry.now)
        (paths_view paths.now))) }
    ensures sorting { IfOk result (λ s. style_view s.sorting ≡ specs.sorting_of (sheet_view s)) }
{
    match readable(files, paths)? {
        Some(path) => own_sheet(alloc, lang, found_at(alloc, file_at(files, path))?),
        None => Err(orphan(alloc, child.0, child.1, child.2)),
    }
}

/// The style of a file, whose parent may lie at these paths: its own, or that of its parent.
pub fn sheet_of<'f>(
    alloc: Global,
    files: &'f [FileRead<'_>],
    found: Found<'f>,
    paths: &Option<ParentPaths>,
) -> Result<Sheet<'f>, Stop>
    requires paths { option_map paths_view paths.now ≡ parents_of (found_view found) }
    requires meant { meaning (element_view found.root) ≡ csl_view found.means }
    ensures sheet { Answers sheet_view result (IsSheetOf (read_at files.entry.now)
        (found_view found.entry) (csl_view found.entry.means)) }
    ensures sorting { IfOk result (λ s. style_view s.sorting ≡ specs.sorting_of (sheet_view s)) }
{
    let Some(paths) = paths else {
        return own_sheet(alloc, None, found);
    };
    let Found { file, root, means } = found;
    match means {
        Csl::Dependent {
            parent,
            default_locale,
        } => {
            let child = (file, &root, parent.as_str());
            parent_sheet(alloc, files, paths, default_locale, child)
        }
        means => own_sheet(alloc, None, Found { file, root, means }),
    }
}
