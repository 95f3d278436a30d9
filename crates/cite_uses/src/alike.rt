//! Whether a document has to be rendered again once its BibLaTeX file was changed.

ghost use Rattle.std.specs.Prelude.{◌≡◌, ◌↔◌, map, IfOk, IsTrue, Some};
ghost use Rattle.std.specs.List.{AllByRecursion};
ghost use Rattle.std.specs.Option.{option_map};
ghost use Rattle.literature_entries.specs.EntriesData.{entry_view};
ghost use Rattle.literature.specs.Holding.{holds_at};
ghost use Rattle.literature.specs.Views.{selector_view};
ghost use Rattle.interop.specs.Library.{key_of};
ghost use Rattle.rendering_style.specs.StyleViews.{style_view};
ghost use Rattle.cite_markers.specs.Views.{document_view};
ghost use Rattle.cite_uses.specs.Alike.{AreAlikeWorks, GiveOneVerdict, HaveAlikeWorks, asked_names, asked_selectors, works_view};
ghost use Rattle.cite_uses.specs.AlikePairs.{AreAlikeAt, IsAlikeAt, work_at};

use crate::names::cited_names;
use crate::order::{rise, sorted_indices};
use biblatex::Bibliography;
use cite::{Document, work_of};
use literature::{Entry, Library, Selector};
use rendering_alike::{StyleNames, answer_alike, style_names};
use rendering_style::Style;
use std::alloc::{AllocError, Global};

/// A BibLaTeX file that was read, and its library.
#[derive(Clone, Copy)]
pub struct Works<'f> {
    pub file: &'f Bibliography,
    pub library: &'f Library,
}

/// What works are asked: the variables and kinds that a style names, and whether sections choose them.
#[derive(Clone, Copy)]
pub(crate) struct Asked<'s> {
    pub(crate) names: &'s StyleNames,
    pub(crate) sections: &'s [Selector],
}

/// Whether a document comes out the same with the works of either file in a style and with these sections, whatever the locale and the
/// format: each of its names means works of one key in both, which answer alike to all that the style names (in a style of a CSL file
/// numbers and pages also as they were written) and are chosen by the same sections, and these stand in one order. After a yes the output
/// is the same, or the refusal. After a no it may be the same all the same, as where the works differ in a field that the style asks for
/// and does not print. Two works are compared once, however often and under whatever names they are cited. So the cost grows with the
/// cites, as a sort of them and a look-up of each in both files do, and with what the cited entries answer to the style; nothing is
/// rendered.
///
/// # Errors
/// Out of memory.
pub fn are_alike(
    alloc: Global,
    document: &Document<'_>,
    style: &Style,
    sections: &[Selector],
    first: &Works<'_>,
    second: &Works<'_>,
) -> Result<bool, AllocError>
    // A yes says that the works of the names are alike, and stand in one order; a no, that they do not.
    ensures alike { IfOk result (λ yes. IsTrue yes ↔ HaveAlikeWorks (style_view style.now)
        (map selector_view sections.now) (works_view first.now) (works_view second.now)
        (document_view document.now)) }
    // After a yes the first file and the second one give the document one output, or one refusal.
    ensures same { IfOk result (λ yes. IsTrue yes → GiveOneVerdict (style_view style.now)
        (map selector_view sections.now) (works_view first.now) (works_view second.now)
        (document_view document.now)) }
{
    let names = cited_names(alloc, document)?;
    let indices = sorted_indices(alloc, &names, first.file, second.file)?;
    if indices.len() < names.len() {
        return Ok(false);
    }
    if !rise(&indices) {
        return Ok(false);
    }
    let named = style_names(alloc, style)?;
    let asked = Asked {
        names: &named,
        sections,
    };
    are_alike_each(alloc, &asked, &indices, first, second)
}

/// Whether the works at each of these pairs of indices are alike. A pair that equals the one before is not compared.
fn are_alike_each(
    alloc: Global,
    asked: &Asked<'_>,
    pairs: &[(usize, usize)],
    first: &Works<'_>,
    second: &Works<'_>,
) -> Result<bool, AllocError>
    ensures { IfOk result (λ yes. IsTrue yes ↔ AllByRecursion (AreAlikeAt (asked_names asked.now)
        (asked_selectors asked.now) (works_view first.now) (works_view second.now)) pairs.now) }
{
    let mut last = None;
    for pair in pairs {
        if is_last(last, *pair) {
            continue;
        }
        if !are_alike_at(alloc, asked, *pair, first, second)? {
            return Ok(false);
        }
        last = Some(*pair);
    }
    Ok(true)
}

/// Whether a pair is the last one that was compared.
fn is_last(last: Option<(usize, usize)>, pair: (usize, usize)) -> bool
    ensures { IsTrue result ↔ (last ≡ Some pair) }
{
    match last {
        Some(before) => before.0 == pair.0 && before.1 == pair.1,
        None => false,
    }
}

/// Whether the works at a pair of indices are alike.
fn are_alike_at(
    alloc: Global,
    asked: &Asked<'_>,
    pair: (usize, usize),
    first: &Works<'_>,
    second: &Works<'_>,
) -> Result<bool, AllocError>
    ensures { IfOk result (λ yes. IsTrue yes ↔ AreAlikeAt (asked_names asked.now)
        (asked_selectors asked.now) (works_view first.now) (works_view second.now) pair) }
{
    match work_at(first, pair.0) {
        Some(work) => is_alike_at(alloc, asked, work, second, pair.1),
        None => Ok(false),
    }
}

/// Whether there is a work at an index that is alike to this one.
fn is_alike_at(
    alloc: Global,
    asked: &Asked<'_>,
    work: &Entry,
    works: &Works<'_>,
    index: usize,
) -> Result<bool, AllocError>
    ensures { IfOk result (λ yes. IsTrue yes ↔ IsAlikeAt (asked_names asked.now)
        (asked_selectors asked.now) (entry_view work.now) (works_view works.now) index) }
{
    match work_at(works, index) {
        Some(other) => are_alike_works(alloc, asked, work, other),
        None => Ok(false),
    }
}

/// The work that the entry at an index is.
fn work_at<'f>(works: &Works<'f>, index: usize) -> Option<&'f Entry>
    ensures { option_map (λ e. entry_view e.now) result ≡ work_at (works_view works.now) index }
{
    let entry = works.file.entries().get(index)?;
    work_of(works.library, entry)
}

/// Whether two works are alike.
fn are_alike_works(
    alloc: Global,
    asked: &Asked<'_>,
    work: &Entry,
    other: &Entry,
) -> Result<bool, AllocError>
    ensures { IfOk result (λ yes. IsTrue yes ↔ AreAlikeWorks (asked_names asked.now)
        (asked_selectors asked.now) (entry_view work.now) (entry_view other.now)) }
{
    if !have_one_key(work, other) {
        return Ok(false);
    }
    if !are_chosen_alike(asked.sections, work, other) {
        return Ok(false);
    }
    answer_alike(alloc, asked.names, work, other)
}

/// Whether two works have one key.
fn have_one_key(work: &Entry, other: &Entry) -> bool
    ensures { IsTrue result ↔ (key_of (entry_view work.now) ≡ key_of (entry_view other.now)) }
{
    work.key() == other.key()
}

/// Whether two works are chosen by the same sections.
fn are_chosen_alike(sections: &[Selector], work: &Entry, other: &Entry) -> bool
    ensures { IsTrue result ↔ AllByRecursion (λ s. holds_at (selector_view s) (entry_view work.now)
        ≡ holds_at (selector_view s) (entry_view other.now)) sections.now }
{
    for section in sections {
        if !chooses_alike(section, work, other) {
            return false;
        }
    }
    true
}

/// Whether a section chooses both works or neither.
fn chooses_alike(section: &Selector, work: &Entry, other: &Entry) -> bool
    ensures { IsTrue result ↔ (holds_at (selector_view section.now) (entry_view work.now)
        ≡ holds_at (selector_view section.now) (entry_view other.now)) }
{
    section.matches(work) == section.matches(other)
}
