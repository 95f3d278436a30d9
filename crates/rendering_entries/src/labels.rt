//! Labels of entries.

ghost use Rattle.std.specs.Prelude.{◌≡◌, ◌++◌, [], map, OnOk, IfOk};
ghost use Rattle.std.specs.Option.{option_map, option_map_or};
ghost use Rattle.laws.specs.Text.{characters};
ghost use Rattle.literature_values.specs.TextViews.{chunk_view};
ghost use Rattle.literature_entries.specs.Views.{fields_view};
ghost use Rattle.literature_entries.specs.EntriesData.{entry_view};
ghost use Rattle.rendering_entries.specs.Library.{characters_of, long_text, label_of};
ghost use Rattle.rendering_entries.specs.Views.{entry_ancestry};
ghost use Rattle.rendering_entries.specs.Works.{ancestry};

use crate::nearest::nearest_editor;
use crate::people::people_or_none;
use literature_entries::Entry;
use literature_values::StringChunk;
use rendering_numbers::push_citation_label;
use std::alloc::{AllocError, Global};
use texts::{empty_text, push_text};

/// Labels such as `Kwa14`, by the authors, else the editors, else the title, and the year.
#[derive(Clone, Copy, Debug, PartialEq, Eq, Hash)]
pub struct Alphanumerical {
    /// How many letters of the family name there are where one person is named.
    pub letters: usize,
}

impl Alphanumerical {
    /// Labels with three letters.
    pub fn new() -> Alphanumerical
        ensures { result.letters ≡ 3 }
    {
        Alphanumerical { letters: 3 }
    }

    /// The label of the entry: so many letters of its one author, or the first letter of each of two or three, or of more
    /// authors so many of the first and a plus sign; without authors the same of the editors, which may be an ancestor's, and
    /// without both so many letters of the title; then the last two digits of the year, where the entry has a date, of a
    /// range the first.
    ///
    /// # Errors
    /// Out of memory.
    pub fn citation(self, alloc: Global, entry: &Entry) -> Result<String, AllocError>
        ensures { IfOk result (λ s. characters s
            ≡ label_of self.letters (ancestry (entry_view entry.now))) }
    {
        label(alloc, entry, self.letters)
    }
}

impl Default for Alphanumerical {
    ghost is_default = { λ a. a.letters ≡ 3 };

    fn default() -> Alphanumerical {
        Alphanumerical::new()
    }
}

/// The label of the entry, with so many letters of one name.
///
/// # Errors
/// Out of memory.
pub(crate) fn label(alloc: Global, entry: &Entry, letters: usize) -> Result<String, AllocError>
    ensures { IfOk result (λ s. characters s ≡ label_of letters (entry_ancestry entry.now)) }
{
    let mut label = empty_text(alloc);
    push_label(alloc, &mut label, entry, letters)?;
    Ok(label)
}

/// Appends the label of the entry. Ancestors are asked for editors where there are no authors, and the title is copied where
/// there are no editors either.
fn push_label(
    alloc: Global,
    out: &mut String,
    entry: &Entry,
    letters: usize,
) -> Result<(), AllocError>
    ensures { OnOk result (characters out.new
        ≡ characters out.old ++ label_of letters (entry_ancestry entry.now)) }
{
    let authors = people_or_none(entry.author());
    if !authors.is_empty() {
        return push_citation_label(out, letters, authors, &[], "", year(entry));
    }
    let editors = people_or_none(nearest_editor(entry)?);
    if !editors.is_empty() {
        return push_citation_label(out, letters, authors, editors, "", year(entry));
    }
    let title = title_text(alloc, entry)?;
    push_citation_label(out, letters, authors, editors, title.as_str(), year(entry))
}

/// The year of the entry's date, of a range the first.
fn year(entry: &Entry) -> Option<i32>
    ensures { result ≡ option_map (λ d. d.year) (fields_view entry.now).date }
{
    Some(entry.date()?.year)
}

/// The characters of the title.
fn title_text(alloc: Global, entry: &Entry) -> Result<String, AllocError>
    ensures { IfOk result (λ s. characters s
        ≡ option_map_or characters_of (long_text (fields_view entry.now).title) []) }
{
    let mut text = empty_text(alloc);
    if let Some(title) = entry.title() {
        push_chunks(&mut text, title.value.0.as_slice())?;
    }
    Ok(text)
}

/// Appends the characters of pieces.
fn push_chunks(text: &mut String, pieces: &[StringChunk]) -> Result<(), AllocError>
    ensures { OnOk result (characters text.new
        ≡ characters text.old ++ characters_of (map chunk_view pieces.now)) }
{
    for piece in pieces {
        push_text(text, piece.value.as_str())?;
    }
    Ok(())
}
