//! The answers of a library's entries.

ghost use Rattle.std.specs.Prelude.{◌≡◌, IfOk};
ghost use Rattle.std.specs.Option.{option_map};
ghost use Rattle.literature_numbers.specs.PageViews.{pages_view};
ghost use Rattle.literature_values.specs.TypedViews.{typed_view};
ghost use Rattle.literature_entries.specs.Views.{fields_view};
ghost use Rattle.rendering_entries.specs.Library.{is_english};

use crate::dates::date_answer;
use crate::entry_like::EntryLike;
use crate::kinds::kind_answer;
use crate::numbers::number_answer;
use crate::people::people_answer;
use crate::standard::standard_answer;
use crate::written::written_answer;
use literature_entries::Entry;
use literature_values::{ChunkedString, Date, MaybeTyped, Numeric, PageRanges, Person};
use rendering_taxonomy::{
    DateVariable, Kind, LongShortForm, NameVariable, NumberVariable, StandardVariable, Variable,
};
use std::alloc::{AllocError, Global};
use std::borrow::{Cow, CowStr};

/// An entry of a library answers from itself, from its parents, or from all its ancestors, of which those of less depth come
/// first, and of one depth those of the first parent.
impl EntryLike for Entry {
    ghost use Rattle.std.proofs.Common.{ap};
    ghost use Rattle.literature_entries.specs.EntriesData.{entry_view};
    ghost use Rattle.literature_entries.proofs.EntriesDataEquality.{Shows-Entry};
    ghost use Rattle.rendering_entries.specs.Library.{answers_of};

    ghost answers = { λ e. answers_of (entry_view e) };

    ghost alike = { λ a b e. ap answers_of ((Shows-Entry a b).0 e) };

    fn resolve_number_variable(
        &self,
        alloc: Global,
        variable: NumberVariable,
    ) -> Result<Option<MaybeTyped<Cow<'_, Numeric>>>, AllocError> {
        number_answer(alloc, self, variable)
    }

    fn resolve_page_variable(
        &self,
        _alloc: Global,
    ) -> Result<Option<MaybeTyped<PageRanges>>, AllocError> {
        page_answer(self)
    }

    fn resolve_written(
        &self,
        alloc: Global,
        variable: Variable,
    ) -> Result<Option<String>, AllocError> {
        written_answer(alloc, self, variable)
    }

    fn resolve_standard_variable(
        &self,
        alloc: Global,
        form: LongShortForm,
        variable: StandardVariable,
    ) -> Result<Option<Cow<'_, ChunkedString>>, AllocError> {
        standard_answer(alloc, self, form, variable)
    }

    fn resolve_name_variable(
        &self,
        alloc: Global,
        variable: NameVariable,
    ) -> Result<Vec<Cow<'_, Person>>, AllocError> {
        people_answer(alloc, self, variable)
    }

    fn resolve_date_variable(&self, variable: DateVariable) -> Option<Cow<'_, Date>> {
        date_answer(self, variable)
    }

    fn matches_entry_type(&self, kind: Kind) -> bool {
        kind_answer(self, kind)
    }

    fn is_english(&self) -> Option<bool> {
        english_answer(self)
    }

    fn key(&self) -> CowStr<'_, Global> {
        CowStr::Borrowed(Entry::key(self))
    }
}

/// The pages of the entry.
fn page_answer(entry: &Entry) -> Result<Option<MaybeTyped<PageRanges>>, AllocError>
    ensures { IfOk result (λ p. option_map (typed_view pages_view) p
        ≡ (fields_view entry.now).page_range) }
{
    match entry.page_range() {
        Some(MaybeTyped::Typed(pages)) => Ok(Some(MaybeTyped::Typed(pages.clone()?))),
        Some(MaybeTyped::String(text)) => Ok(Some(MaybeTyped::String(text.clone()?))),
        None => Ok(None),
    }
}

/// Whether the language of the entry is English.
fn english_answer(entry: &Entry) -> Option<bool>
    ensures { result ≡ option_map is_english (fields_view entry.now).language }
{
    match entry.language() {
        Some(code) => Some(is_english(code)),
        None => None,
    }
}

/// Whether a language is English, by the first letters of its code.
pub fn is_english(code: &str) -> bool
    ensures { result ≡ is_english code.now }
{
    code.starts_with("en")
}
