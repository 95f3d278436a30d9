//! What rendering asks of an entry.

ghost use Rattle.std.specs.Prelude.{◌≡◌, true, IfOk, IsTrue, map};
ghost use Rattle.std.specs.Cow.{cow_value, cow_str_bytes};
ghost use Rattle.std.specs.Option.{option_map};
ghost use Rattle.laws.specs.Text.{characters};
ghost use Rattle.literature_numbers.specs.PageViews.{pages_view};
ghost use Rattle.literature_values.specs.TypedViews.{typed_view};
ghost use Rattle.literature_values.specs.PersonViews.{lent_person_view};
ghost use Rattle.rendering_entries.specs.Answers.{Answers};
ghost use Rattle.rendering_entries.specs.Views.{lent_number_view, lent_text_view};

use literature_values::{ChunkedString, Date, MaybeTyped, Numeric, PageRanges, Person};
use rendering_taxonomy::{
    DateVariable, Kind, LongShortForm, NameVariable, NumberVariable, StandardVariable, Variable,
};
use std::alloc::{AllocError, Global};
use std::borrow::{Cow, CowStr};

/// What rendering asks of an entry. Equal entries answer alike. A method that takes memory has one error, which is that a
/// request for memory was refused.
pub trait EntryLike: Eq {
    /// All that the entry answers.
    ghost answers: { Self → Answers };

    /// The answer to a number variable: a number, or a text instead of it. Numbers of a cite, as its own number or its
    /// locator, are not the entry's.
    fn resolve_number_variable(
        &self,
        alloc: Global,
        variable: NumberVariable,
    ) -> Result<Option<MaybeTyped<Cow<'_, Numeric>>>, AllocError>
        ensures { IfOk result (λ n. option_map lent_number_view n
            ≡ (answers self.now).number variable) };

    /// The pages, or a text instead of them.
    fn resolve_page_variable(
        &self,
        alloc: Global,
    ) -> Result<Option<MaybeTyped<PageRanges>>, AllocError>
        ensures { IfOk result (λ p. option_map (typed_view pages_view) p
            ≡ (answers self.now).pages) };

    /// The text of a number or of pages as it was written, by the variable, where it is known. Numbers of a cite are not the entry's.
    fn resolve_written(
        &self,
        alloc: Global,
        variable: Variable,
    ) -> Result<Option<String>, AllocError>
        ensures { IfOk result (λ t. option_map characters t
            ≡ (answers self.now).written variable) };

    /// The text of a variable, in the long or the short form. A variable without a short form has the long one instead.
    fn resolve_standard_variable(
        &self,
        alloc: Global,
        form: LongShortForm,
        variable: StandardVariable,
    ) -> Result<Option<Cow<'_, ChunkedString>>, AllocError>
        ensures { IfOk result (λ t. option_map lent_text_view t
            ≡ (answers self.now).standard form variable) };

    /// The people of a variable, in order.
    fn resolve_name_variable(
        &self,
        alloc: Global,
        variable: NameVariable,
    ) -> Result<Vec<Cow<'_, Person>>, AllocError>
        ensures { IfOk result (λ ps. map lent_person_view ps.items
            ≡ (answers self.now).people variable) };

    /// The date of a variable. Takes no memory.
    fn resolve_date_variable(&self, variable: DateVariable) -> Option<Cow<'_, Date>>
        ensures { option_map cow_value result ≡ (answers self.now).date variable };

    /// Whether the entry is of the kind. Takes no memory.
    fn matches_entry_type(&self, kind: Kind) -> bool
        ensures { result ≡ (answers self.now).kind kind };

    /// Whether the entry is in English; none where it names no language. Takes no memory.
    fn is_english(&self) -> Option<bool>
        ensures { result ≡ (answers self.now).english };

    /// The key. Takes no memory.
    fn key(&self) -> CowStr<'_, Global>
        ensures { cow_str_bytes result ≡ (answers self.now).key };

    // Equal entries answer alike.
    ghost alike: { (a b : Self) → Self.eq a b ≡ true → answers a ≡ answers b };
}

/// Whether two entries are equal. Equal entries answer alike.
pub fn are_one_entry<E: EntryLike>(a: &E, b: &E) -> bool
    ensures equal { result ≡ E.eq a.now b.now }
    ensures alike { IsTrue result → E.answers a.now ≡ E.answers b.now }
{
    *a == *b
}
