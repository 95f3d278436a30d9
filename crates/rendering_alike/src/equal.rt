//! When answers are one: `==` is true exactly where the view of the two is one. Each function carries this law of a type.

ghost use Rattle.std.specs.Prelude.{◌≡◌, ◌↔◌, IsTrue, map};
ghost use Rattle.std.specs.Cow.{cow_value};
ghost use Rattle.std.specs.Option.{option_map};
ghost use Rattle.laws.specs.Text.{characters};
ghost use Rattle.literature_numbers.specs.PageViews.{pages_view};
ghost use Rattle.literature_values.specs.PersonViews.{lent_person_view};
ghost use Rattle.literature_values.specs.TypedViews.{typed_view};
ghost use Rattle.rendering_entries.specs.Views.{lent_number_view, lent_text_view};

use literature_values::{ChunkedString, Date, MaybeTyped, Numeric, PageRanges, Person};
use std::borrow::Cow;

/// Whether two texts are one, or there is neither.
pub(crate) fn are_one_text(
    one: &Option<Cow<'_, ChunkedString>>,
    other: &Option<Cow<'_, ChunkedString>>,
) -> bool
    ensures { IsTrue result
        ↔ (option_map lent_text_view one.now ≡ option_map lent_text_view other.now) }
{
    *one == *other
}

/// Whether two numbers, or texts instead of them, are one, or there is neither.
pub(crate) fn are_one_number(
    one: &Option<MaybeTyped<Cow<'_, Numeric>>>,
    other: &Option<MaybeTyped<Cow<'_, Numeric>>>,
) -> bool
    ensures { IsTrue result
        ↔ (option_map lent_number_view one.now ≡ option_map lent_number_view other.now) }
{
    *one == *other
}

/// Whether two texts are one, or there is neither.
pub(crate) fn are_one_writing(one: &Option<String>, other: &Option<String>) -> bool
    ensures { IsTrue result ↔ (option_map characters one.now ≡ option_map characters other.now) }
{
    *one == *other
}

/// Whether two lists of pages, or texts instead of them, are one, or there is neither.
pub(crate) fn are_one_range(
    one: &Option<MaybeTyped<PageRanges>>,
    other: &Option<MaybeTyped<PageRanges>>,
) -> bool
    ensures { IsTrue result ↔ (option_map (typed_view pages_view) one.now
        ≡ option_map (typed_view pages_view) other.now) }
{
    *one == *other
}

/// Whether two lists of people are one.
pub(crate) fn are_one_list(one: &Vec<Cow<'_, Person>>, other: &Vec<Cow<'_, Person>>) -> bool
    ensures { IsTrue result ↔ (map lent_person_view one.now.items
        ≡ map lent_person_view other.now.items) }
{
    *one == *other
}

/// Whether two dates are one, or there is neither.
pub(crate) fn are_one_date(one: &Option<Cow<'_, Date>>, other: &Option<Cow<'_, Date>>) -> bool
    ensures { IsTrue result ↔ (option_map cow_value one.now ≡ option_map cow_value other.now) }
{
    *one == *other
}
