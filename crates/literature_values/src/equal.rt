//! When values are equal: `==` is true exactly where the view of the two is one. Each function carries this law of a type.

ghost use Rattle.std.specs.Prelude.{◌≡◌, ◌↔◌, IsTrue};
ghost use Rattle.literature_numbers.specs.Views.{numeral_view};
ghost use Rattle.literature_values.specs.EntryTypes.{type_name};
ghost use Rattle.literature_values.specs.OtherViews.{address_view, serial_numbers_view};
ghost use Rattle.literature_values.specs.PersonViews.{person_view};
ghost use Rattle.literature_values.specs.TextViews.{format_view, publishing_view};
ghost use Rattle.literature_values.specs.TypedViews.{typed_view};

use crate::{
    Date, EntryType, FormatString, MaybeTyped, Numeric, Person, Publisher, QualifiedUrl,
    SerialNumber,
};

/// Whether two people are equal.
pub fn are_equal_people(a: &Person, b: &Person) -> bool
    ensures { IsTrue result ↔ (person_view a.now ≡ person_view b.now) }
{
    *a == *b
}

/// Whether two texts with their short forms are equal.
pub fn are_equal_texts(a: &FormatString, b: &FormatString) -> bool
    ensures { IsTrue result ↔ (format_view a.now ≡ format_view b.now) }
{
    *a == *b
}

/// Whether two publishers are equal.
pub fn are_equal_publishers(a: &Publisher, b: &Publisher) -> bool
    ensures { IsTrue result ↔ (publishing_view a.now ≡ publishing_view b.now) }
{
    *a == *b
}

/// Whether two addresses with their dates are equal.
pub fn are_equal_addresses(a: &QualifiedUrl, b: &QualifiedUrl) -> bool
    ensures { IsTrue result ↔ (address_view a.now ≡ address_view b.now) }
{
    *a == *b
}

/// Whether two sets of serial numbers are equal.
pub fn are_equal_serials(a: &SerialNumber, b: &SerialNumber) -> bool
    ensures { IsTrue result ↔ (serial_numbers_view a.now ≡ serial_numbers_view b.now) }
{
    *a == *b
}

/// Whether two numbers that may be texts are equal.
pub fn are_equal_numbers(a: &MaybeTyped<Numeric>, b: &MaybeTyped<Numeric>) -> bool
    ensures { IsTrue result ↔ (typed_view numeral_view a.now ≡ typed_view numeral_view b.now) }
{
    *a == *b
}

/// Whether two dates are equal.
pub fn are_equal_dates(a: &Date, b: &Date) -> bool
    ensures { IsTrue result ↔ (a.now ≡ b.now) }
{
    *a == *b
}

/// Whether two types of entries are equal.
pub fn are_equal_types(a: &EntryType, b: &EntryType) -> bool
    ensures { IsTrue result ↔ (type_name a.now ≡ type_name b.now) }
{
    *a == *b
}
