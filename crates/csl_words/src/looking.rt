//! What tables have for texts, and what the attributes of an element say.

ghost use Rattle.std.specs.Prelude.{◌≡◌, map};
ghost use Rattle.std.specs.Option.{option_map};
ghost use Rattle.std.specs.Str.{chars, bytes_eq};
ghost use Rattle.laws.specs.Text.{text as text_of_characters, spelled};
ghost use Rattle.texts.specs.Views.{left};
ghost use Rattle.xml_text.specs.Views.{placed_view};
ghost use Rattle.xml_tree.specs.Views.{attribute_view, element_view};
ghost use Rattle.csl_words.specs.Looking.{table_view, in_table, value_among, attribute, text_of, says, value_by, is_set, is_true, whole_number, number_in, number};

use crate::options::BOOLEANS;
use texts::{Reader, or_empty};
use xml_schema::has_name;
use xml_text::Placed;
use xml_tree::{Attribute, Element};

/// What a table has for the text.
#[tactic(auto, unfolding(crate::specs::Looking::in_table))]
pub fn in_table<X: Copy>(rows: &[(&str, X)], text: &str) -> Option<X>
    ensures { result ≡ in_table (table_view rows.now) text.now }
{
    for row in rows {
        if text == row.0 {
            return Some(row.1);
        }
    }
    None
}

/// What a table has for a text of a tree.
#[tactic(auto, using(laws::proofs::Text::text_of_chars))]
pub(crate) fn in_table_of<X: Copy>(rows: &[(&str, X)], text: &str) -> Option<X>
    ensures { result ≡ in_table (table_view rows.now) (text_of_characters (chars text.now)) }
{
    in_table(rows, text)
}

/// Whether a text of a tree is this word.
#[tactic(auto, using(laws::proofs::Text::text_of_chars))]
pub(crate) fn is_spelled(text: &str, word: &str) -> bool
    ensures { result ≡ bytes_eq (text_of_characters (chars text.now)) word.now }
{
    text == word
}

/// The value of the first of these attributes that has that name and no namespace.
fn value_among<'e>(attributes: &'e [Placed<Attribute<'_>>], name: &str) -> Option<&'e str>
    ensures { option_map spelled result
        ≡ value_among name.now (map (placed_view attribute_view) attributes.now) }
{
    for attribute in attributes {
        if has_name(attribute, name) {
            return Some(attribute.v.value.as_str());
        }
    }
    None
}

/// The value of the attribute of an element that has that name and no namespace.
pub fn attribute<'e>(name: &str, element: &'e Element<'_>) -> Option<&'e str>
    ensures { option_map spelled result ≡ attribute name.now (element_view element.now) }
{
    value_among(element.attributes.as_slice(), name)
}

/// The value of an attribute, empty where there is none.
pub(crate) fn value_of<'e>(name: &str, element: &'e Element<'_>) -> &'e str
    ensures { spelled result ≡ text_of name.now (element_view element.now) }
{
    or_empty(attribute(name, element))
}

/// Whether the value of an attribute is this word.
pub fn says(name: &str, word: &str, element: &Element<'_>) -> bool
    ensures { result ≡ says name.now word.now (element_view element.now) }
{
    is_spelled(value_of(name, element), word)
}

/// What a table has for the value of an attribute.
pub fn value_by<X: Copy>(rows: &[(&str, X)], name: &str, element: &Element<'_>) -> Option<X>
    ensures { result ≡ value_by (table_view rows.now) name.now (element_view element.now) }
{
    match attribute(name, element) {
        Some(value) => in_table_of(rows, value),
        None => None,
    }
}

/// Whether something is so, if an attribute says it.
pub fn is_set(name: &str, element: &Element<'_>) -> Option<bool>
    ensures { result ≡ is_set name.now (element_view element.now) }
{
    value_by(BOOLEANS, name, element)
}

/// Whether the value of an attribute says that something is so.
pub fn is_true(name: &str, element: &Element<'_>) -> bool
    ensures { result ≡ is_true name.now (element_view element.now) }
{
    is_set(name, element).unwrap_or(false)
}

/// The number that was read, if the reader is at its end.
fn whole_number(number: i32, mut reader: Reader<'_>) -> Option<u32>
    ensures { result ≡ whole_number (Ok (number, left reader.entry)) }
{
    match reader.end() {
        Ok(()) => Some(number.unsigned_abs()),
        Err(_) => None,
    }
}

/// The number that the text is, if it is nothing but the digits of one.
pub fn number_in(text: &str) -> Option<u32>
    ensures { result ≡ number_in (chars text.now) }
{
    let mut reader = Reader::new(text);
    match reader.number() {
        Ok(number) => whole_number(number, reader),
        Err(_) => None,
    }
}

/// The number that an attribute says, if its value is nothing but the digits of one.
pub fn number(name: &str, element: &Element<'_>) -> Option<u32>
    ensures { result ≡ number name.now (element_view element.now) }
{
    match attribute(name, element) {
        Some(value) => number_in(value),
        None => None,
    }
}
