//! Values of attributes.

ghost use Rattle.std.specs.Prelude.{◌≡◌, ◌∷◌, ◌<◌, ◌==◌, [], length, MatchOption, ⊤, string_bytes};
ghost use Rattle.std.specs.List.{slice_split};
ghost use Rattle.std.specs.Str.{chars};
ghost use Rattle.laws.specs.Characters.{space, hyphen};
ghost use Rattle.laws.specs.Text.{characters, text as text_of};
ghost use Rattle.texts.specs.Reading.{taken};
ghost use Rattle.xml_text.specs.Reading.{after_space};
ghost use Rattle.xml_schema.specs.Values.{is_among, is_in_group, is_number_alone, has_words, is_empty_or_in_group, are_in_group, allows};

use crate::schema::Values;
use texts::{Reader, has_text};
use xml_text::skip_space;

/// Whether the text is one of these words.
fn is_among(text: &str, words: &[&str]) -> bool
    ensures { result ≡ is_among words.now text.now }
{
    for word in words {
        if text == *word {
            return true;
        }
    }
    false
}

/// Whether the text is a word of one of these groups.
fn is_in_group(text: &str, groups: &[&[&str]]) -> bool
    ensures { result ≡ is_in_group groups.now text.now }
{
    for group in groups {
        if is_among(text, *group) {
            return true;
        }
    }
    false
}

/// Whether the text is nothing but the digits of a number, which is 2147483647 at most.
fn is_number_alone(text: &str) -> bool
    ensures { result ≡ is_number_alone (chars text.now) }
{
    let mut reader = Reader::new(text);
    match reader.number() {
        Ok(_) => reader.end().is_ok(),
        Err(_) => false,
    }
}

/// The text, without a hyphen that it begins with.
fn without_hyphen(text: &str) -> &str
    ensures { chars result.now ≡ (taken hyphen (chars text.now)).1 }
{
    let mut reader = Reader::new(text);
    reader.take('-');
    reader.rest
}

/// Whether there is more than white space.
pub(crate) fn has_words(text: &str) -> bool
    ensures { result ≡ has_words (chars text.now) }
{
    let mut reader = Reader::new(text);
    skip_space(&mut reader);
    has_text(reader.rest)
}

/// The text before the first space, and what follows it.
fn split_space(text: &str) -> Option<(&str, &str)>
    ensures parts { MatchOption result
        (slice_split (λ b. b == space) text.now ≡ text.now ∷ [])
        (λ x. slice_split (λ b. b == space) text.now
        ≡ x.0.now ∷ slice_split (λ b. b == space) x.1.now) }
    ensures shorter { MatchOption result ⊤ (λ x. length x.1.now < length text.now) }
{
    text.split_once(' ')
}

/// Whether a part of a text is empty or a word of one of these groups.
fn is_empty_or_in_group(part: &str, groups: &[&[&str]]) -> bool
    ensures { result ≡ is_empty_or_in_group groups.now part.now }
{
    part.is_empty() || is_in_group(part, groups)
}

/// Whether each part of the text between spaces is empty or a word of one of these groups.
fn are_in_group(text: &str, groups: &[&[&str]]) -> bool
    ensures { result ≡ are_in_group groups.now text.now }
{
    let mut rest = text;
    while let Some((part, more)) = split_space(rest) {
        if !is_empty_or_in_group(part, groups) {
            return false;
        }
        rest = more;
    }
    is_empty_or_in_group(rest, groups)
}

/// Whether an attribute may have the value.
fn allows(values: Values, value: &str) -> bool
    ensures { result ≡ allows values.entry value.now }
{
    match values {
        Values::Any => true,
        Values::Number => is_number_alone(value),
        Values::Signed => is_number_alone(without_hyphen(value)),
        Values::OneOf(groups) => is_in_group(value, groups),
        Values::SomeOf(groups) => has_words(value) && are_in_group(value, groups),
    }
}

/// Whether an attribute may have the value of one.
#[tactic(auto, using(laws::proofs::Text::text_of_chars))]
pub(crate) fn allows_text(values: Values, value: &String) -> bool
    ensures { result ≡ allows values.entry (text_of (characters value.now)) }
{
    allows(values, value.as_str())
}
