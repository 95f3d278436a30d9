//! Names that are written as keys and values.

ghost use Rattle.std.specs.Prelude.{◌≡◌, IfOk, MatchOption, None, OnOk, Some};
ghost use Rattle.std.specs.List.{list_all};
ghost use Rattle.laws.specs.Text.{text, characters};
ghost use Rattle.laws.specs.Borrowed.{borrowed};
ghost use Rattle.biblatex_lists.specs.StyledChars.{plain};
ghost use Rattle.biblatex_lists.specs.Reading.{is_some, pair, with_pair, with_pairs, with_value, nobody};
ghost use Rattle.biblatex_lists.specs.Views.{named_view};
ghost use Rattle.biblatex_lists.specs.Words.{joined_words, words};

use crate::parting::trimmed;
use crate::person::Person;
use crate::styled_char::{StyledChar, plain_text};
use crate::words::{Mark, joined, split_once, words_in};
use std::alloc::{AllocError, Global};

/// The key, and the text of the value, where there is an equals sign and a key before it.
fn split_pair(part: &[StyledChar]) -> Option<(&[StyledChar], &[StyledChar])>
    ensures { MatchOption result (pair part.now ≡ None) (λ p. pair part.now
        ≡ Some (text (plain p.0.now), joined_words (words p.1.now))) }
{
    let (key, value) = split_once(part, Mark::Equals)?;
    let key = trimmed(key);
    if key.is_empty() {
        return None;
    }
    Some((key, value))
}

/// Whether the part is a key, an equals sign and a value.
fn is_pair(part: &[StyledChar]) -> bool
    ensures { result ≡ is_some (pair part.now) }
{
    split_pair(part).is_some()
}

/// Whether each part is a key, an equals sign and a value.
pub(crate) fn are_pairs(parts: &[&[StyledChar]]) -> bool
    ensures { result ≡ list_all (λ p. is_some (pair p)) (borrowed parts.now) }
{
    for i in 0..parts.len() {
        if !is_pair(parts[i]) {
            return false;
        }
    }
    true
}

impl Person {
    /// Takes the value of a key; other keys are dropped.
    fn take_value(&mut self, key: &str, value: String)
        ensures { named_view self.new
            ≡ with_value key.now (characters value) (named_view self.old) }
    {
        match key {
            "family" => self.name = value,
            "given" => self.given_name = value,
            "prefix" => self.prefix = value,
            "suffix" => self.suffix = value,
            _ => {}
        }
    }

    /// Takes the value of a part that is a key, an equals sign and a value.
    fn take_pair(&mut self, alloc: Global, part: &[StyledChar]) -> Result<(), AllocError>
        ensures { OnOk result (named_view self.new
            ≡ with_pair (pair part.now) (named_view self.old)) }
    {
        let Some((key, value)) = split_pair(part) else {
            return Ok(());
        };
        let key = plain_text(alloc, key)?;
        let value = joined(alloc, &words_in(alloc, value)?)?;
        self.take_value(key.as_str(), value);
        Ok(())
    }
}

/// The person that keys and values give; of equal keys the last one counts.
pub(crate) fn person_of_pairs(alloc: Global, parts: &[&[StyledChar]]) -> Result<Person, AllocError>
    ensures { IfOk result (λ p. named_view p ≡ with_pairs (borrowed parts.now) nobody) }
{
    let mut person = Person::nobody(alloc);
    for part in parts {
        person.take_pair(alloc, part)?;
    }
    Ok(person)
}
