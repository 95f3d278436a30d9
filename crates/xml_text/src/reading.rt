//! Reading a text from the left. Where a fault is returned, the text from where it stands on is left.

ghost use Rattle.std.specs.Prelude.{◌≡◌, map};
ghost use Rattle.std.specs.Char.{to_ascii_lowercase};
ghost use Rattle.std.specs.Str.{chars, bytes_eq};
ghost use Rattle.laws.specs.Runs.{prefix_of, after};
ghost use Rattle.laws.specs.Text.{spelled, text as text_of, lowered};
ghost use Rattle.texts.specs.Views.{left};
ghost use Rattle.xml_text.specs.Character.{passes};
ghost use Rattle.xml_text.specs.Reading.{left_of, character_at, word_at, stands, begins, after_space, run_at};
ghost use Rattle.xml_text.specs.Views.{Reads, Passes};

use crate::character::Class;
use crate::fault::Fault;
use texts::{CharacterClass, Reader, split_first, split_run};

/// How many bytes the text has.
pub fn byte_len(text: &str) -> usize
    ensures { result ≡ left_of (chars text.now) }
{
    text.len()
}

/// Takes the character, which must stand here.
#[inline(always)]
pub(crate) fn take_character(reader: &mut Reader<'_>, wanted: char) -> Result<(), Fault>
    ensures { Passes result (left reader.new) (character_at wanted (left reader.old)) }
{
    match split_first(reader.rest) {
        None => Err(Fault::Unclosed),
        Some((c, rest)) if c == wanted => {
            reader.rest = rest;
            Ok(())
        }
        Some(_) => Err(Fault::Unexpected),
    }
}

/// Takes the characters of the word, each of which must stand here in turn.
pub(crate) fn take_word(reader: &mut Reader<'_>, word: &[char]) -> Result<(), Fault>
    ensures { Passes result (left reader.new) (word_at word.now (left reader.old)) }
{
    for c in word {
        take_character(reader, *c)?;
    }
    Ok(())
}

/// Whether the word stands at the start of the text.
pub(crate) fn stands(text: &str, word: &[char]) -> bool
    ensures { result ≡ stands word.now (chars text.now) }
{
    take_word(&mut Reader::new(text), word).is_ok()
}

/// Whether the text is this word.
#[tactic(auto, using(laws::proofs::Text::text_of_chars))]
pub(crate) fn is_word(text: &str, word: &str) -> bool
    ensures { result ≡ bytes_eq (text_of (chars text.now)) word.now }
{
    text == word
}

/// Whether the text is this word, ASCII letters in either case.
pub(crate) fn is_word_in_any_case(text: &str, word: &str) -> bool
    ensures { result ≡ bytes_eq (lowered (chars text.now)) (map to_ascii_lowercase word.now) }
{
    text.eq_ignore_ascii_case(word)
}

/// Whether the text begins with a character of the class.
#[inline(always)]
pub(crate) fn begins(text: &str, class: Class) -> bool
    ensures { result ≡ begins class (chars text.now) }
{
    match split_first(text) {
        None => false,
        Some((c, _)) => class.contains(c),
    }
}

/// The longest run of the class that stands here.
#[inline(always)]
pub(crate) fn run<'s>(reader: &mut Reader<'s>, class: Class) -> &'s str
    ensures prefix { spelled result ≡ prefix_of (passes class) (left reader.old) }
    ensures rest { left reader.new ≡ after (passes class) (left reader.old) }
{
    let (prefix, rest) = split_run(reader.rest, class);
    reader.rest = rest;
    prefix
}

/// Takes white space, if there is any.
pub fn skip_space(reader: &mut Reader<'_>)
    ensures { left reader.new ≡ after_space (left reader.old) }
{
    run(reader, Class::Space);
}

/// The longest run of the class that stands here, whose first character must be of another class.
pub(crate) fn take_run<'s>(
    reader: &mut Reader<'s>,
    first: Class,
    class: Class,
) -> Result<&'s str, Fault>
    ensures { Reads spelled result (left reader.new) (run_at first class (left reader.old)) }
{
    match split_first(reader.rest) {
        None => Err(Fault::Unclosed),
        Some((c, _)) if first.contains(c) => Ok(run(reader, class)),
        Some(_) => Err(Fault::Unexpected),
    }
}
