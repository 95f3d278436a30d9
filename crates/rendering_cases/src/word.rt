//! Words of a text, and what is in them.

ghost use Rattle.std.specs.Prelude.{◌≡◌};
ghost use Rattle.std.specs.Char.Unicode.Lowercase.{is_lowercase};
ghost use Rattle.std.specs.Char.Unicode.Uppercase.{is_uppercase};
ghost use Rattle.std.specs.List.{list_any};
ghost use Rattle.std.specs.Str.{bytes_eq, chars};
ghost use Rattle.laws.specs.Borrowed.{borrowed};
ghost use Rattle.laws.specs.Runs.{prefix_of, after};
ghost use Rattle.laws.specs.Text.{text as text_of};
ghost use Rattle.rendering_cases.specs.StopWords.{is_stop_word, stop_words};
ghost use Rattle.rendering_cases.specs.Words.{is_in_capitals, is_inside, is_last, is_letter, is_mark, is_small, parts_words, word as word_of};

use texts::{CharacterClass, split_run};

/// Words that stay small within an English title, in the order of the alphabet.
const STOP_WORDS: &[&str] = &[
    "a", "about", "an", "and", "as", "at", "but", "by", "de", "down", "for", "from", "in", "into",
    "nor", "of", "on", "onto", "or", "over", "so", "the", "till", "to", "up", "van", "via", "von",
    "with", "yet",
];

/// What may stand in a word.
#[derive(Clone, Copy)]
struct Inside;

impl CharacterClass for Inside {
    ghost passes = { λ _ c. is_inside c };

    fn contains(self, c: char) -> bool {
        !parts_words(c)
    }
}

/// Letters and digits.
#[derive(Clone, Copy)]
struct Letter;

impl CharacterClass for Letter {
    ghost passes = { λ _ c. is_letter c };

    fn contains(self, c: char) -> bool {
        is_letter(c)
    }
}

/// Whether the character is a letter or a digit.
pub(crate) fn is_letter(c: char) -> bool
    ensures { result ≡ is_letter c }
{
    c.is_alphanumeric()
}

/// Whether the character parts words: white space, a hyphen, a slash, an en dash, an em dash.
pub(crate) fn parts_words(c: char) -> bool
    ensures { result ≡ parts_words c }
{
    c.is_whitespace() || matches!(c, '-' | '/' | '\u{2013}' | '\u{2014}')
}

/// Whether a stop word after the character is capitalised: a colon, a question mark, an exclamation mark.
pub(crate) fn is_mark(c: char) -> bool
    ensures { result ≡ is_mark c }
{
    matches!(c, ':' | '?' | '!')
}

/// The word that a text begins with, and what follows it.
pub(crate) fn split_word(text: &str) -> (&str, &str)
    ensures word { chars result.0.now ≡ word_of (chars text.now) }
    ensures rest { chars result.1.now ≡ after is_inside (chars text.now) }
{
    split_run(text, Inside)
}

/// The letters that a word begins with, and what follows them.
fn split_letters(word: &str) -> (&str, &str)
    ensures letters { chars result.0.now ≡ prefix_of is_letter (chars word.now) }
    ensures rest { chars result.1.now ≡ after is_letter (chars word.now) }
{
    split_run(word, Letter)
}

/// Whether there is a letter or a digit.
fn has_letter(text: &str) -> bool
    ensures { result ≡ list_any is_letter (chars text.now) }
{
    text.chars().any(|c| c.is_alphanumeric())
}

/// Whether there is a capital.
fn has_capital(text: &str) -> bool
    ensures { result ≡ list_any is_uppercase (chars text.now) }
{
    text.chars().any(|c| c.is_uppercase())
}

/// Whether the word that a text begins with has no capital.
pub(crate) fn is_small(text: &str) -> bool
    ensures { result ≡ is_small (chars text.now) }
{
    let (word, _) = split_word(text);
    !has_capital(word)
}

/// Whether no letter follows the word that a text begins with.
pub(crate) fn is_last(text: &str) -> bool
    ensures { result ≡ is_last (chars text.now) }
{
    let (_, rest) = split_word(text);
    !has_letter(rest)
}

/// Whether there is a small letter.
fn has_small_letter(text: &str) -> bool
    ensures { result ≡ list_any is_lowercase (chars text.now) }
{
    text.chars().any(|c| c.is_lowercase())
}

/// Whether no letter of a text is small.
pub(crate) fn is_in_capitals(text: &str) -> bool
    ensures { result ≡ is_in_capitals (chars text.now) }
{
    !has_small_letter(text)
}

/// Whether a text is one of these words.
fn is_among(text: &str, words: &[&str]) -> bool
    ensures { result ≡ list_any (bytes_eq text.now) (borrowed words.now) }
{
    for word in words {
        if text == *word {
            return true;
        }
    }
    false
}

/// Whether letters are a stop word.
fn are_listed(letters: &str) -> bool
    ensures { result ≡ list_any (bytes_eq (text_of (chars letters.now))) stop_words }
{
    is_among(letters, STOP_WORDS)
}

/// Whether the letters that a word begins with are a stop word, and no others are in it.
pub(crate) fn is_stop_word(word: &str) -> bool
    ensures { result ≡ is_stop_word (chars word.now) }
{
    let (letters, rest) = split_letters(word);
    are_listed(letters) && !has_letter(rest)
}
