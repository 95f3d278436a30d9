//! Keys of texts, and their order.

ghost use Rattle.std.specs.Prelude.{◌≡◌, ◌++◌, false, flat_map, not, IfOk, OnOk};
ghost use Rattle.std.specs.Char.{is_ascii};
ghost use Rattle.std.specs.List.{list_all};
ghost use Rattle.std.specs.Str.{chars};
ghost use Rattle.laws.specs.Text.{is_filled};
ghost use Rattle.ucd_case.specs.CaseFolding.{full_fold};
ghost use Rattle.unicode_normalization.specs.Forms.{nfd};
ghost use Rattle.collation.specs.Keys.{collation_key, is_gap, is_left_out, letter, order_of, parted, with_character, with_characters};
ghost use Rattle.collation.specs.Views.{begun_view, key_view};

use crate::letter::letters_for;
use std::alloc::{AllocError, Global};
use std::cmp::Ordering;
use ucd_case::full_folding;
use ucd_category::{GeneralCategory, GeneralCategoryGroup};
use unicode_normalization::slice::extend_nfd;

/// The key of a text: its letters without marks, folded, one after the other. Keys are ordered as words in a dictionary.
#[derive(Debug, PartialEq, Eq, PartialOrd, Ord, Drop)]
pub struct CollationKey {
    letters: Vec<char>,
}

impl CollationKey {
    /// The key of a text. The cost grows with the text.
    ///
    /// # Errors
    /// Out of memory.
    #[tactic(auto, unfolding(crate::specs::Keys::collation_key))]
    pub fn new(alloc: Global, text: &str) -> Result<CollationKey, AllocError>
        ensures { IfOk result (λ k. key_view k ≡ collation_key (chars text.now)) }
    {
        let decomposed = decomposed(alloc, text)?;
        let mut key = BegunKey {
            letters: Vec::new(alloc),
            gap: false,
        };
        push_characters(&mut key, &decomposed)?;
        let BegunKey { letters, gap: _ } = key;
        Ok(CollationKey { letters })
    }

    /// Whether nothing is in the key, as in that of a text of punctuation alone.
    pub fn is_empty(&self) -> bool
        ensures { result ≡ not (is_filled (key_view self.now)) }
    {
        self.letters.is_empty()
    }
}

/// How two texts are ordered by their keys.
///
/// # Errors
/// Out of memory.
pub fn collate(alloc: Global, first: &str, second: &str) -> Result<Ordering, AllocError>
    ensures { IfOk result (λ o. o ≡ order_of (collation_key (chars first.now))
        (collation_key (chars second.now))) }
{
    let first = CollationKey::new(alloc, first)?;
    let second = CollationKey::new(alloc, second)?;
    Ok(first.cmp(&second))
}

/// The characters of a text, each letter apart from its marks. A text of ASCII has no marks.
fn decomposed(alloc: Global, text: &str) -> Result<Vec<char>, AllocError>
    ensures { IfOk result (λ v. v.items ≡ nfd (chars text.now)) }
{
    let characters = characters(alloc, text)?;
    if are_ascii(&characters) {
        return Ok(characters);
    }
    let mut decomposed = Vec::new(alloc);
    extend_nfd(&mut decomposed, &characters)?;
    Ok(decomposed)
}

/// Whether all characters are of ASCII.
fn are_ascii(characters: &[char]) -> bool
    ensures { result ≡ list_all is_ascii characters.now }
{
    for c in characters {
        if !c.is_ascii() {
            return false;
        }
    }
    true
}

/// The characters of a text.
fn characters(alloc: Global, text: &str) -> Result<Vec<char>, AllocError>
    ensures { IfOk result (λ v. v.items ≡ chars text.now) }
{
    text.chars().collect(alloc)
}

/// A key so far: its letters, and whether a gap was met behind the last of them.
#[derive(Drop)]
struct BegunKey {
    letters: Vec<char>,
    gap: bool,
}

/// Appends what stands for characters in a key.
fn push_characters(key: &mut BegunKey, characters: &[char]) -> Result<(), AllocError>
    ensures { OnOk result (begun_view key.new
        ≡ with_characters (begun_view key.old) characters.now) }
{
    for c in characters {
        push_character(key, *c)?;
    }
    Ok(())
}

/// Appends what stands for a character in a key.
fn push_character(key: &mut BegunKey, c: char) -> Result<(), AllocError>
    ensures { OnOk result (begun_view key.new ≡ with_character (begun_view key.old) c) }
{
    if is_gap(c) {
        key.gap = true;
        return Ok(());
    }
    if is_left_out(c) {
        return Ok(());
    }
    push_gap(key)?;
    push_folded(&mut key.letters, c)
}

/// Appends the gap that was met, if letters stand before it.
fn push_gap(key: &mut BegunKey) -> Result<(), AllocError>
    ensures { OnOk result (begun_view key.new
        ≡ record { letters = parted (begun_view key.old); gap = false }) }
{
    if key.gap && !key.letters.is_empty() {
        key.letters.push(' ')?;
    }
    key.gap = false;
    Ok(())
}

/// Appends the letters that stand for a character, folded.
fn push_folded(letters: &mut Vec<char>, c: char) -> Result<(), AllocError>
    ensures { OnOk result (letters.new.items ≡ letters.old.items ++ flat_map letter (full_fold c)) }
{
    if c.is_ascii() {
        letters.push(c.to_ascii_lowercase())?;
        return Ok(());
    }
    let folded = full_folding(c);
    if folded.is_empty() {
        push_letter(letters, c)
    } else {
        push_letters(letters, folded)
    }
}

/// Appends the letters that stand for each of some.
fn push_letters(letters: &mut Vec<char>, folded: &[char]) -> Result<(), AllocError>
    ensures { OnOk result (letters.new.items ≡ letters.old.items ++ flat_map letter folded.now) }
{
    for c in folded {
        push_letter(letters, *c)?;
    }
    Ok(())
}

/// Appends the letters that stand for a folded one.
fn push_letter(letters: &mut Vec<char>, c: char) -> Result<(), AllocError>
    ensures { OnOk result (letters.new.items ≡ letters.old.items ++ letter c) }
{
    let others = letters_for(c);
    if others.is_empty() {
        letters.push(c)?;
        return Ok(());
    }
    letters.extend_from_slice(others)
}

/// Whether the character parts words: white space, or an apostrophe.
fn is_gap(c: char) -> bool
    ensures { result ≡ is_gap c }
{
    c.is_whitespace() || c == '\'' || c == '’'
}

/// Whether nothing stands for the character in a key: it is a mark or punctuation.
#[tactic(auto, unfolding(crate::specs::Keys::is_left_out))]
fn is_left_out(c: char) -> bool
    ensures { result ≡ is_left_out c }
{
    let category = GeneralCategory::for_char(c);
    GeneralCategoryGroup::Mark.contains(category)
        || GeneralCategoryGroup::Punctuation.contains(category)
}
