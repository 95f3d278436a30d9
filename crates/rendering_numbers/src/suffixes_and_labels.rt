//! Year suffixes, and the labels of entries.

ghost use Rattle.std.specs.Prelude.{◌≡◌, ◌≤◌, ◌++◌, map, take, OnOk};
ghost use Rattle.std.specs.List.{flat_map};
ghost use Rattle.std.specs.Str.{chars};
ghost use Rattle.laws.specs.Text.{characters};
ghost use Rattle.literature_values.specs.PersonViews.{person_view};
ghost use Rattle.rendering_numbers.specs.SuffixesAndLabels.{letter_at, year_suffix_text, initial_letters, people_label, name_label, year_label, citation_label};

use crate::digits::push_two_digits;
use literature_values::Person;
use std::alloc::AllocError;
use texts::{push_character, push_text};

/// Appends the year suffix of an index from zero: a to z, then aa, ab and so on up to zz, the index 701. At a later index the
/// first character is no letter.
///
/// # Errors
/// Out of memory alone.
pub fn push_year_suffix(out: &mut String, index: u16) -> Result<(), AllocError>
    ensures { OnOk result (characters out.new ≡ characters out.old ++ year_suffix_text index) }
{
    if index < 26 {
        return push_character(out, letter(index));
    }
    push_character(out, letter(index / 26 - 1))?;
    push_character(out, letter(index % 26))
}

/// The letter at an index from zero; past z, what follows it among characters.
fn letter(index: u16) -> char
    // The indices of two letters go no further.
    requires { index ≤ 2520 }
    ensures { result ≡ letter_at index }
{
    char::from_u32(97 + u32::from(index)).unwrap()
}

/// Appends the label of an entry: so many letters of one author, or the first letter of each of two or three, or of more
/// so many of the first and a plus sign; without authors the same of the editors, without both so many letters of the
/// title; and the last two digits of the year.
///
/// # Errors
/// Out of memory alone.
pub fn push_citation_label(
    out: &mut String,
    letters: usize,
    authors: &[Person],
    editors: &[Person],
    title: &str,
    year: Option<i32>,
) -> Result<(), AllocError>
    ensures { OnOk result (characters out.new ≡ characters out.old ++ citation_label letters
        (map person_view authors.now) (map person_view editors.now) (chars title.now) year) }
{
    push_name_label(out, letters, authors, editors, title)?;
    push_year_label(out, year)
}

/// Appends the label of the authors, else of the editors, else of the title.
fn push_name_label(
    out: &mut String,
    letters: usize,
    authors: &[Person],
    editors: &[Person],
    title: &str,
) -> Result<(), AllocError>
    ensures { OnOk result (characters out.new ≡ characters out.old ++ name_label letters
        (map person_view authors.now) (map person_view editors.now) (chars title.now)) }
{
    if !authors.is_empty() {
        return push_people_label(out, letters, authors);
    }
    if !editors.is_empty() {
        return push_people_label(out, letters, editors);
    }
    push_prefix(out, letters, title)
}

fn push_people_label(out: &mut String, letters: usize, people: &[Person]) -> Result<(), AllocError>
    ensures { OnOk result (characters out.new
        ≡ characters out.old ++ people_label letters (map person_view people.now)) }
{
    match people {
        [] => Ok(()),
        [first] => push_initial_letters(out, letters, first),
        [first, _, _, _, ..] => {
            push_initial_letters(out, letters, first)?;
            push_character(out, '+')
        }
        _ => push_initials(out, people),
    }
}

/// Appends the first letter of each.
fn push_initials(out: &mut String, people: &[Person]) -> Result<(), AllocError>
    ensures { OnOk result (characters out.new
        ≡ characters out.old ++ flat_map (initial_letters 1) (map person_view people.now)) }
{
    for person in people {
        push_initial_letters(out, 1, person)?;
    }
    Ok(())
}

/// Appends the first characters of a family name.
fn push_initial_letters(out: &mut String, letters: usize, person: &Person) -> Result<(), AllocError>
    ensures { OnOk result (characters out.new
        ≡ characters out.old ++ initial_letters letters (person_view person.now)) }
{
    push_prefix(out, letters, person.name.as_str())
}

/// Appends so many characters of a text from its start, or all where it has fewer.
fn push_prefix(out: &mut String, count: usize, text: &str) -> Result<(), AllocError>
    ensures { OnOk result (characters out.new ≡ characters out.old ++ take count (chars text.now)) }
{
    for c in text.chars().take(count) {
        push_character(out, c)?;
    }
    Ok(())
}

/// Appends the last two digits of a year, where there is one.
fn push_year_label(out: &mut String, year: Option<i32>) -> Result<(), AllocError>
    ensures { OnOk result (characters out.new ≡ characters out.old ++ year_label year) }
{
    match year {
        Some(year) => push_two_digits(out, year.rem_euclid(100).unsigned_abs()),
        None => Ok(()),
    }
}
